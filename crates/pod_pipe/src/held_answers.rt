//! [`Held`]: the holder of a pod, as what answers its one connection.

use crate::holder::{HolderFault, PodHolder};
use conn_talk::{AnswerFault, Answers};
use pod_base::{Request, Stamp};
use pod_core::Answer;
use std::alloc::Global;
use token_table::Asked;

/// The holder of a pod, as what answers its one connection. Each request finds a place.
#[derive(Drop)]
pub(crate) struct Held<H> {
    pub holder: H,
}

impl<H: PodHolder> Answers for Held<H> {
    ghost use Rattle.std.specs.Prelude.{Option};
    ghost use Rattle.pod_command.specs.declared.entry.Entry.{Entry};
    ghost use Rattle.pod_core.specs.History.{History};
    ghost use Rattle.pod_pipe.specs.Held.{HolderTurns};

    ghost ready = { λ held.
        (history : History) × (doubt : Option Entry) × H.stands held.holder history doubt };

    ghost turns = { λ conn clock old item new.
        HolderTurns H.stands H.faults H.takes conn clock old.holder item new.holder };

    ghost passes = { λ request old new. ⊥ };

    fn answer(
        &mut self,
        alloc: Global,
        request: &Request,
        asked: &Asked<'_>,
        stamp: Stamp,
    ) -> Result<Answer, AnswerFault> {
        match self.holder.answer(alloc, request, asked, stamp) {
            Ok(answer) => Ok(answer),
            Err(HolderFault::NoMemory) => Err(AnswerFault::NoMemory),
            Err(HolderFault::DiskFault) => Err(AnswerFault::DiskFault),
        }
    }
}
