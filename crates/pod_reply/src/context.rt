//! [`Context`]: what the ranks of a request to a path read.

use crate::origin::Origin;
use conditional_req::Conditions;
use pod_base::Request;
use pod_command::Row;
use pod_path::Path;
use pod_rows::PodState;
use std::alloc::Global;
use std::marker::Model;

/// What the ranks of a request to a path read. A clause sees its `Case`.
#[derive(Drop)]
pub struct Context<'a, S: PodState> {
    pub alloc: Global,
    pub state: &'a S,
    pub request: &'a Request,
    pub path: &'a Path,
    pub origin: &'a Origin,
    /// The preconditions of the request.
    pub conditions: &'a Conditions,
    /// The row at the path, found once.
    pub row: Option<&'a Row>,
}

impl<'a, S: PodState> Model for Context<'a, S> {
    ghost use Rattle.std.specs.Prelude.{◌≡◌};
    ghost use Rattle.std.specs.Option.{option_copied};
    ghost use Rattle.conditional_req.specs.Conditions.{conditions as conditions_of};
    ghost use Rattle.pod_reply.specs.Ranks.{Case, case};
    ghost use Rattle.pod_rows.specs.Pod.{row_at};

    ghost Value = { Case };

    ghost view = { λ context. case (S.pod context.state.now) context.request.now context.path.now
        context.origin.now };

    ghost invariant = { λ context.
        (context.conditions.now ≡ conditions_of context.request.now.fields)
        × (option_copied context.row ≡ row_at (S.pod context.state.now).rows context.path.now) };
}
