//! What follows from the definition of a world (`pod_core/specs/World.antt`): after any list of
//! events there is one legal history, and a crash leaves an image of it.
//!
//! ```ignore
//! world_laws::one_legal_history(&clock);   // each output is that of a session of one history
//! ```
//!
//! Proved of `WorldRun`, for every list of events of any connections: what each connection wrote is
//! the output of a session of the world's history, over the events of all that it read
//! (`sessions`); the history only grows, is published but for its last entry at most, and no
//! connection has seen more than that (`grows`); and each image with which the world may stop
//! stands for the history, or for it with one entry more that isn't published (`stops`, `ends`). The
//! function does nothing: its contract is the law.
//!
//! It depends on `pod_core` for the definitions, on `http_conn` for the laws of messages, on
//! `reply_laws`, on `refusal_laws` for the size of entries, and on `journal_log` and `pod_records` for
//! what an image stands for.
#![tactic(auto)]

ghost use Rattle.world_laws.specs.CrashedWorlds.{EndsStand, StopsStand};
ghost use Rattle.world_laws.specs.OneHistory.{OneLegalHistory, OnlyGrows};

use pod_io::Clock;

/// Whatever the events of a world, each connection wrote the output of a session of one history,
/// which only grows, and which a crash keeps.
pub fn one_legal_history<C: Clock>(clock: &C)
    ensures sessions { OneLegalHistory (C.may_give clock.now) }
    ensures grows { OnlyGrows (C.may_give clock.now) }

    // Where a journal can hold the first history, and each entry that is written has a stored form,
    // each image that a crash may leave stands for the history, or for it with one entry more that
    // isn't published.
    ensures stops { StopsStand (C.may_give clock.now) }

    // So it does where a journal can hold the history at the end and what may follow it.
    ensures ends { EndsStand (C.may_give clock.now) }
{
    let _clock = clock;
    http_conn::laws::one_parse();
    http_conn::laws::events_stay();
    http_conn::laws::nothing_after_an_end();
    reply_laws::complete();
    reply_laws::applies();
    refusal_laws::replies_by_rank();
}
