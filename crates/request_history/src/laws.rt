//! What follows for the events that a world took: the contract of this function is the law, and it
//! does nothing.
ghost use Rattle.request_history.specs.Runs.{BeginsWithNone, TakenStopsStand, TakesOneMore};
ghost use Rattle.request_history.specs.Worlds.{any_second};
ghost use Rattle.world_laws.specs.CrashedWorlds.{EndsStand, StopsStand};
ghost use Rattle.world_laws.specs.OneHistory.{OneLegalHistory, OnlyGrows};

use crate::any_clock::AnyClock;

/// A world as a value, which began as the first one of a history and took these events, is one to
/// which the definition leads by them. So all that follows from events holds of it: each connection
/// wrote the output of a session of its one history, which only grew, and which a crash keeps.
pub fn after_events()
    ensures begins { BeginsWithNone }
    ensures takes { TakesOneMore }
    ensures sessions { OneLegalHistory any_second }
    ensures grows { OnlyGrows any_second }

    // Each image with which such a world may stop stands for its history, or for that with one entry
    // more. `World::new` says that a journal can hold its first pod.
    ensures stops { TakenStopsStand }

    // So it is of each run of the definition, where a journal can hold the first history, and each
    // entry that is written has a stored form; or where it can hold the history at the end.
    ensures runs_stop { StopsStand any_second }
    ensures ends { EndsStand any_second }
{
    world_laws::one_legal_history(&AnyClock);
}
