//! What follows from the definitions: the contracts of this function are laws, and it does nothing.
ghost use Rattle.std.specs.Prelude.{◌≡◌, ◌+◌, List, length};
ghost use Rattle.pod_command.specs.declared.entry.Entry.{Entry};
ghost use Rattle.pod_command.specs.declared.snapshot.Snapshot.{Snapshot};
ghost use Rattle.pod_rows.specs.Apply.{replayed};
ghost use Rattle.pod_rows.specs.WellFormed.{pod_of};
ghost use Rattle.pod_pages.specs.Effects.{history_effects, kept_effects, oldest_after};
ghost use Rattle.pod_pages.specs.State.{first_state, states_after};

/// The law of the version after a history: its pod is the replayed one, its number has grown by one
/// an entry, and of the effects of all entries it keeps those of the last 256.
pub fn history_law()
    ensures pod { (first : Snapshot) (history : List Entry)
        → (states_after (first_state first) history).pod ≡ replayed (pod_of first) history }
    ensures next { (first : Snapshot) (history : List Entry)
        → (states_after (first_state first) history).next ≡ first.seq + length history }
    ensures oldest { (first : Snapshot) (history : List Entry)
        → (states_after (first_state first) history).oldest
        ≡ oldest_after first.seq (first.seq + length history) }
    ensures effects { (first : Snapshot) (history : List Entry)
        → (states_after (first_state first) history).effects
        ≡ kept_effects (states_after (first_state first) history).oldest
        (history_effects (pod_of first) history) }
{}
