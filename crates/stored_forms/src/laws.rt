//! What the stored forms say of the values.
ghost use Rattle.std.specs.Prelude.{◌≡◌};
ghost use Rattle.pod_command.specs.Bare.{bare_entry, bare_snapshot, without_bases};
ghost use Rattle.stored_forms.specs.Storable.{IsStorable, IsStorableSnapshot};
ghost use Rattle.stored_forms.specs.StoredForms.{entry_1_bytes, entry_bytes, snapshot_bytes};
ghost use Rattle.pod_command.specs.declared.entry.Entry.{Entry};
ghost use Rattle.pod_command.specs.declared.snapshot.Snapshot.{Snapshot};

/// The law that two values with one stored form are equal but for the spare room of their lists,
/// where they can be stored. Format 1 leaves the bases out. The first byte keeps the three kinds of
/// form apart.
pub fn one_form()
    ensures entry { (a b : Entry) → IsStorable a → IsStorable b → entry_bytes a ≡ entry_bytes b
        → bare_entry a ≡ bare_entry b }
    ensures entry_1 { (a b : Entry) → IsStorable a → IsStorable b
        → entry_1_bytes a ≡ entry_1_bytes b → without_bases a ≡ without_bases b }
    ensures snapshot { (a b : Snapshot) → IsStorableSnapshot a → IsStorableSnapshot b
        → snapshot_bytes a ≡ snapshot_bytes b → bare_snapshot a ≡ bare_snapshot b }
    ensures formats { (a b : Entry) → entry_bytes a ≡ entry_1_bytes b → ⊥ }
    ensures records { (a : Entry) (s : Snapshot) → entry_bytes a ≡ snapshot_bytes s → ⊥ }
    ensures old_records { (a : Entry) (s : Snapshot) → entry_1_bytes a ≡ snapshot_bytes s → ⊥ }
{}
