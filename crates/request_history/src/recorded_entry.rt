//! [`Recorded`]: an entry and its record.
ghost use Rattle.std.specs.Prelude.{◌≡◌, IfOk};
ghost use Rattle.pod_command.specs.Bare.{bare_entry};
ghost use Rattle.pod_command.specs.Encodable.{IsEncodable};
ghost use Rattle.stored_forms.specs.Storable.{IsStorable};
ghost use Rattle.stored_forms.specs.StoredForms.{entry_bytes};

use pod_base::{Bytes, Mem};
use pod_command::Entry;
use std::alloc::Global;
use std::marker::Model;
use stored_forms::encode_entry;

/// An entry, whose lists have no spare room, and its record in format 2. Contracts see the entry.
#[derive(Drop)]
pub(crate) struct Recorded {
    entry: Entry,
    body: Bytes,
}

impl Model for Recorded {
    ghost use Rattle.std.specs.Prelude.{◌≡◌};
    ghost use Rattle.pod_command.specs.Bare.{bare_entry};
    ghost use Rattle.stored_forms.specs.StoredForms.{entry_bytes};
    ghost use Rattle.pod_command.specs.declared.entry.Entry.{Entry};

    ghost Value = { Entry };

    ghost view = { λ r. r.entry };

    ghost invariant = { λ r. (r.body ≡ entry_bytes r.entry) × (bare_entry r.entry ≡ r.entry) };
}

impl Recorded {
    /// A recorded entry: an entry with its record.
    pub(crate) fn of(alloc: Global, entry: &Entry) -> Mem<Recorded>
        requires { IsEncodable entry.now }
        ensures is { IfOk result (λ recorded. recorded ≡ bare_entry entry.now) }
        ensures storable { IfOk result IsStorable }
    {
        let body = encode_entry(alloc, entry)?;
        let entry = entry.copy(alloc)?;
        Ok(Recorded { entry, body })
    }

    /// A copy of the recorded entry.
    pub(crate) fn copy_entry(&self, alloc: Global) -> Mem<Entry>
        ensures { IfOk result (λ entry. entry ≡ self.now) }
    {
        let entry = self.entry.copy(alloc)?;
        Ok(entry)
    }

    /// The entry that is recorded.
    pub(crate) fn entry(&self) -> &Entry
        ensures { result.now ≡ self.now }
    {
        &self.entry
    }

    /// The bytes of the recorded entry's record.
    pub(crate) fn body(&self) -> &[u8]
        ensures { result.now ≡ entry_bytes self.now }
    {
        self.body.as_slice()
    }
}
