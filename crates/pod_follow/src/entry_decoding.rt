//! Entries in either format.
ghost use Rattle.std.specs.Prelude.{◌≡◌, None, IfOk, IfSome};
ghost use Rattle.pod_command.specs.declared.entry.Entry.{Entry as EntryValue};
ghost use Rattle.pod_follow.specs.Followed.{IsEntryText, IsTheEntry};

use pod_base::Mem;
use pod_command::Entry;
use std::alloc::Global;
use stored_forms::laws::one_form;

/// Decodes an entry that a follower takes, from its text in either format; none where it is the
/// text of none.
pub(crate) fn read_entry(alloc: Global, text: &[u8]) -> Mem<Option<Entry>>
    ensures some { IfOk result (λ found. IfSome found (IsTheEntry text.now)) }
    ensures none { IfOk result (λ found. found ≡ None
        → (entry : EntryValue) → IsEntryText text.now entry → ⊥) }
{
    one_form();
    let new = pod_records::read_entry(alloc, 2, text)?;
    match new {
        Some(entry) => Ok(Some(entry)),
        None => {
            let old = pod_records::read_entry(alloc, 1, text)?;
            Ok(old)
        }
    }
}
