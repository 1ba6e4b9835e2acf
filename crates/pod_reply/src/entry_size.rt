//! [`is_too_large`]: entries are of a bounded size.

ghost use Rattle.std.specs.Prelude.{◌≡◌};
ghost use Rattle.pod_reply.specs.EntrySize as spec;

use pod_command::Entry;
use stored_forms::entry_size;

/// The most bytes of an entry's stored form, its bases counted.
pub const ENTRY_BYTES_LIMIT: u64 = 16_777_216;

/// Whether the stored form of an entry is longer than [`ENTRY_BYTES_LIMIT`].
#[tactic(auto, unfolding(rdf_graph::specs::Size::saturated))]
pub(crate) fn is_too_large(entry: &Entry) -> bool
    ensures { result ≡ spec.is_too_large entry.now }
{
    entry_size(entry) > ENTRY_BYTES_LIMIT
}
