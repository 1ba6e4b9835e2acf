//! Adding fields to those of a response.

ghost use Rattle.std.specs.Prelude.{◌≡◌, ◌++◌, ◌∷◌, [], OnOk, IfOk};
ghost use Rattle.pod_responses.specs.Links.{field};

use pod_base::{Bytes, Field, Fields, Mem};
use std::alloc::Global;

/// Adds a field to those of a response.
pub(crate) fn add(alloc: Global, fields: &mut Fields, name: &'static str, value: Bytes) -> Mem<()>
    ensures { OnOk result (fields.new ≡ fields.old ++ field name.now value ∷ []) }
{
    let name = Bytes::from_static(name.as_bytes());
    fields.add(alloc, Field { name, value })
}

/// Adds a field to those of a response, whose value is always the same.
pub(crate) fn add_static(
    alloc: Global,
    fields: &mut Fields,
    name: &'static str,
    value: &'static str,
) -> Mem<()>
    ensures { OnOk result (fields.new ≡ fields.old ++ field name.now value.now ∷ []) }
{
    add(alloc, fields, name, Bytes::from_static(value.as_bytes()))
}

/// Adds a field to those of a response, whose value is a text.
pub(crate) fn add_text(
    alloc: Global,
    fields: &mut Fields,
    name: &'static str,
    value: &[u8],
) -> Mem<()>
    ensures { OnOk result (fields.new ≡ fields.old ++ field name.now value.now ∷ []) }
{
    let value = Bytes::of(alloc, value)?;
    add(alloc, fields, name, value)
}
