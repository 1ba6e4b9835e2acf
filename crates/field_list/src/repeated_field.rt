//! The value of a field that is repeated (RFC 9110, section 5.3).

ghost use Rattle.std.specs.Prelude.{◌≡◌, ◌++◌, IfOk};
ghost use Rattle.std.specs.List.{flat_map, list_any};
ghost use Rattle.pod_base.specs.Fields.{is_named};
ghost use Rattle.field_list.specs.Joined as spec;

use pod_base::{Bytes, BytesBuilder, Field, Fields, Mem};
use std::alloc::Global;

/// Appends a comma and the value of a further field, where it has the name of the repeated field.
fn append_value(alloc: Global, value: &mut BytesBuilder, field: &Field, name: &str) -> Mem<()>
    ensures { IfOk result (λ _. value.new ≡ value.old ++ spec.added name.now field.now) }
{
    if field.is_named(name) {
        value.append(alloc, b",")?;
        value.append(alloc, field.value.as_slice())?;
    }
    Ok(())
}

/// Whether one of these fields has the name of the repeated field.
fn has_field(fields: &[Field], name: &str) -> bool
    ensures { result ≡ list_any (is_named name.now) fields.now }
{
    fields.iter().any(|field| field.is_named(name))
}

/// The value of a repeated field: the first one, and after it a comma and the value of each further
/// field of that name. One value alone is shared.
fn with_further(alloc: Global, first: &Bytes, rest: &[Field], name: &str) -> Mem<Bytes>
    ensures { IfOk result (λ value. value ≡ first.now ++ flat_map (spec.added name.now) rest.now) }
{
    if !has_field(rest, name) {
        return first.copy(alloc);
    }
    let mut value = BytesBuilder::new(alloc);
    value.append(alloc, first.as_slice())?;
    for field in rest {
        append_value(alloc, &mut value, field, name)?;
    }
    value.freeze(alloc)
}

/// The value of a field that may be repeated: those of the fields of that name, joined by commas;
/// none where no field has it.
pub fn joined_value(alloc: Global, fields: &Fields, name: &str) -> Mem<Option<Bytes>>
    ensures { IfOk result (λ value. value ≡ spec.joined_value name.now fields.now) }
{
    let mut rest = fields.list.as_slice();
    while let Some((field, more)) = rest.split_first() {
        if field.is_named(name) {
            let value = with_further(alloc, &field.value, more, name)?;
            return Ok(Some(value));
        }
        rest = more;
    }
    Ok(None)
}
