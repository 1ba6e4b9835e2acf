//! The value of a field that is to stand once (RFC 9110, section 5.3).

ghost use Rattle.std.specs.Prelude.{◌≡◌};
ghost use Rattle.std.specs.Option.{option_copied};
ghost use Rattle.field_list.specs.Values as spec;

use pod_base::Fields;

/// The value of the single field of that name; none where no field has it, or several have.
pub fn only_value<'a>(fields: &'a Fields, name: &str) -> Option<&'a [u8]>
    ensures { option_copied result ≡ spec.only_value name.now fields.entry.now }
{
    if fields.count(name) != 1 {
        return None;
    }
    match fields.first(name) {
        Some(value) => Some(value.as_slice()),
        None => None,
    }
}
