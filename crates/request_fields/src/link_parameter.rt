//! The parameters of a link (RFC 8288, section 3).

ghost use Rattle.std.specs.Prelude.{◌≡◌, ◌||◌, IfSome, IfNone, Some, None, drop};
ghost use Rattle.std.specs.List.{list_all};
ghost use Rattle.std.specs.Option.{option_copied};
ghost use Rattle.field_list.specs.Parts.{parts, parts_rest};
ghost use Rattle.field_list.specs.declared.quoting.Quoting.TheVariants.{Strings};
ghost use Rattle.request_fields.specs.LinkParameters as spec;

use field_list::{Parts, Quoting, is_quoted_string, split_pair, trim};
use httparse::is_token;

/// Whether a text is the value of a link's parameter: a token or a quoted string.
fn is_parameter_value(text: &[u8]) -> bool
    ensures { result ≡ spec.is_parameter_value text.now }
{
    is_token(text) || is_quoted_string(text)
}

/// Whether a text is a link's parameter with a value: a name, `=` and the value, with blanks about
/// the `=`.
fn is_named_value(text: &[u8]) -> bool
    ensures { result ≡ spec.is_named_value text.now }
{
    match split_pair(Quoting::Strings, b'=', text) {
        Some((name, value)) => is_token(trim(name)) && is_parameter_value(trim(value)),
        None => false,
    }
}

/// Whether a text is a link's parameter: a name alone, or a name and a value.
fn is_parameter(text: &[u8]) -> bool
    ensures { result ≡ spec.is_parameter text.now }
{
    is_token(text) || is_named_value(text)
}

/// The value of a link's parameter with that name; empty where the name stands alone.
fn value_named<'a>(text: &'a [u8], name: &str) -> Option<&'a [u8]>
    ensures { option_copied result ≡ spec.value_named name.now text.entry.now }
{
    match split_pair(Quoting::Strings, b'=', text) {
        Some((given, value)) => {
            if trim(given).eq_ignore_ascii_case(name.as_bytes()) {
                Some(trim(value))
            } else {
                None
            }
        }
        None => {
            if text.eq_ignore_ascii_case(name.as_bytes()) {
                Some(&[])
            } else {
                None
            }
        }
    }
}

/// The parameters of a link, which follow its target, not yet trimmed.
fn parameter_parts(link: &[u8]) -> Parts<'_>
    ensures { parts_rest result ≡ drop 1 (parts Strings 59 link.now) }
{
    let mut parts = Parts::of(Quoting::Strings, b';', link);
    let _target = parts.next();
    parts
}

/// Whether each parameter of a link is well-formed.
pub(crate) fn are_parameters(link: &[u8]) -> bool
    ensures { result ≡ list_all spec.is_parameter (spec.parameters link.now) }
{
    let mut parts = parameter_parts(link);
    while let Some(part) = parts.next() {
        if !is_parameter(trim(part)) {
            return false;
        }
    }
    true
}

/// The value of the first parameter `rel` of a link.
pub(crate) fn relation(link: &[u8]) -> Option<&[u8]>
    ensures { option_copied result ≡ spec.relation (spec.parameters link.now) }
{
    let mut parts = parameter_parts(link);
    while let Some(part) = parts.next() {
        if let Some(value) = value_named(trim(part), "rel") {
            return Some(value);
        }
    }
    None
}
