//! The parameters of an element of an Accept field (RFC 9110, sections 5.6.6 and 12.4.2).

ghost use Rattle.std.specs.Prelude.{◌≡◌, Some, None, drop};
ghost use Rattle.std.specs.List.{list_all};
ghost use Rattle.std.specs.Option.{option_copied};
ghost use Rattle.field_list.specs.Parts.{parts, parts_rest};
ghost use Rattle.field_list.specs.declared.quoting.Quoting.TheVariants.{Strings};
ghost use Rattle.content_nego.specs.Parameters as spec;

use crate::quality_number::{FULL_QUALITY, quality_value};
use field_list::{Parts, Quoting, is_quoted_string, split_pair, trim};
use httparse::is_token;

/// Whether a text is a parameter in Accept, or empty.
fn is_parameter(text: &[u8]) -> bool
    ensures { result ≡ spec.is_parameter text.now }
{
    if text.is_empty() {
        return true;
    }
    match split_pair(Quoting::Strings, b'=', text) {
        Some((name, value)) => is_token(name) && (is_token(value) || is_quoted_string(value)),
        None => false,
    }
}

/// The value of the parameter `q` in Accept, where a text is one.
fn weight_value(text: &[u8]) -> Option<&[u8]>
    ensures { option_copied result ≡ spec.weight_value text.now }
{
    match split_pair(Quoting::Strings, b'=', text) {
        Some((name, value)) => {
            if name.eq_ignore_ascii_case(b"q") {
                Some(value)
            } else {
                None
            }
        }
        None => None,
    }
}

/// The parameters of an element of Accept: what follows its media type, not yet trimmed.
fn parameter_parts(element: &[u8]) -> Parts<'_>
    ensures { parts_rest result ≡ drop 1 (parts Strings 59 element.now) }
{
    let mut parts = Parts::of(Quoting::Strings, b';', element);
    let _media_type = parts.next();
    parts
}

/// Whether each parameter of an element of Accept is well-formed.
pub(crate) fn are_parameters(element: &[u8]) -> bool
    ensures { result ≡ list_all spec.is_parameter (spec.parameters element.now) }
{
    let mut parts = parameter_parts(element);
    while let Some(part) = parts.next() {
        if !is_parameter(trim(part)) {
            return false;
        }
    }
    true
}

/// The value of the first parameter `q` in an element of Accept.
fn weight(element: &[u8]) -> Option<&[u8]>
    ensures { option_copied result ≡ spec.weight (spec.parameters element.now) }
{
    let mut parts = parameter_parts(element);
    while let Some(part) = parts.next() {
        if let Some(value) = weight_value(trim(part)) {
            return Some(value);
        }
    }
    None
}

/// The quality that the parameters of an element of Accept give it, in thousandths; none where its
/// first `q` is malformed.
pub(crate) fn quality(element: &[u8]) -> Option<u16>
    ensures { result ≡ spec.quality (spec.parameters element.now) }
{
    match weight(element) {
        Some(value) => quality_value(value),
        None => Some(FULL_QUALITY),
    }
}
