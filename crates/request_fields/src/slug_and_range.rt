//! Fields that are taken as they are: Slug (RFC 5023, section 9.7), Range and If-Range (RFC 9110,
//! sections 13.1.5 and 14.2).

ghost use Rattle.std.specs.Prelude.{◌≡◌};
ghost use Rattle.std.specs.Option.{option_copied};
ghost use Rattle.request_fields.specs.PartFields as spec;

use field_list::only_value;
use pod_base::Fields;

/// The value of the first Slug field: what the client would name a new member.
pub fn slug<'a>(fields: &'a Fields) -> Option<&'a [u8]>
    ensures { option_copied result ≡ spec.slug fields.entry.now }
{
    match fields.first("slug") {
        Some(value) => Some(value.as_slice()),
        None => None,
    }
}

/// The value of the only Range field. Several count as none.
pub fn range<'a>(fields: &'a Fields) -> Option<&'a [u8]>
    ensures { option_copied result ≡ spec.range fields.entry.now }
{
    only_value(fields, "range")
}

/// Whether what follows the first quote of the If-Range field is the tag and a quote.
fn is_tag_and_quote(text: &[u8], tag: &[u8]) -> bool
    ensures { result ≡ spec.is_tag_and_quote tag.now text.now }
{
    match text.split_last() {
        Some((last, rest)) => *last == b'"' && rest == tag,
        None => false,
    }
}

/// Whether the value of the If-Range field is the tag in quotes.
fn is_quoted(text: &[u8], tag: &[u8]) -> bool
    ensures { result ≡ spec.is_quoted tag.now text.now }
{
    match text.split_first() {
        Some((first, rest)) => *first == b'"' && is_tag_and_quote(rest, tag),
        None => false,
    }
}

/// Whether If-Range lets a Range field count, for a representation with that strong tag, which is
/// given without quotes. It does where there is no If-Range field, or one alone, which is this tag
/// in quotes. A weak tag and a date never are.
pub fn allows_ranges(fields: &Fields, tag: &[u8]) -> bool
    ensures { result ≡ spec.allows_ranges tag.now fields.now }
{
    if fields.count("if-range") == 0 {
        return true;
    }
    match only_value(fields, "if-range") {
        Some(value) => is_quoted(value, tag),
        None => false,
    }
}
