//! Whether a connection persists after a response.

ghost use Rattle.std.specs.Prelude.{◌≡◌, ◌||◌, ◌==◌, reverse, codes};
ghost use Rattle.std.specs.List.{list_any};
ghost use Rattle.std.specs.Str.{str_eq_ignore_ascii_case};
ghost use Rattle.httparse.specs.Grammar.{skip_ows, trim_ows};
ghost use Rattle.http_head.specs.Fields.{fields_named};
ghost use Rattle.http_head.specs.Persistence as spec;

use httparse::is_space_or_tab;
use pod_base::Fields;

/// An option of a Connection field without the spaces and tabs before it.
fn trim_start(mut bytes: &[u8]) -> &[u8]
    ensures { result.now ≡ skip_ows bytes.now }
{
    while let [first, rest @ ..] = bytes
        && is_space_or_tab(*first)
    {
        bytes = rest;
    }
    bytes
}

/// An option of a Connection field without the spaces and tabs after it.
fn trim_end(mut bytes: &[u8]) -> &[u8]
    ensures { result.now ≡ reverse (skip_ows (reverse bytes.now)) }
{
    while let [rest @ .., last] = bytes
        && is_space_or_tab(*last)
    {
        bytes = rest;
    }
    bytes
}

/// An option of a Connection field without the spaces and tabs around it.
#[tactic(auto, unfolding(httparse::specs::Grammar::trim_ows))]
fn trim(bytes: &[u8]) -> &[u8]
    ensures { result.now ≡ trim_ows bytes.now }
{
    trim_end(trim_start(bytes))
}

/// Whether an option of a Connection field is `close`, in any case and with blanks around it.
fn is_close(option: &[u8]) -> bool
    ensures { result ≡ str_eq_ignore_ascii_case (trim_ows option.now) (codes "close") }
{
    trim(option).eq_ignore_ascii_case(b"close")
}

/// Whether `close` is among the options of a Connection field, which commas separate.
fn has_close_option(value: &[u8]) -> bool
    ensures { result ≡ spec.has_close_option value.now }
{
    value
        .split(|byte| *byte == b',')
        .any(|option| is_close(option))
}

/// Whether a head asks to close the connection: some Connection field has the option `close`.
fn asks_to_close(fields: &Fields) -> bool
    ensures { result ≡ list_any (λ f. spec.has_close_option f.value)
        (fields_named (codes "connection") fields.now) }
{
    fields
        .list
        .as_slice()
        .iter()
        .filter(|field| field.is_named("connection"))
        .any(|field| has_close_option(field.value.as_slice()))
}

/// Whether the connection closes after the response to a head (RFC 9112, section 9.3): some
/// Connection field has the option `close`, in any case, or the version is 1.0.
pub fn closes(minor: u8, fields: &Fields) -> bool
    ensures { result ≡ spec.closes minor fields.now }
{
    minor == 0 || asks_to_close(fields)
}
