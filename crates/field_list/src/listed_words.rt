//! Words in lists of tokens: the options of a connection, protocols (RFC 9110, section 7.6.1).

ghost use Rattle.std.specs.Prelude.{◌≡◌};
ghost use Rattle.std.specs.List.{list_any};
ghost use Rattle.std.specs.Str.{str_eq_ignore_ascii_case};
ghost use Rattle.httparse.specs.Grammar.{trim_ows};
ghost use Rattle.field_list.specs.Words as spec;

use crate::blanks::trim;
use pod_base::{Field, Fields};

/// Whether an element of a list is the word, in any case and with blanks around it.
fn is_word(text: &[u8], word: &str) -> bool
    ensures { result ≡ str_eq_ignore_ascii_case (trim_ows text.now) word.now }
{
    trim(text).eq_ignore_ascii_case(word.as_bytes())
}

/// Whether the word is in the list of a value: among the texts between its commas, in any case.
/// Such a list has tokens alone, so quotes mean nothing in it.
pub fn has_word(value: &[u8], word: &str) -> bool
    ensures { result ≡ spec.has_word word.now value.now }
{
    value
        .split(|byte| *byte == b',')
        .any(|text| is_word(text, word))
}

/// Whether a field has that name, and its list the word.
fn names_word(field: &Field, name: &str, word: &str) -> bool
    ensures { result ≡ spec.names_word name.now word.now field.now }
{
    field.is_named(name) && has_word(field.value.as_slice(), word)
}

/// Whether one of these fields has that name, and its list the word.
fn any_names_word(fields: &[Field], name: &str, word: &str) -> bool
    ensures { result ≡ list_any (spec.names_word name.now word.now) fields.now }
{
    fields.iter().any(|field| names_word(field, name, word))
}

/// Whether the word is in the list of some field of that name.
pub fn some_has_word(fields: &Fields, name: &str, word: &str) -> bool
    ensures { result ≡ spec.some_has_word name.now word.now fields.now }
{
    any_names_word(fields.list.as_slice(), name, word)
}
