//! Tests of whole texts, for readers and writers of other forms of RDF.

ghost use Rattle.std.specs.Prelude.{◌++◌, codes, MatchBool, IsTrue};
ghost use Rattle.turtle_lex.specs.Laws.{IsTextOf};
ghost use Rattle.turtle_lex.specs.Terminals.{label, lang_tag};

use crate::char_runs::{strip_some, strip_tag_parts};
use crate::classes::Class;
use crate::names::strip_label;

/// Whether the whole text may follow `_:` in a BLANK_NODE_LABEL.
pub fn is_label(text: &str) -> bool
    ensures { MatchBool result (IsTextOf label text.now) (IsTextOf label text.now → ⊥) }
{
    match strip_label(text.as_bytes()) {
        Some(rest) => rest.is_empty(),
        None => false,
    }
}

/// Whether the whole text may follow `@` in a LANGTAG.
pub fn is_lang_tag(text: &str) -> bool
    ensures { MatchBool result (IsTextOf lang_tag (codes "@" ++ text.now))
        (IsTextOf lang_tag (codes "@" ++ text.now) → ⊥) }
{
    match strip_some(text.as_bytes(), Class::Letter) {
        Some(rest) => strip_tag_parts(rest).is_empty(),
        None => false,
    }
}
