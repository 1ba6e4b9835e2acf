//! Laws of token tables, as contracts of functions that do nothing.

ghost use Rattle.std.specs.Prelude.{◌↔◌, List, ℕ, IsTrue};
ghost use Rattle.std.specs.Str.{IsUtf8};
ghost use Rattle.iri_ref.specs.Components.{IsAbsolute};
ghost use Rattle.token_table.specs.TableLines.{is_agent};

/// An agent in a table of tokens is UTF-8, and an absolute IRI as `iri_ref` has it.
pub fn agents_are_absolute()
    ensures { (text : List ℕ) → IsTrue (is_agent text) ↔ (IsUtf8 text × IsAbsolute text) }
{}
