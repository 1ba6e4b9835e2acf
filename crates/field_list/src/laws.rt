//! Laws of the parts of a text, as contracts of functions that do nothing.

ghost use Rattle.std.specs.Prelude.{◌≡◌, List, ℕ};
ghost use Rattle.std.specs.List.{join_with_byte};
ghost use Rattle.field_list.specs.Parts.{parts};
ghost use Rattle.field_list.specs.declared.quoting.Quoting.{Quoting};

/// The parts of a field's text, with a separator between each two, are the text.
pub fn parts_join_to_the_text()
    ensures { (quoting : Quoting) (separator : ℕ) (text : List ℕ)
        → join_with_byte separator (parts quoting separator text) ≡ text }
{}
