//! What follows from the definitions: the contract of the function is a law, and it does nothing.

ghost use Rattle.slug_naming.specs.Laws.{HasOneName};

/// A new member of a container has at most one name by its slug: the first free candidate is one.
pub fn one_name()
    ensures { HasOneName }
{}
