//! Which view it is.
ghost use Rattle.std.specs.Prelude.{ℕ, List, []};
ghost use Rattle.logbook.specs.Pages.{Book};

use std::marker::Brand;

/// Which view it is. No value has this type: the types of one view share it, so that their
/// contracts speak of one list.
///
/// A version that stands for its list by what it was opened with, as a store by its snapshot, is
/// generic in a parameter under a trait of its own that names this, and the same type names the
/// view.
pub trait ViewName<I> {
    /// The book in which the list is kept.
    ghost book: { Book };

    /// The number of the list's first item.
    ghost first_number: { ℕ };

    /// The list that the view opens with.
    ghost opening: { List I };
}

impl<I> ViewName<I> for Brand {
    ghost book = { record { number = 0; log_name = 0; cells_name = 0 } };

    ghost first_number = { 0 };

    ghost opening = { [] };
}
