//! Prefixes of the one list of a view.
ghost use Rattle.std.specs.Prelude.{◌≡◌, ◌+◌, ◌++◌, [], ◌∷◌, ◌⊎◌, length, IsTrue};
ghost use Rattle.std.specs.Bool.{OnFalse};
ghost use mathlib.Core.List.{IsPrefix};
ghost use Rattle.published_view.specs.ListRule.{length_word};

use crate::list_rule::{AppendStep, ListRule, NoGain};
use crate::view_name::ViewName;
use logbook::{Offer, Seen, Start, Word};
use std::marker::{Model, PhantomData};

/// A list with no item, which no view has yet. It has no bytes. Contracts see the book in which it
/// is kept.
#[derive(Drop)]
pub struct NewList<I> {
    word: Word<I, u64, ListRule>,
    seen: Seen<I, u64, ListRule>,
}

impl<I> Model for NewList<I> {
    ghost use Rattle.std.specs.Prelude.{◌≡◌, []};
    ghost use Rattle.logbook.specs.Pages.{Book, book_coded};
    ghost use Rattle.published_view.specs.ListRule.{length_word};

    ghost Value = { Book };

    ghost coded = { book_coded };

    ghost view = { λ l. l.seen.book };

    ghost invariant = { λ l. (l.seen.log ≡ []) × (l.word ≡ length_word l.seen.book) };
}

impl<I> NewList<I> {
    /// Makes the list of a view that isn't opened yet.
    pub fn new() -> NewList<I> {
        let (seen, mut first, _second) = Seen::open(Start::alone(), 0, 0);
        NewList {
            word: Word::tracked(0, &mut first),
            seen,
        }
    }

    /// Gives the list of a view the view's name, and returns the first prefix of it.
    pub(crate) fn under_name<N: ViewName<I>>(self) -> (LengthWord<I, N>, Front<I, N>)
        requires { self ≡ N.book }
        ensures { result.1 ≡ N.opening }
    {
        let NewList { word, seen } = self;
        (
            LengthWord {
                word,
                of: PhantomData,
            },
            Front {
                count: 0,
                seen,
                of: PhantomData,
            },
        )
    }
}

/// The length of the list, which the publisher holds.
#[derive(Drop)]
pub struct LengthWord<I, N: ViewName<I>> {
    word: Word<I, u64, ListRule>,
    of: PhantomData<N>,
    ghost word_is: { word ≡ length_word N.book },
}

/// A prefix of the one list of a view: what was published at some moment. Contracts see it as that
/// list. It takes 8 bytes, and can be copied, stored and sent to other threads.
#[derive(Drop)]
pub struct Front<I, N: ViewName<I>> {
    count: u64,
    seen: Seen<I, u64, ListRule>,
    of: PhantomData<N>,
}

impl<I, N: ViewName<I>> Model for Front<I, N> {
    ghost use Rattle.std.specs.Prelude.{◌≡◌, ◌++◌, List, length};

    ghost Value = { List I };

    ghost view = { λ f. N.opening ++ f.seen.log };

    ghost invariant = { λ f. (f.count ≡ length f.seen.log) × (f.seen.book ≡ N.book) };
}

impl<I, N: ViewName<I>> Front<I, N> {
    /// How many items this prefix of the view's list has that were added since the view was opened,
    /// behind the opening list.
    pub fn added(&self) -> u64
        ensures count { length self.now ≡ length N.opening + result }
        ensures opening { IsPrefix N.opening self.now }
    {
        self.count
    }

    /// A copy of this prefix of the view's list. It takes no memory.
    pub fn copy(&self) -> Front<I, N>
        ensures { result ≡ self.now }
    {
        Front {
            count: self.count,
            seen: self.seen.again(),
            of: PhantomData,
        }
    }

    /// Whether this prefix of the view's list is a prefix of the other one, too. If not, then the
    /// other is one of this, since both are of one list.
    pub fn is_prefix_of(&self, other: &Front<I, N>) -> bool
        ensures prefix { IsTrue result → IsPrefix self.now other.now }
        ensures only { IsPrefix self.now other.now → IsTrue result }
        ensures otherwise { OnFalse result (IsPrefix other.now self.now) }
    {
        let mut both = self.seen.again();
        both.learn(&other.seen);
        self.count <= other.count
    }

    /// The longer of two prefixes of the view's list, of which the other is a prefix.
    pub fn longer(&self, other: &Front<I, N>) -> Front<I, N>
        ensures this { IsPrefix self.now result }
        ensures that { IsPrefix other.now result }
        ensures one { (result ≡ self.now) ⊎ (result ≡ other.now) }
    {
        if self.is_prefix_of(other) {
            other.copy()
        } else {
            self.copy()
        }
    }

    /// Appends an item to all that was seen of the view's list, and returns whether it did. It did
    /// not where the list was longer already, or has taken 2^64 - 1 items.
    pub(crate) fn append(&mut self, length: &LengthWord<I, N>, item: &I) -> bool
        ensures { IsTrue result → self.new ≡ self.old ++ item.now ∷ [] }
    {
        let count = self.count;
        if count == u64::MAX {
            return false;
        }
        let mut offer: Offer<I, u64, ListRule, NoGain> = self
            .seen
            .plain::<NoGain, I, AppendStep>(item);
        let mut pen = self.seen.no_pen();
        let found = length
            .word
            .compare_exchange::<AppendStep, NoGain>(
                count,
                count + 1,
                &mut self.seen,
                &mut offer,
                &mut pen,
            );
        self.count = if found == count { count + 1 } else { found };
        found == count
    }
}
