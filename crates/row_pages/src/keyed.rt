//! [`Keyed`]: what stands in the order by a path, which is read on a count.
ghost use Rattle.std.specs.Prelude.{◌≡◌, ◌+◌, ℕ, List};

use crate::search_steps::Steps;
use std::sync::ledger::Ledger;

/// What stands in the order by a path, its key: a row by its own, and a page by that of its first
/// row. Code that knows of it no more than this has no way to the key but one that adds a step.
pub trait Keyed {
    /// Its key.
    ghost key: { Self → List ℕ };

    /// The key of the value, a path by which it is in order: one step.
    fn key<L: Ledger>(&self, steps: &mut Steps<L>) -> &[u8]
        ensures key { result.now ≡ key self.now }
        ensures cost { steps.new ≡ steps.old + 1 };
}
