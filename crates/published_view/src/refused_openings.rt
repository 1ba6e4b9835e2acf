//! The count of openings that were refused.
ghost use Rattle.std.specs.Prelude.{◌≡◌};
ghost use Rattle.published_view.specs.LookerState.{CountIncreasedByOne};

use std::marker::Model;

/// The count of openings that `left_right` refused. It stands still at its last value.
#[derive(Drop)]
pub struct Places {
    refused: u64,
}

impl Model for Places {
    ghost use Rattle.std.specs.Prelude.{ℕ};

    ghost Value = { ℕ };

    ghost view = { λ p. p.refused };
}

impl Places {
    /// A count of refused openings, at 0.
    pub fn new() -> Places
        ensures { result ≡ 0 }
    {
        Places { refused: 0 }
    }

    /// How many openings of a view were refused.
    pub fn refused(&self) -> u64
        ensures { result ≡ self.now }
    {
        self.refused
    }

    /// Counts an opening of a view that was refused.
    pub(crate) fn count_refusal(&mut self)
        ensures { CountIncreasedByOne self.old self.new }
    {
        self.refused = self.refused.saturating_add(1);
    }
}
