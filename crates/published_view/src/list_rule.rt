//! The one list of a view, under a rule of `logbook`.
use logbook::{Gain, Plain, Play, Rule};

/// The rule: the first word is the length of the list.
pub struct ListRule;

impl<I> Rule<I, u64> for ListRule {
    ghost use Rattle.std.specs.Prelude.{[]};
    ghost use base.Fml.{ftrue};
    ghost use Rattle.published_view.specs.ListRule.{HoldsLength};

    ghost holds = { λ cells log. HoldsLength cells log };

    ghost first = { [] };

    ghost hinted = { λ n log. Unit {0} };

    ghost shows = { λ log. [] };

    ghost keeps = { λ names log. ftrue };

    ghost moves = { λ ask before after answer. Unit {0} };
}

/// A step trades nothing with its caller.
pub struct NoGain;

impl<I> Gain<I, u64> for NoGain {
    ghost use base.Fml.{ftrue};

    ghost after = { λ names about answer. ftrue };
}

/// The step that adds an item.
pub struct AppendStep;

impl<I> Play<I, u64> for AppendStep {
    ghost use Rattle.published_view.specs.ListRule.{AppendsItem};

    ghost then = { AppendsItem };
}

impl<I> Plain<I, I, u64> for AppendStep {
    ghost use Rattle.std.specs.Prelude.{None};

    ghost ask = { λ item. item };

    ghost state = { λ item. None };
}
