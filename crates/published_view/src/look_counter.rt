//! The rule that counts looks, and records the list that each of them found.
use crate::represented_list::Told;
use crate::version_with_list::VersionWithList;
use crate::view_name::ViewName;
use crossbeam_utils::rule::{Outcome, Protocol};
use std::collections::LinkedList;

/// How many looks were made, and the list that was published at the last one. No value of it is
/// made, so the count has no bound.
pub struct LookRecord<I> {
    pub count: u64,
    pub given: LinkedList<I>,
}

/// The rule: it holds always, and its steps count.
pub struct LookCounter;

impl<T, I> Protocol<T, LookRecord<I>> for LookCounter {
    ghost use Rattle.published_view.specs.LookSteps.{no_looks};

    ghost holds = { λ x views. Unit {0} };

    ghost first = { no_looks };
}

/// The step of a look, which records the list that is published then.
pub struct LookStep;

impl<V: Told, N: ViewName<V::Item>> Outcome<VersionWithList<V, N>, LookRecord<V::Item>>
    for LookStep {
    ghost use Rattle.published_view.specs.LookSteps.{RecordsLook};

    ghost then = { λ v x y w. RecordsLook v x.list w };
}

/// The step of a publication, which counts nothing.
pub struct PublishStep;

impl<T, I> Outcome<T, LookRecord<I>> for PublishStep {
    ghost use Rattle.std.specs.Prelude.{◌≡◌};

    ghost then = { λ v x y w. w ≡ v };
}
