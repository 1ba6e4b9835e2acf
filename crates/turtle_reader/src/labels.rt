//! [`Labels`]: the labels of a document and of its unnamed nodes.

use crate::issued_labels::{Given, give_up_to};
use crate::label_numbers::taken_numbers;
use pod_base::{List, Mem, Text};
use std::alloc::Global;
use std::collections::BTreeSet;
use std::marker::Model;

/// The labels of a document, and those of its unnamed nodes as far as they were asked for.
/// Contracts see the set of the numbers n below 2 ^ 64 for which `g` n is a label of the document.
#[derive(Drop)]
pub struct Labels {
    taken: BTreeSet<u64>,
    given: Given,
}

impl Model for Labels {
    ghost use Rattle.std.specs.Coded.{coded_ℕ};
    ghost use Rattle.std.specs.FinSet as set;
    ghost use Rattle.std.specs.Ordering.{nat_cmp};
    ghost use Rattle.std.specs.BTreeSet.{contains};
    ghost use Rattle.turtle_reader.specs.Taken.{AreGivenBeside};

    ghost Value = { set.FinSet nat_cmp };

    ghost coded = { set.code coded_ℕ };

    ghost view = { λ a. set.from_list a.taken.keys };

    ghost invariant = { λ a.
        AreGivenBeside (contains nat_cmp a.taken) a.given.labels.items a.given.next };
}

impl Labels {
    ghost use Rattle.std.specs.Prelude.{◌≡◌, IfOk};
    ghost use Rattle.std.specs.FinSet as set;
    ghost use Rattle.turtle_reader.specs.TokensBefore.{HasTokensBefore};
    ghost use Rattle.turtle_reader.specs.Unnamed.{HasNumbersIn, IsUnnamedBeside};

    /// The labels of a document, up to its end or the first text without a token. One pass over its
    /// tokens; it takes memory for each different label that is `g` and a number.
    #[tactic(auto, using(crate::proofs::DocumentLemmas::numbers_seen))]
    pub fn of(alloc: Global, bytes: &[u8]) -> Mem<Labels>
        ensures written { IfOk result (λ labels. HasNumbersIn (set.contains labels) bytes.now) }
        ensures tokens { IfOk result (λ labels. HasTokensBefore bytes.now) }
    {
        let taken = taken_numbers(alloc, bytes)?;
        let given = Given {
            labels: List::new(alloc),
            next: 0,
        };
        Ok(Labels { taken, given })
    }

    /// The label of the unnamed node k, counted from 0 in the order of tokens. Calls for the nodes
    /// 0 to k cost together no more than k and the number of written labels, in any order; a later
    /// call shares the label's memory.
    pub fn label(&mut self, alloc: Global, k: usize) -> Mem<Text>
        ensures label { IfOk result (IsUnnamedBeside (set.contains self.old) k) }
        ensures unchanged { self.new ≡ self.old }
    {
        give_up_to(alloc, &self.taken, &mut self.given, k)?;
        self.given.labels.as_slice()[k].copy(alloc)
    }
}
