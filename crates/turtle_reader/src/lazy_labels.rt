//! [`LazyLabels`]: labels that are made at the first unnamed node.

ghost use Rattle.std.specs.Prelude.{ℕ, List, IfOk};
ghost use Rattle.turtle_reader.specs.Documents.{AreLabelsOf, AreLazyLabelsOf, IsLabelOf};

use crate::labels::Labels;
use pod_base::{Mem, Text};
use std::alloc::Global;

/// The labels of a document as soon as it has an unnamed node: the tokens of a document without one
/// are read once.
#[derive(Drop)]
pub struct LazyLabels {
    made: Option<Labels>,
}

/// The labels of a document, which are made at the first unnamed node, and that of this node.
fn first_label(alloc: Global, bytes: &[u8], number: usize) -> Mem<(Labels, Text)>
    ensures labels { IfOk result (λ both. AreLabelsOf bytes.now both.0) }
    ensures label { IfOk result (λ both. IsLabelOf bytes.now number both.1) }
{
    let mut labels = Labels::of(alloc, bytes)?;
    let label = labels.label(alloc, number)?;
    Ok((labels, label))
}

/// The label of an unnamed node after the first, by labels that are made.
fn next_label(alloc: Global, bytes: &[u8], labels: &mut Labels, number: usize) -> Mem<Text>
    requires { AreLabelsOf bytes.now labels.old }
    ensures labels { AreLabelsOf bytes.now labels.new }
    ensures label { IfOk result (IsLabelOf bytes.now number) }
{
    labels.label(alloc, number)
}

impl LazyLabels {
    /// No labels, which are made at the first unnamed node of whatever document.
    pub fn new() -> LazyLabels
        ensures { (bytes : List ℕ) → AreLazyLabelsOf bytes result }
    {
        LazyLabels { made: None }
    }

    /// The label of the unnamed node of this number in a document of these bytes: those of each
    /// earlier call.
    pub fn label(&mut self, alloc: Global, bytes: &[u8], number: usize) -> Mem<Text>
        requires { AreLazyLabelsOf bytes.now self.old }
        ensures labels { AreLazyLabelsOf bytes.now self.new }
        ensures label { IfOk result (IsLabelOf bytes.now number) }
    {
        match &mut self.made {
            Some(known) => next_label(alloc, bytes, known, number),
            None => match first_label(alloc, bytes, number) {
                Ok((made, label)) => {
                    self.made = Some(made);
                    Ok(label)
                }
                Err(full) => Err(full),
            },
        }
    }
}
