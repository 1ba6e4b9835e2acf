//! Laws of the labels of unnamed nodes, for the proofs of readers.
//!
//! Each is the contract of a function that does nothing.

ghost use Rattle.turtle_reader.specs.LabelLaws.{HasOneListBefore, HasOneLabel, LabelsDiffer, LabelIsNew};

/// The law that bytes have at most one list of tokens up to their end or the first text without a
/// token, and so one list of labels.
pub fn one_list_before()
    ensures { HasOneListBefore }
{}

/// The law that an unnamed node has at most one label, which is that of no other and of no written
/// node.
pub fn one_label()
    ensures one { HasOneLabel }
    ensures differ { LabelsDiffer }
    ensures new { LabelIsNew }
{}
