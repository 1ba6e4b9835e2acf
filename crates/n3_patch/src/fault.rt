//! The faults of a patch document.

use thiserror::Error;

/// The most conditions of a patch, each counted once.
pub const CONDITIONS_LIMIT: usize = 16;

/// A rule of patch documents, in order of precedence: the first broken rule is reported.
#[derive(Clone, Copy, Debug, PartialEq, Eq)]
pub enum PatchRule {
    /// No resource is typed as a patch.
    NoPatch,
    /// More than one resource is typed as a patch.
    ManyPatches,
    /// A part of the patch has two formulas.
    Repeated,
    /// The value of a part of the patch is not a formula.
    NotFormula,
    /// A formula is not a part of the patch.
    Stray,
    /// A formula is nested in a formula.
    Nested,
    /// A formula contains a blank node.
    BlankNode,
    /// A variable of the deletions or insertions isn't in the conditions.
    FreeVariable,
    /// There are more conditions than are allowed.
    TooManyConditions,
}

/// Why triples are not a patch.
#[derive(Clone, Copy, Debug, PartialEq, Eq)]
pub enum Judgement {
    /// The first rule that they break.
    Broken(PatchRule),
    /// They break no rule, and are larger than a document may be.
    TooLarge,
    NoMemory,
}

/// Why a text is not a patch document, in the order in which faults are reported.
#[derive(Clone, Copy, Debug, PartialEq, Eq, Error)]
pub enum N3Fault {
    /// The first fault of syntax is at this byte.
    #[error("no patch document at byte {at}")]
    Syntax { at: usize },
    /// The first rule that the document breaks.
    #[error("{0:?}")]
    Constraint(PatchRule),
    #[error("too large")]
    TooLarge,
    #[error("out of memory")]
    NoMemory,
}
