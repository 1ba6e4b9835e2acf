//! [`BodyFault`]: why the body of a request means nothing.

use n3_patch::PatchRule;
use thiserror::Error;

/// Why the body of a request means nothing. The two faults of its type come before all others.
#[derive(Clone, Copy, Debug, PartialEq, Eq, Error)]
pub enum BodyFault {
    /// There is no content type, several, or one that isn't 1 to 256 printable bytes of ASCII.
    #[error("no content type")]
    NoType,
    /// The method doesn't take the media type at this target.
    #[error("the media type is not supported")]
    UnsupportedType,
    /// The first fault of a document of Turtle, of a patch document or of an update is at this
    /// byte.
    #[error("bad syntax at byte {at}")]
    Syntax { at: usize },
    /// The bytes are no JSON, or no expanded JSON-LD of the profile.
    #[error("no expanded JSON-LD")]
    Json,
    /// A patch document breaks this rule, or an update has a blank node.
    #[error("the patch breaks the rule {0:?}")]
    Rule(PatchRule),
    /// The encoded triples are longer than [`TRIPLES_LIMIT`](rdf_graph::TRIPLES_LIMIT).
    #[error("too many triples")]
    GraphSize,
}
