//! Laws of what bodies mean, for the proofs of the crates above.
//!
//! Each is the contract of a function that does nothing.

ghost use Rattle.request_body.specs.Laws.{MeansOne, PutsGraph, PostsGraph, HasContentType};

/// The body of a request means one thing at most, or has one fault, and not both.
pub fn one_meaning()
    ensures { MeansOne }
{}

/// What the body of a PUT or a POST means fits the row that it becomes: a container, an access list
/// and a description get a graph, and bytes have a content type.
pub fn content_fits()
    ensures put { PutsGraph }
    ensures posted { PostsGraph }
    ensures ctype { HasContentType }
{}
