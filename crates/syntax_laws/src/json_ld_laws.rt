//! What follows from the definition of expanded JSON-LD (`jsonld_expanded/specs/Expands.antt`): a
//! graph that was read is read back, whatever its document was.
//!
//! ```ignore
//! let graph = jsonld_expanded::read(alloc, &base, bytes)?;
//! syntax_laws::expanded_graphs();                         // its labels and tags are Turtle's
//! let json = jsonld_expanded::write(alloc, &graph)?;         // a document of the same graph
//! let turtle = turtle_text::write(alloc, &graph)?;       // a text that spells the same graph
//! ```
//!
//! Proved of each graph that a JSON value stands for: each label is one of Turtle and each tag is a
//! LANGTAG in lower case, so that its text as Turtle spells it (clause `turtle` of
//! [`expanded_graphs`], with `syntax_laws`), and its document as expanded JSON-LD is read as it
//! (clause `json_ld`, with `jsonld_write`). [`spelled_as_json_ld`] says the latter of each graph that a
//! Turtle text spells.
//!
//! The functions return nothing: their contracts are the laws.

ghost use Rattle.syntax_laws.specs.JsonldLaws.{ExpandedGraphsAreReadBack, ExpandedGraphsReadBack};
ghost use Rattle.syntax_laws.specs.JsonldLaws.{SpelledGraphsReadBack};

/// The law that a graph which was read as expanded JSON-LD is read back from both of its texts.
pub fn expanded_graphs()
    ensures turtle { ExpandedGraphsAreReadBack }
    ensures json_ld { ExpandedGraphsReadBack }
{}

/// The law that a graph which was read as Turtle is read back from its document as expanded
/// JSON-LD.
pub fn spelled_as_json_ld()
    ensures { SpelledGraphsReadBack }
{
    crate::spelled_graphs();
}
