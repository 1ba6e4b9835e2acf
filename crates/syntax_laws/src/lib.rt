//! What follows from the definition of Turtle (`turtle_text/specs/Spells.antt`): the text of a
//! graph spells the graph.
//!
//! ```ignore
//! let bytes = turtle_text::write(alloc, &graph)?;   // the text of the graph
//! syntax_laws::written_graph(&graph);                // it spells the graph
//! turtle_text::read(alloc, &base, bytes.as_slice())  // the same graph, or out of memory
//! ```
//!
//! Proved of `graph_text`, for every base and every graph whose terms are read back
//! (`specs/ReadBack.antt`: each label is one of Turtle, each tag is a LANGTAG in lower case): the
//! text spells the graph (clause `spell`). Where the encoded triples
//! are at most `TRIPLES_LIMIT` bytes, the text is within the limits of a document
//! (`within_limits`), so that `turtle_text::read` returns the graph or is out of memory (`read`).
//! The terms of a [`Graph`] have the texts that the laws ask for by their types
//! ([`written_graph`]).
//!
//! The functions return nothing: their contracts are the laws.
//!
//! It depends on `turtle_text` for what a text spells, and on the laws of written terms of
//! `turtle_lex` and `turtle_terms`.
//!
//! And of expanded JSON-LD (`jsonld_expanded/specs/Expands.antt`): each graph that a JSON value
//! stands for has labels and tags of Turtle, so that its text spells it (clause `turtle` of
//! [`expanded_graphs`]), and its document as expanded JSON-LD is read as it (clause `json_ld`);
//! [`spelled_as_json_ld`] says the latter of each graph that a Turtle text spells.
#![tactic(auto)]

mod json_ld_laws;
mod text_laws;

ghost use Rattle.std.specs.Prelude.{◌≤◌, ℕ, List};
ghost use Rattle.rdf_graph.specs.Graph.{graph_text};
ghost use Rattle.rdf_graph.specs.Size.{triples_size};
ghost use Rattle.rdf_graph.specs.declared.size.TheConstants.{TRIPLES_LIMIT};
ghost use Rattle.turtle_text.specs.Faults.{IsWithinLimits};
ghost use Rattle.turtle_text.specs.Spells.{Spells};
ghost use Rattle.syntax_laws.specs.Laws.{WrittenGraphsSpell, WrittenGraphsAreWithinLimits};
ghost use Rattle.syntax_laws.specs.Laws.{WrittenGraphsAreRead, SpelledGraphsAreReadBack};
ghost use Rattle.syntax_laws.specs.ReadBack.{GraphIsReadBack};

pub use json_ld_laws::{expanded_graphs, spelled_as_json_ld};
use rdf_graph::Graph;
use text_laws::graph_texts;

/// The law that the text of a graph whose terms are read back spells the graph, for every base.
pub fn written_graphs()
    ensures spell { WrittenGraphsSpell }
    ensures within_limits { WrittenGraphsAreWithinLimits }
    ensures read { WrittenGraphsAreRead }
{}

/// The law that a graph which was read of a text of Turtle is read back: its labels are those of
/// Turtle, and its tags are in lower case. So what [`written_graphs`] says holds of it, whatever
/// the text was.
pub fn spelled_graphs()
    ensures { SpelledGraphsAreReadBack }
{}

/// The law that the text of this graph spells it for every base, where its terms are read back.
pub fn written_graph(graph: &Graph)
    ensures spells { (base : List ℕ) → GraphIsReadBack graph.now
        → Spells base (graph_text graph.now) graph.now }
    ensures within_limits { (base : List ℕ) → GraphIsReadBack graph.now
        → triples_size graph.now ≤ TRIPLES_LIMIT → IsWithinLimits base (graph_text graph.now) }
{
    graph_texts(graph)
}
