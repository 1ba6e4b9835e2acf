//! Laws of the definition, as contracts of functions that do nothing.

ghost use Rattle.jsonld_expanded.specs.Laws.{ExpandsOnce, SubjectsHaveOneNode, WalksOnce};

use rdf_graph::subject_law;

/// The law that a JSON value stands for one graph at most, and for one list of triples.
pub fn expands_once()
    ensures triples { WalksOnce }
    ensures graph { ExpandsOnce }
{}

/// The law that each subject of a graph has one node object, where no label and no language tag has
/// a space.
pub fn one_node_each()
    ensures { SubjectsHaveOneNode }
{
    subject_law();
}
