//! What follows from the definitions: the contracts of these functions are laws, and they do
//! nothing.
ghost use Rattle.std.specs.Cmp.{IsTotalOrder};
ghost use Rattle.rdf_graph.specs.Laws.{OrderIsExact, OrderFollowsLines, LinesIdentifyTriples};
ghost use Rattle.rdf_graph.specs.Laws.{SetsIdentifyGraphs, SubjectsAreContiguous};
ghost use Rattle.rdf_graph.specs.Laws.{TextsIdentifyGraphs, EmptyChangeKeepsGraph};
ghost use Rattle.rdf_graph.specs.Laws.{AddedTriplesRemain};
ghost use Rattle.rdf_graph.specs.Triple.{triple_cmp};

/// The law that the order of triples is total, and triples that compare as equal are equal. It is
/// the byte order of their lines, and different triples have different lines, where no label and no
/// tag has a space.
pub fn order_law()
    ensures total { IsTotalOrder triple_cmp }
    ensures exact { OrderIsExact }
    ensures lines { OrderFollowsLines }
    ensures identify { LinesIdentifyTriples }
{}

/// The law that the triples of a subject are contiguous in a graph, where no label and no tag has a
/// space.
pub fn subject_law()
    ensures { SubjectsAreContiguous }
{}

/// The law that a graph is its set of triples: graphs with the same triples are equal. So are
/// graphs with the same text, where no label and no tag has a space.
pub fn set_law()
    ensures sets { SetsIdentifyGraphs }
    ensures texts { TextsIdentifyGraphs }
{}

/// The law that an empty change keeps the graph, and that the new graph has a triple which is both
/// removed and added.
pub fn change_law()
    ensures nothing { EmptyChangeKeepsGraph }
    ensures added { AddedTriplesRemain }
{}
