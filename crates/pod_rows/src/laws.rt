//! What follows from the definitions: the contracts of these functions are laws, and they do
//! nothing.
ghost use Rattle.std.specs.Prelude.{◌≡◌, ◌↔◌, ℕ, List, All, Contains, IsSome, IsTrue, Some, false};
ghost use Rattle.pod_command.specs.declared.entry.Entry.{Entry};
ghost use Rattle.pod_command.specs.declared.row.Row.{Row};
ghost use Rattle.pod_path.specs.Hierarchy.{IsUnder, is_auxiliary, parent_of};
ghost use Rattle.pod_path.specs.Norm.{IsPath, norm};
ghost use Rattle.rdf_graph.specs.Graph.{IsGraph, SameSet};
ghost use Rattle.rdf_graph.specs.Triple.{IsRdf};
ghost use Rattle.rdf_graph.specs.declared.triple.Triple.{Triple};
ghost use Rattle.pod_rows.specs.Access.{effective_of};
ghost use Rattle.pod_rows.specs.Apply.{Applies, applied};
ghost use Rattle.pod_rows.specs.GraphSets.{graph_of};
ghost use Rattle.pod_rows.specs.Pod.{Pod, row_at, is_row};
ghost use Rattle.pod_rows.specs.Tree.{ancestors, children_of};
ghost use Rattle.pod_rows.specs.View.{shown_triples, view_of};
ghost use Rattle.pod_rows.specs.WellFormed.{WellFormed};

/// The law that the ancestors of a path are those that are above it, parent by parent.
pub fn ancestors_law()
    ensures { (path other : List ℕ) → IsPath path
        → Contains (ancestors path) other ↔ IsUnder path other }
{}

/// The law that in a well-formed pod each row is at its path, which is normal, and every path has
/// an access list in force.
pub fn rows_law()
    ensures rows { (pod : Pod) (row : Row) → WellFormed pod → Contains pod.rows row
        → row_at pod.rows row.path ≡ Some row }
    ensures paths { (pod : Pod) (row : Row) → WellFormed pod → Contains pod.rows row
        → norm row.path ≡ Ok row.path }
    ensures governed { (pod : Pod) (path : List ℕ) → WellFormed pod → IsPath path
        → IsSome (effective_of pod.rows path) }
{}

/// The law that a child of a container is a row whose parent it is, and no access list and no
/// description.
pub fn children_law()
    ensures { (pod : Pod) (container child : List ℕ)
        → Contains (children_of pod.rows container) child
        → (parent_of child ≡ Some container) × (is_auxiliary child ≡ false)
        × IsTrue (is_row pod.rows child) }
{}

/// The law that the view of a container has the triples that it shows and no others. The list of a
/// set of triples of RDF is that of a graph.
pub fn views_law()
    ensures view { (pod : Pod) (container : List ℕ)
        → SameSet (view_of pod container) (shown_triples pod container) }
    ensures graph { (triples : List Triple) → All IsRdf triples → IsGraph (graph_of triples) }
{}

/// The law that the pod after an entry that applies is well-formed.
pub fn entries_law()
    ensures { (pod : Pod) (next : ℕ) (entry : Entry) → Applies pod next entry
        → WellFormed (applied pod entry) }
{}
