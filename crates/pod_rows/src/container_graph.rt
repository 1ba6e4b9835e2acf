//! [`container_view`]: what a container shows.
ghost use Rattle.std.specs.Prelude.{◌≡◌, ◌++◌, ◌∷◌, [], All, IfOk, OnOk, option_copied};
ghost use Rattle.acl_rules.specs.Vocabulary.{rdf_type};
ghost use Rattle.pod_path.specs.Hierarchy.{uri_of};
ghost use Rattle.rdf_graph.specs.Triple.{IsRdf, iri_triple};
ghost use Rattle.pod_rows.specs.GraphSets.{graph_of};
ghost use Rattle.pod_rows.specs.View.{own_triples, type_triples, view_of};
ghost use Rattle.pod_rows.specs.ContainedTriples.{child_triples};

use crate::state_trait::PodState;
use crate::vocabulary::{LDP_BASIC_CONTAINER, LDP_CONTAINER, LDP_CONTAINS, LDP_RESOURCE};
use iri_ref::Iri;
use pod_base::{List, Mem, NoMemory};
use pod_command::{Content, Row};
use pod_path::Path;
use rdf_graph::vocabulary::RDF_TYPE;
use rdf_graph::{Graph, Term, Triple, copy_iri};
use std::alloc::Global;

/// The graph that a container shows, which is its view (LDP 1.0, section 5.2): its own triples, its
/// three types, and a triple for each child.
pub fn container_view<S: PodState>(alloc: Global, state: &S, path: &Path) -> Mem<Graph>
    ensures { IfOk result (λ view. view ≡ view_of (S.pod state.now) path.now) }
{
    let children = state.children(alloc, path)?;
    let uri = path.uri(alloc, state.base())?;
    let own = own_triples(alloc, state.find(path))?;
    let typed = with_types(alloc, own.into_vec(), &uri)?;
    let shown = with_children(alloc, typed, state.base(), &uri, children.as_slice())?;
    Ok(graph_of(shown))
}

/// The graph of a container's triples, which are triples of RDF.
fn graph_of(triples: Vec<Triple>) -> Graph
    requires { All IsRdf triples.items }
    ensures { result ≡ graph_of triples.items }
{
    let graph = Graph::of(List::from_vec(triples));
    let _in_order = graph.as_slice();
    graph
}

/// The own triples of a container's row: none where there is no row.
fn own_triples(alloc: Global, row: Option<&Row>) -> Mem<List<Triple>>
    ensures own { IfOk result (λ own. own.items ≡ own_triples (option_copied row.entry)) }
    ensures rdf { IfOk result (λ own. All IsRdf own.items) }
{
    match row {
        Some(row) => match &row.content {
            Content::Graph(stored) => {
                let copy = stored.graph().copy(alloc)?;
                Ok(copy.into_list())
            }
            Content::Bytes { ctype: _, bytes: _ } => Ok(List::new(alloc)),
        },
        None => Ok(List::new(alloc)),
    }
}

/// The IRI of a constant, for a container's triples.
fn constant(alloc: Global, text: &str) -> Mem<Iri>
    ensures { IfOk result (λ iri. iri ≡ text.now) }
{
    match Iri::read(alloc, text) {
        Ok(iri) => Ok(iri),
        Err(_) => Err(NoMemory),
    }
}

/// The triple of three IRIs, for a container's graph.
fn iri_triple(alloc: Global, subject: &Iri, property: &Iri, object: Iri) -> Mem<Triple>
    ensures { IfOk result (λ t. t ≡ iri_triple subject.now property.now object) }
{
    let subject = copy_iri(alloc, subject)?;
    let property = copy_iri(alloc, property)?;
    Ok(Triple {
        s: Term::Iri(subject),
        p: Term::Iri(property),
        o: Term::Iri(object),
    })
}

/// A container's triples, and one that gives it a type.
fn with_type(alloc: Global, triples: Vec<Triple>, uri: &Iri, class: &str) -> Mem<Vec<Triple>>
    ensures { IfOk result (λ all. all.items
        ≡ triples.items ++ iri_triple uri.now rdf_type class.now ∷ []) }
{
    let class = constant(alloc, class)?;
    let property = constant(alloc, RDF_TYPE)?;
    let triple = iri_triple(alloc, uri, &property, class)?;
    let mut all = triples;
    all.push(triple)?;
    Ok(all)
}

/// A container's triples, and its three types.
fn with_types(alloc: Global, triples: Vec<Triple>, uri: &Iri) -> Mem<Vec<Triple>>
    ensures { IfOk result (λ all. all.items ≡ triples.items ++ type_triples uri.now) }
{
    let one = with_type(alloc, triples, uri, LDP_BASIC_CONTAINER)?;
    let two = with_type(alloc, one, uri, LDP_CONTAINER)?;
    let three = with_type(alloc, two, uri, LDP_RESOURCE)?;
    Ok(three)
}

/// A container's triples, and one for each child of the container with this URI.
fn with_children(
    alloc: Global,
    triples: Vec<Triple>,
    base: &Iri,
    uri: &Iri,
    children: &[Path],
) -> Mem<Vec<Triple>>
    ensures { IfOk result (λ all. all.items
        ≡ triples.items ++ child_triples base.now uri.now children.now) }
{
    let contains = constant(alloc, LDP_CONTAINS)?;
    let mut all = triples;
    for child in children {
        let object = child.uri(alloc, base)?;
        let triple = iri_triple(alloc, uri, &contains, object)?;
        all.push(triple)?;
    }
    Ok(all)
}
