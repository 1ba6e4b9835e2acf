//! [`first_snapshot`]: the snapshot of a new pod.
ghost use Rattle.std.specs.Prelude.{◌≡◌, ℕ, List as ListOf, IsTrue, IfOk};
ghost use Rattle.pod_base.specs.declared.moment.Moment.{Moment as MomentValue};
ghost use Rattle.pod_rows.specs.Base.{is_base};
ghost use Rattle.pod_rows.specs.WellFormed.{WellFormed, pod_of};
ghost use Rattle.pod_rows.specs.FirstPods.{first_pod, root_row, list_row, FirstPodsAreWellFormed};

use crate::owner_rule::owner_graph;
use iri_ref::Iri;
use pod_base::{List, Mem, Moment, NoMemory, Text};
use pod_command::{Content, Kind, Row, Snapshot, StoredGraph};
use pod_path::Path;
use rdf_graph::{Graph, copy_iri};
use std::alloc::Global;

/// The path that a text is, for a row of the first pod.
fn path_of(alloc: Global, text: &str) -> Mem<Path>
    ensures { IfOk result (λ path. path ≡ text.now) }
{
    match Path::of_text(alloc, text)? {
        Some(path) => Ok(path),
        None => Err(NoMemory),
    }
}

/// The root of the first pod, a container without triples of its own.
fn root_row(alloc: Global, modified: Moment) -> Mem<Row>
    ensures { IfOk result (λ row. row ≡ root_row modified) }
{
    let path = path_of(alloc, "/")?;
    Ok(Row {
        path,
        kind: Kind::Container,
        content: Content::Graph(StoredGraph::new(alloc, Graph::new(alloc))),
        modified,
    })
}

/// The access list of the first pod's root.
fn list_row(alloc: Global, base: &Iri, owner: &Iri, modified: Moment) -> Mem<Row>
    ensures { IfOk result (λ row. row ≡ list_row base.now owner.now modified) }
{
    let path = path_of(alloc, "/.acl")?;
    let graph = owner_graph(alloc, base, owner)?;
    Ok(Row {
        path,
        kind: Kind::Acl,
        content: Content::Graph(StoredGraph::new(alloc, graph)),
        modified,
    })
}

/// The two rows of the first pod, in the order of their paths.
fn first_rows(alloc: Global, base: &Iri, owner: &Iri, modified: Moment) -> Mem<Vec<Row>>
    ensures { IfOk result (λ rows. rows.items ≡ (first_pod base.now owner.now modified).rows) }
{
    let mut rows = Vec::new(alloc);
    let root = root_row(alloc, modified)?;
    rows.push(root)?;
    let list = list_row(alloc, base, owner, modified)?;
    rows.push(list)?;
    Ok(rows)
}

/// The snapshot of a new pod with that base and that owner, whose rows have that moment: the root,
/// and its access list, by which the owner has every mode on every resource. No change was made
/// yet.
pub fn first_snapshot(alloc: Global, base: &Iri, owner: &Iri, moment: Moment) -> Mem<Snapshot>
    ensures pod { IfOk result (λ snapshot. pod_of snapshot ≡ first_pod base.now owner.now moment) }
    ensures number { IfOk result (λ snapshot. snapshot.seq ≡ 0) }
{
    let rows = first_rows(alloc, base, owner, moment)?;
    let base = copy_iri(alloc, base)?;
    let owner = Text::of(alloc, owner.as_str())?;
    Ok(Snapshot {
        seq: 0,
        base,
        owner,
        rows: List::from_vec(rows),
    })
}

/// The first pod of every owner is well-formed, where its base has the form of a base. It does
/// nothing.
pub fn first_pods_are_well_formed()
    ensures { FirstPodsAreWellFormed }
{}
