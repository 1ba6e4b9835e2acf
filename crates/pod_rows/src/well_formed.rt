//! Whether rows are those of a well-formed pod, one function for each clause of the definition.
ghost use Rattle.std.specs.Prelude.{◌≡◌, ◌↔◌, ◌&&◌, IsTrue, IfOk, nat_le, length, option_copied};
ghost use Rattle.std.specs.Prelude.{List, bytes_eq, not};
ghost use Rattle.std.specs.List.{list_all};
ghost use Rattle.pod_command.specs.Encodable.{AreInOrder};
ghost use Rattle.pod_rows.specs.Apply.{is_before};
ghost use Rattle.pod_rows.specs.Pod.{Pod};
ghost use Rattle.pod_rows.specs.WellFormedTests.{in_order, is_before_next, are_rows_right};
ghost use Rattle.pod_rows.specs.WellFormedTests.{are_rows_related, is_pod_right};
ghost use Rattle.pod_rows.specs.WellFormedTests.{is_empty, is_known, lacks_container_twin};
ghost use Rattle.pod_rows.specs.WellFormed.{WellFormed, has_normal_path, has_right_kind, fits_kind};
ghost use Rattle.pod_rows.specs.WellFormed.{is_content_type, is_printable, has_first_rows};
ghost use Rattle.pod_rows.specs.WellFormed.{has_parent, lacks_twin, has_subject, is_document};
ghost use Rattle.pod_rows.specs.WellFormed.{is_subject_row};
ghost use Rattle.pod_command.specs.declared.row.Row.{Row as RowValue};
ghost use Rattle.pod_rows.specs.WellFormed.{is_graph_content, is_bytes_content, is_container_kind};
ghost use Rattle.pod_rows.specs.WellFormed.{is_container_row, guards_content, guards_row};
ghost use Rattle.pod_rows.specs.WellFormed.{lacks_containment, lacks_contained};
ghost use Rattle.pod_rows.specs.WellFormed.{lacks_stored_containment};
ghost use Rattle.pod_rows.specs.declared.limits.TheConstants.{ROWS_LIMIT};

use crate::base_form::is_base;
use crate::limits::{CONTENT_TYPE_BYTES_LIMIT, ROWS_LIMIT};
use crate::root_guard::guards;
use crate::row_search::{is_row, is_row_of, row_in};
use crate::vocabulary::LDP_CONTAINS;
use acl_rules::vocabulary::is_iri;
use iri_ref::Iri;
use pod_base::{Mem, Text};
use pod_command::{Content, Kind, Row};
use pod_path::{Path, parent_text};
use rdf_graph::Triple;
use std::alloc::Global;
use std::cmp::Ordering;

/// Whether the path of the row is before that of the next, if there is one, as in a well-formed
/// pod.
fn is_before_next(row: &Row, more: &[Row]) -> bool
    ensures { result ≡ is_before_next row.now more.now }
{
    match more.split_first() {
        Some((next, _)) => row.path.as_str().cmp(next.path.as_str()) == Ordering::Less,
        None => true,
    }
}

/// Whether rows are in byte order of their paths, each path once, as in a well-formed pod.
pub(crate) fn are_in_order(rows: &[Row]) -> bool
    ensures { result ≡ in_order rows.now }
{
    let mut rest = rows;
    while let Some((row, more)) = rest.split_first() {
        if !is_before_next(row, more) {
            return false;
        }
        rest = more;
    }
    true
}

/// Whether all paths are normal, as in a well-formed pod: within the limits of paths.
pub(crate) fn have_normal_paths(rows: &[Row]) -> bool
    ensures { result ≡ list_all has_normal_path rows.now }
{
    rows.iter().all(|row| has_normal_path(row))
}

/// Whether the row's path is normal, as in a well-formed pod: within the limits of paths.
pub fn has_normal_path(row: &Row) -> bool
    ensures { result ≡ has_normal_path row.now }
{
    row.path.is_within_limits()
}

/// Whether each row has a kind of its path and a content of its kind, as in a well-formed pod.
pub(crate) fn have_right_kinds(rows: &[Row]) -> bool
    ensures { result ≡ list_all has_right_kind rows.now }
{
    rows.iter().all(|row| has_right_kind(row))
}

/// Whether the row has a kind of its path and a content of its kind, as in a well-formed pod.
pub fn has_right_kind(row: &Row) -> bool
    ensures { result ≡ has_right_kind row.now }
{
    fits_kind(&row.path, row.kind, &row.content)
}

/// Whether the end of a row's path allows the kind, and the kind the content, as in a well-formed
/// pod.
fn fits_kind(path: &Path, kind: Kind, content: &Content) -> bool
    ensures { result ≡ fits_kind path.now kind content.now }
{
    match kind {
        Kind::Container => path.is_container() && is_graph_content(content),
        Kind::Acl => path.is_acl() && is_graph_content(content),
        Kind::Meta => path.is_meta() && is_graph_content(content),
        Kind::Graph => is_document(path) && is_graph_content(content),
        Kind::Bytes => is_document(path) && is_bytes_content(content),
    }
}

/// Whether the path of a row is that of no container, access list or description, so that its kind
/// is a document's.
fn is_document(path: &Path) -> bool
    ensures { result ≡ is_document path.now }
{
    !(path.is_container() || path.is_acl() || path.is_meta())
}

/// Whether a row's content is a graph, which its kind may need in a well-formed pod.
fn is_graph_content(content: &Content) -> bool
    ensures { result ≡ is_graph_content content.now }
{
    match content {
        Content::Graph(_) => true,
        Content::Bytes { ctype: _, bytes: _ } => false,
    }
}

/// Whether a row's content is bytes with a content type of the right form, which its kind may need
/// in a well-formed pod.
fn is_bytes_content(content: &Content) -> bool
    ensures { result ≡ is_bytes_content content.now }
{
    match content {
        Content::Graph(_) => false,
        Content::Bytes { ctype, bytes: _ } => is_content_type(ctype.as_str()),
    }
}

/// Whether the text is a well-formed content type, of at most [`CONTENT_TYPE_BYTES_LIMIT`] bytes,
/// each from space to `~`.
fn is_content_type(ctype: &str) -> bool
    ensures { result ≡ is_content_type ctype.now }
{
    ctype.len() <= CONTENT_TYPE_BYTES_LIMIT && are_printable(ctype.as_bytes())
}

/// Whether the bytes of a content type are from space to `~`.
fn are_printable(bytes: &[u8]) -> bool
    ensures { result ≡ list_all is_printable bytes.now }
{
    bytes.iter().all(|&byte| b' ' <= byte && byte <= b'~')
}

/// Whether the first rows are well-formed, so that the root is a container, and its access list
/// passes the guard.
#[tactic(auto, unfolding(crate::specs::WellFormed::has_first_rows))]
pub(crate) fn has_first_rows(base: &Iri, owner: &Text, rows: &[Row]) -> bool
    requires { AreInOrder rows.now }
    ensures { result ≡ has_first_rows
        (record { base = base.now; owner = owner.now; rows = rows.now }) }
{
    is_container_row(row_in(rows, "/")) && guards_row(base, owner, row_in(rows, "/.acl"))
}

/// Whether the kind is that of containers, as the root's is in a well-formed pod.
fn is_container_kind(kind: Kind) -> bool
    ensures { result ≡ is_container_kind kind }
{
    matches!(kind, Kind::Container)
}

/// Whether there is a row, and it is a container, as the root is in a well-formed pod.
pub(crate) fn is_container_row(row: Option<&Row>) -> bool
    ensures { result ≡ is_container_row (option_copied row.entry) }
{
    match row {
        Some(row) => is_container_kind(row.kind),
        None => false,
    }
}

/// Whether there is a row, and it passes the guard, as the root's access list does in a well-formed
/// pod.
pub(crate) fn guards_row(base: &Iri, owner: &Text, row: Option<&Row>) -> bool
    ensures { (rows : List RowValue) → result ≡ guards_row
        (record { base = base.now; owner = owner.now; rows = rows }) (option_copied row.entry) }
{
    match row {
        Some(row) => match &row.content {
            Content::Graph(stored) => guards(
                base.as_str(),
                owner.as_str(),
                stored.graph().as_slice(),
            ),
            Content::Bytes { ctype: _, bytes: _ } => false,
        },
        None => false,
    }
}

/// Whether a row's parent is the one that is known to be a row, as in a well-formed pod.
fn is_known_parent(known: &str, parent: &str) -> bool
    ensures { result ≡ (not (is_empty known.now) && bytes_eq known.now parent.now) }
{
    !known.is_empty() && known == parent
}

/// Whether the row is the root, or its parent is a row, as in a well-formed pod. One that is known
/// to be a row isn't sought.
#[tactic(auto, unfolding(crate::specs::WellFormed::has_parent))]
fn has_parent(rows: &[Row], known: &str, row: &Row) -> bool
    requires order { AreInOrder rows.now }
    requires known { IsTrue (is_known rows.now known.now) }
    ensures { result ≡ has_parent rows.now row.now }
{
    if row.path.is_root() {
        return true;
    }
    let parent = parent_text(row.path.as_str());
    if is_known_parent(known, parent) {
        return true;
    }
    is_row(rows, parent)
}

/// Whether the parent of each row but the root is a row, as in a well-formed pod. Rows of one
/// container follow each other, so it is mostly the parent of the row before.
pub(crate) fn have_parents(rows: &[Row]) -> bool
    requires { AreInOrder rows.now }
    ensures { result ≡ list_all (has_parent rows.now) rows.now }
{
    let mut known = "";
    for row in rows {
        if !has_parent(rows, known, row) {
            return false;
        }
        known = parent_text(row.path.as_str());
    }
    true
}

/// Whether the row's twin is no row, as in a well-formed pod.
#[tactic(auto, unfolding(crate::specs::WellFormed::lacks_twin))]
fn lacks_twin(alloc: Global, rows: &[Row], row: &Row) -> Mem<bool>
    requires { AreInOrder rows.now }
    ensures { IfOk result (λ r. r ≡ lacks_twin rows.now row.now) }
{
    let twin = row.path.twin(alloc)?;
    Ok(!is_row_of(rows, &twin))
}

/// Whether the row is no container, or its twin is no row, as in a well-formed pod.
fn lacks_container_twin(alloc: Global, rows: &[Row], row: &Row) -> Mem<bool>
    requires { AreInOrder rows.now }
    ensures { IfOk result (λ r. r ≡ lacks_container_twin rows.now row.now) }
{
    if row.path.is_container() {
        lacks_twin(alloc, rows, row)
    } else {
        Ok(true)
    }
}

/// Whether no container has a twin that is a row, as in a well-formed pod.
fn containers_lack_twins(alloc: Global, rows: &[Row]) -> Mem<bool>
    requires { AreInOrder rows.now }
    ensures { IfOk result (λ r. r ≡ list_all (lacks_container_twin rows.now) rows.now) }
{
    for row in rows {
        if !lacks_container_twin(alloc, rows, row)? {
            return Ok(false);
        }
    }
    Ok(true)
}

/// Whether no row has a twin that is a row, as in a well-formed pod. Of two twins one is a
/// container, so only containers are asked for theirs.
pub(crate) fn lack_twins(alloc: Global, rows: &[Row]) -> Mem<bool>
    requires order { AreInOrder rows.now }
    requires paths { IsTrue (list_all has_normal_path rows.now) }
    ensures { IfOk result (λ r. r ≡ list_all (lacks_twin rows.now) rows.now) }
{
    containers_lack_twins(alloc, rows)
}

/// Whether the subject of each access list and each description is a row, as in a well-formed pod.
pub(crate) fn have_subjects(alloc: Global, rows: &[Row]) -> Mem<bool>
    requires { AreInOrder rows.now }
    ensures { IfOk result (λ r. r ≡ list_all (has_subject rows.now) rows.now) }
{
    for row in rows {
        if !has_subject(alloc, rows, row)? {
            return Ok(false);
        }
    }
    Ok(true)
}

/// Whether the row is no access list and no description, or its subject is a row, as in a
/// well-formed pod.
#[tactic(auto, unfolding(crate::specs::WellFormed::has_subject))]
fn has_subject(alloc: Global, rows: &[Row], row: &Row) -> Mem<bool>
    requires { AreInOrder rows.now }
    ensures { IfOk result (λ r. r ≡ has_subject rows.now row.now) }
{
    let subject = row.path.subject(alloc)?;
    Ok(is_subject_row(rows, &subject))
}

/// Whether there is no subject, or it is a row, as in a well-formed pod.
fn is_subject_row(rows: &[Row], subject: &Option<Path>) -> bool
    requires { AreInOrder rows.now }
    ensures { result ≡ is_subject_row rows.now subject.now }
{
    match subject {
        Some(subject) => is_row(rows, subject.as_str()),
        None => true,
    }
}

/// Whether no container's own triples have the predicate `ldp:contains`, as in a well-formed pod.
pub(crate) fn lack_stored_containment(rows: &[Row]) -> bool
    ensures { result ≡ list_all lacks_stored_containment rows.now }
{
    rows.iter().all(|row| lacks_stored_containment(row))
}

/// Whether the row is no container, or has no triple with the predicate `ldp:contains`, as in a
/// well-formed pod.
pub fn lacks_stored_containment(row: &Row) -> bool
    ensures { result ≡ lacks_stored_containment row.now }
{
    !is_container_kind(row.kind) || lacks_contained(&row.content)
}

/// Whether a row's content has no triple with the predicate `ldp:contains`, as a well-formed
/// container's.
fn lacks_contained(content: &Content) -> bool
    ensures { result ≡ lacks_contained content.now }
{
    match content {
        Content::Graph(stored) => lacks_containment(stored.graph().as_slice()),
        Content::Bytes { ctype: _, bytes: _ } => true,
    }
}

/// Whether no triple has the predicate `ldp:contains`, as in a well-formed container.
#[tactic(auto, unfolding(crate::specs::Vocabulary::ldp_contains))]
pub fn lacks_containment(triples: &[Triple]) -> bool
    ensures { result ≡ lacks_containment triples.now }
{
    triples
        .iter()
        .all(|triple| !is_iri(&triple.p, LDP_CONTAINS))
}

/// Whether each row is well-formed by itself.
#[tactic(auto, unfolding(crate::specs::WellFormedTests::are_rows_right))]
fn are_rows_right(rows: &[Row]) -> bool
    ensures { result ≡ are_rows_right rows.now }
{
    have_normal_paths(rows) && have_right_kinds(rows) && lack_stored_containment(rows)
}

/// Whether the rows are well-formed together, so that those are there that others need, and no
/// twins.
#[tactic(auto, unfolding(crate::specs::WellFormedTests::are_rows_related))]
fn are_rows_related(alloc: Global, rows: &[Row]) -> Mem<bool>
    requires order { AreInOrder rows.now }
    requires paths { IsTrue (list_all has_normal_path rows.now) }
    ensures { IfOk result (λ r. r ≡ are_rows_related rows.now) }
{
    Ok(have_parents(rows) && lack_twins(alloc, rows)? && have_subjects(alloc, rows)?)
}

/// Whether a pod's number of rows, its base and its first rows are well-formed.
#[tactic(auto, unfolding(crate::specs::WellFormedTests::is_pod_right))]
fn is_pod_right(base: &Iri, owner: &Text, rows: &[Row]) -> bool
    requires { AreInOrder rows.now }
    ensures { result ≡ is_pod_right
        (record { base = base.now; owner = owner.now; rows = rows.now }) }
{
    rows.len() <= ROWS_LIMIT && is_base(base.as_str()) && has_first_rows(base, owner, rows)
}

/// Whether the rows are those of a well-formed pod with this base and owner.
pub fn is_well_formed(alloc: Global, base: &Iri, owner: &Text, rows: &[Row]) -> Mem<bool>
    ensures sound { IfOk result (λ r. IsTrue r → WellFormed
        (record { base = base.now; owner = owner.now; rows = rows.now })) }
    ensures complete { IfOk result (λ r. WellFormed
        (record { base = base.now; owner = owner.now; rows = rows.now }) → IsTrue r) }
{
    if !are_in_order(rows) {
        return Ok(false);
    }
    if !are_rows_right(rows) {
        return Ok(false);
    }
    if !is_pod_right(base, owner, rows) {
        return Ok(false);
    }
    are_rows_related(alloc, rows)
}
