//! Entries and snapshots as text: their fields in order, with a space between two. Each edit or row
//! comes after `|`, and each basis after `&`.

use crate::row_words::kind_word;
use case_words::{known, shown_whole, triples_text};
use pod_base::{Agent, Bytes, Method};
use pod_command::{Basis, Content, Edit, Entry, Row, Snapshot, Who};
use rdf_graph::{Graph, Term};
use std::alloc::{AllocError, Global};

/// Appends the graph: its number of triples, and its text in brackets.
fn push_graph(alloc: Global, out: &mut String, graph: &Graph) -> Result<(), AllocError> {
    let text = known(triples_text(alloc, graph.as_slice()))?;
    write!(out, "{} [{text}]", graph.len())
}

fn term(alloc: Global, term: &Term) -> Result<String, AllocError> {
    let mut text = Vec::new(alloc);
    known(term.append_to(alloc, &mut text))?;
    shown_whole(alloc, text.as_slice())
}

/// Appends bytes and their type.
fn push_bytes(
    alloc: Global,
    out: &mut String,
    ctype: &str,
    bytes: &Bytes,
) -> Result<(), AllocError> {
    let bytes = shown_whole(alloc, bytes.as_slice())?;
    write!(out, "{ctype} [{bytes}]")
}

fn push_row(alloc: Global, out: &mut String, row: &Row) -> Result<(), AllocError> {
    let kind = kind_word(row.kind);
    write!(out, "{} {kind} {} ", row.path.as_str(), row.modified.0)?;
    match &row.content {
        Content::Graph(stored) => push_graph(alloc, out, stored.graph()),
        Content::Bytes { ctype, bytes } => push_bytes(alloc, out, ctype.as_str(), bytes.bytes()),
    }
}

fn push_edit(alloc: Global, out: &mut String, edit: &Edit) -> Result<(), AllocError> {
    match edit {
        Edit::Put(row) => {
            out.push_str(" | put ")?;
            push_row(alloc, out, row)
        }
        Edit::Change {
            path,
            change,
            modified,
        } => {
            write!(out, " | change {} {} ", path.as_str(), modified.0)?;
            push_graph(alloc, out, &change.removed)?;
            out.push_str(" ")?;
            push_graph(alloc, out, &change.added)
        }
        Edit::Touch { path, modified } => {
            write!(out, " | touch {} {}", path.as_str(), modified.0)
        }
        Edit::Remove { path } => { write!(out, " | remove {}", path.as_str()) }
    }
}

fn who(who: &Who) -> &str {
    match who {
        Who::Agent => "agent",
        Who::Everyone => "everyone",
        Who::Authenticated => "authenticated",
        Who::Group(iri) => iri.as_str(),
    }
}

fn push_basis(alloc: Global, out: &mut String, basis: &Basis) -> Result<(), AllocError> {
    let rule = term(alloc, &basis.rule)?;
    write!(out, " & {} {rule} {}", basis.acl.as_str(), who(&basis.who))
}

fn method(method: Method) -> &'static str {
    match method {
        Method::Get => "GET",
        Method::Head => "HEAD",
        Method::Options => "OPTIONS",
        Method::Post => "POST",
        Method::Put => "PUT",
        Method::Patch => "PATCH",
        Method::Delete => "DELETE",
        Method::Other => "OTHER",
    }
}

/// The requesting agent; `-` for anybody.
fn agent(agent: &Agent) -> &str {
    match agent {
        Agent::Public => "-",
        Agent::Known(iri) => iri.as_str(),
    }
}

/// An entry as text.
pub(crate) fn show_entry(alloc: Global, entry: &Entry) -> Result<String, AllocError> {
    let mut out = format!(in alloc;
        "{} {} {} {} {} {} {}",
        entry.seq,
        entry.conn,
        entry.number,
        agent(&entry.agent),
        entry.moment.0,
        method(entry.method),
        entry.path.as_str()
    )?;
    for edit in entry.edits.as_slice() {
        push_edit(alloc, &mut out, edit)?;
    }
    for basis in entry.bases.as_slice() {
        push_basis(alloc, &mut out, basis)?;
    }
    Ok(out)
}

/// A snapshot as text.
pub(crate) fn show_snapshot(alloc: Global, snapshot: &Snapshot) -> Result<String, AllocError> {
    let mut out = format!(in alloc;
        "{} {} {}",
        snapshot.seq,
        snapshot.base.as_str(),
        snapshot.owner.as_str()
    )?;
    for row in snapshot.rows.as_slice() {
        out.push_str(" | ")?;
        push_row(alloc, &mut out, row)?;
    }
    Ok(out)
}
