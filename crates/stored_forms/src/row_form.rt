//! The stored forms of rows.
ghost use Rattle.std.specs.Prelude.{◌≡◌, ◌++◌, ◌∷◌, [], length, OnOk};
ghost use Rattle.rdf_graph.specs.Size.{saturated};
ghost use Rattle.pod_command.specs.Encodable.{FitsKind, HasFittingContent};
ghost use Rattle.stored_forms.specs.Readers.{Gives};
ghost use Rattle.stored_forms.specs.Reading.{bytes_content_at, content_at, graph_content_at};
ghost use Rattle.stored_forms.specs.Reading.{kind_after, kind_at, row_at};
ghost use Rattle.stored_forms.specs.Storable.{IsStorableContent, IsStorableRow};
ghost use Rattle.stored_forms.specs.StoredForms.{content_bytes, kind_byte, row_bytes};

use crate::graph_form::{graph_of, graph_size, put_graph};
use crate::list_form::Stored;
use crate::primitive_reading::{byte_of, bytes_of, number_of, path_of, text_of};
use crate::primitive_writing::{
    after_byte, number_size, piece_size, plus, put_byte, put_number, put_path, put_piece, put_text,
};
use crate::read_back::ReadBack;
use pod_base::{Mem, Moment};
use pod_command::{Content, Kind, Row, StoredGraph};
use std::alloc::Global;
use stored_bytes::StoredBytes;

/// The byte of a row's kind in its stored form.
fn kind_byte(kind: Kind) -> u8
    ensures { result ≡ kind_byte kind }
{
    match kind {
        Kind::Container => 0,
        Kind::Graph => 1,
        Kind::Acl => 2,
        Kind::Bytes => 3,
        Kind::Meta => 4,
    }
}

/// Reads a row's kind from its stored form.
#[tactic(auto, unfolding(crate::specs::Reading::kind_at))]
fn kind_of(bytes: &[u8]) -> Result<(Kind, &[u8]), ReadBack>
    ensures { Gives (λ x. (x.0, x.1.now)) result (kind_at bytes.now) }
{
    let (tag, rest) = byte_of(bytes)?;
    kind_after(tag, rest)
}

/// The kind of a byte in a row's stored form.
#[tactic(auto, unfolding(crate::specs::Reading::kind_after))]
fn kind_after(tag: u8, bytes: &[u8]) -> Result<(Kind, &[u8]), ReadBack>
    ensures { Gives (λ x. (x.0, x.1.now)) result (kind_after tag bytes.now) }
{
    match tag {
        0 => Ok((Kind::Container, bytes)),
        1 => Ok((Kind::Graph, bytes)),
        2 => Ok((Kind::Acl, bytes)),
        3 => Ok((Kind::Bytes, bytes)),
        4 => Ok((Kind::Meta, bytes)),
        _ => Err(ReadBack::NotCanonical),
    }
}

/// Appends the stored form of a row's content.
#[tactic(auto, unfolding(crate::specs::StoredForms::content_bytes))]
fn put_content(out: &mut Vec<u8>, content: &Content) -> Mem<()>
    ensures form { OnOk result (out.new.items ≡ out.old.items ++ content_bytes content.now) }
    ensures storable { OnOk result (IsStorableContent content.now) }
{
    match content {
        Content::Graph(stored) => put_graph(out, stored.graph()),
        Content::Bytes { ctype, bytes } => {
            put_text(out, ctype)?;
            put_piece(out, bytes.as_slice())
        }
    }
}

/// The size of the stored form of a row's content.
#[tactic(auto, unfolding(crate::specs::StoredForms::content_bytes))]
fn content_size(content: &Content) -> u64
    ensures { result ≡ saturated (length (content_bytes content.now)) }
{
    match content {
        Content::Graph(stored) => graph_size(stored.graph()),
        Content::Bytes { ctype, bytes } => {
            let ctype = piece_size(ctype.as_str().as_bytes());
            plus(ctype, piece_size(bytes.as_slice()))
        }
    }
}

/// Reads the content of a row of that kind, from its stored form.
fn content_of(alloc: Global, kind: Kind, bytes: &[u8]) -> Result<(Content, &[u8]), ReadBack>
    ensures { Gives (λ x. (x.0, x.1.now)) result (content_at kind bytes.now) }
{
    match kind {
        Kind::Bytes => bytes_content(alloc, bytes),
        Kind::Container | Kind::Graph | Kind::Acl | Kind::Meta => graph_content(alloc, bytes),
    }
}

/// Reads a graph as a row's content, from its stored form.
#[tactic(auto, unfolding(crate::specs::Reading::graph_content_at))]
fn graph_content(alloc: Global, bytes: &[u8]) -> Result<(Content, &[u8]), ReadBack>
    ensures { Gives (λ x. (x.0, x.1.now)) result (graph_content_at bytes.now) }
{
    let (graph, rest) = graph_of(alloc, bytes)?;
    Ok((Content::Graph(StoredGraph::new(alloc, graph)), rest))
}

/// Reads bytes and their type as a row's content, from its stored form.
#[tactic(auto, unfolding(crate::specs::Reading::bytes_content_at))]
fn bytes_content(alloc: Global, bytes: &[u8]) -> Result<(Content, &[u8]), ReadBack>
    ensures { Gives (λ x. (x.0, x.1.now)) result (bytes_content_at bytes.now) }
{
    let (ctype, rest) = text_of(alloc, bytes)?;
    let (bytes, rest) = bytes_of(alloc, rest)?;
    let bytes = StoredBytes::new(alloc, bytes);
    Ok((Content::Bytes { ctype, bytes }, rest))
}

/// Appends the stored form of a row.
#[tactic(auto, unfolding(crate::specs::StoredForms::row_bytes))]
pub(crate) fn put_row(out: &mut Vec<u8>, row: &Row) -> Mem<()>
    requires { HasFittingContent row.now }
    ensures form { OnOk result (out.new.items ≡ out.old.items ++ row_bytes row.now) }
    ensures storable { OnOk result (IsStorableRow row.now) }
{
    put_path(out, &row.path)?;
    put_byte(out, kind_byte(row.kind))?;
    put_number(out, row.modified.0)?;
    put_content(out, &row.content)
}

/// The size of a row's stored form.
#[tactic(auto, unfolding(crate::specs::StoredForms::row_bytes))]
pub(crate) fn row_size(row: &Row) -> u64
    ensures { result ≡ saturated (length (row_bytes row.now)) }
{
    let rest = plus(number_size(), content_size(&row.content));
    let rest = after_byte(rest);
    plus(piece_size(row.path.as_str().as_bytes()), rest)
}

/// Reads a row from its stored form.
#[tactic(auto, unfolding(crate::specs::Reading::row_at))]
pub(crate) fn row_of(alloc: Global, bytes: &[u8]) -> Result<(Row, &[u8]), ReadBack>
    ensures { Gives (λ x. (x.0, x.1.now)) result (row_at bytes.now) }
{
    let (path, rest) = path_of(alloc, bytes)?;
    let (kind, rest) = kind_of(rest)?;
    let (modified, rest) = number_of(rest)?;
    let (content, rest) = content_of(alloc, kind, rest)?;
    let row = Row {
        path,
        kind,
        content,
        modified: Moment(modified),
    };
    Ok((row, rest))
}

impl Stored for Row {
    ghost use Rattle.pod_command.specs.Encodable.{HasFittingContent};
    ghost use Rattle.stored_forms.specs.Reading.{row_at};
    ghost use Rattle.stored_forms.specs.Storable.{IsStorableRow};
    ghost use Rattle.stored_forms.specs.StoredForms.{row_bytes};

    ghost form = { row_bytes };

    ghost is_storable = { λ row. IsStorableRow row };

    ghost fits = { λ row. HasFittingContent row };

    ghost reads = { row_at };

    const LEAST: usize = 26;

    fn size(&self) -> u64 {
        row_size(self)
    }

    fn put(&self, out: &mut Vec<u8>) -> Mem<()> {
        put_row(out, self)
    }

    fn read(alloc: Global, bytes: &[u8]) -> Result<(Row, &[u8]), ReadBack> {
        row_of(alloc, bytes)
    }
}
