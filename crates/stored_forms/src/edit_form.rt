//! The stored forms of edits.
ghost use Rattle.std.specs.Prelude.{◌≡◌, ◌++◌, length, OnOk};
ghost use Rattle.rdf_graph.specs.Size.{saturated};
ghost use Rattle.pod_command.specs.Encodable.{IsFittingEdit};
ghost use Rattle.stored_forms.specs.Readers.{Gives, both, mapped};
ghost use Rattle.stored_forms.specs.Reading.{change_of, edit_after, edit_at, graph_at, path_at};
ghost use Rattle.stored_forms.specs.Reading.{touch_of};
ghost use Rattle.stored_forms.specs.Readers.{number_at};
ghost use Rattle.stored_forms.specs.Storable.{IsStorableEdit};
ghost use Rattle.stored_forms.specs.StoredForms.{edit_bytes};

use crate::graph_form::{graph_of, graph_size, put_graph};
use crate::list_form::Stored;
use crate::primitive_reading::{byte_of, number_of, path_of};
use crate::primitive_writing::{
    after_byte, number_size, piece_size, plus, put_byte, put_number, put_path,
};
use crate::read_back::ReadBack;
use crate::row_form::{put_row, row_of, row_size};
use pod_base::{Mem, Moment};
use pod_command::Edit;
use rdf_graph::Change;
use std::alloc::Global;

/// Appends the stored form of an edit.
#[tactic(auto, unfolding(crate::specs::StoredForms::edit_bytes))]
fn put_edit(out: &mut Vec<u8>, edit: &Edit) -> Mem<()>
    requires { IsFittingEdit edit.now }
    ensures form { OnOk result (out.new.items ≡ out.old.items ++ edit_bytes edit.now) }
    ensures storable { OnOk result (IsStorableEdit edit.now) }
{
    match edit {
        Edit::Put(row) => {
            put_byte(out, 0)?;
            put_row(out, row)
        }
        Edit::Change {
            path,
            change,
            modified,
        } => {
            put_byte(out, 1)?;
            put_path(out, path)?;
            put_number(out, modified.0)?;
            put_graph(out, &change.removed)?;
            put_graph(out, &change.added)
        }
        Edit::Touch { path, modified } => {
            put_byte(out, 2)?;
            put_path(out, path)?;
            put_number(out, modified.0)
        }
        Edit::Remove { path } => {
            put_byte(out, 3)?;
            put_path(out, path)
        }
    }
}

/// The size of an edit's stored form.
#[tactic(auto, unfolding(crate::specs::StoredForms::edit_bytes))]
fn edit_size(edit: &Edit) -> u64
    ensures { result ≡ saturated (length (edit_bytes edit.now)) }
{
    match edit {
        Edit::Put(row) => after_byte(row_size(row)),
        Edit::Change { path, change, .. } => {
            let graphs = plus(graph_size(&change.removed), graph_size(&change.added));
            let rest = plus(number_size(), graphs);
            let rest = plus(piece_size(path.as_str().as_bytes()), rest);
            after_byte(rest)
        }
        Edit::Touch { path, .. } => {
            let rest = plus(piece_size(path.as_str().as_bytes()), number_size());
            after_byte(rest)
        }
        Edit::Remove { path } => after_byte(piece_size(path.as_str().as_bytes())),
    }
}

/// Reads an edit from its stored form.
#[tactic(auto, unfolding(crate::specs::Reading::edit_at))]
fn edit_of(alloc: Global, bytes: &[u8]) -> Result<(Edit, &[u8]), ReadBack>
    ensures { Gives (λ x. (x.0, x.1.now)) result (edit_at bytes.now) }
{
    let (tag, rest) = byte_of(bytes)?;
    edit_after(alloc, tag, rest)
}

/// Reads an edit from its stored form after the first byte.
#[tactic(auto, unfolding(crate::specs::Reading::edit_after))]
fn edit_after(alloc: Global, tag: u8, bytes: &[u8]) -> Result<(Edit, &[u8]), ReadBack>
    ensures { Gives (λ x. (x.0, x.1.now)) result (edit_after tag bytes.now) }
{
    match tag {
        0 => {
            let (row, rest) = row_of(alloc, bytes)?;
            Ok((Edit::Put(row), rest))
        }
        1 => change_of(alloc, bytes),
        2 => touch_of(alloc, bytes),
        3 => {
            let (path, rest) = path_of(alloc, bytes)?;
            Ok((Edit::Remove { path }, rest))
        }
        _ => Err(ReadBack::NotCanonical),
    }
}

/// Reads an edit that changes a graph, from its stored form after the first byte.
fn change_of(alloc: Global, bytes: &[u8]) -> Result<(Edit, &[u8]), ReadBack>
    ensures { Gives (λ x. (x.0, x.1.now)) result
        (mapped change_of (both path_at (both number_at (both graph_at graph_at))) bytes.now) }
{
    let (path, rest) = path_of(alloc, bytes)?;
    let (modified, rest) = number_of(rest)?;
    let (removed, rest) = graph_of(alloc, rest)?;
    let (added, rest) = graph_of(alloc, rest)?;
    let edit = Edit::Change {
        path,
        change: Change { removed, added },
        modified: Moment(modified),
    };
    Ok((edit, rest))
}

/// Reads an edit that is a touch, from its stored form after the first byte.
fn touch_of(alloc: Global, bytes: &[u8]) -> Result<(Edit, &[u8]), ReadBack>
    ensures { Gives (λ x. (x.0, x.1.now)) result
        (mapped touch_of (both path_at number_at) bytes.now) }
{
    let (path, rest) = path_of(alloc, bytes)?;
    let (modified, rest) = number_of(rest)?;
    let edit = Edit::Touch {
        path,
        modified: Moment(modified),
    };
    Ok((edit, rest))
}

impl Stored for Edit {
    ghost use Rattle.pod_command.specs.Encodable.{IsFittingEdit};
    ghost use Rattle.stored_forms.specs.Reading.{edit_at};
    ghost use Rattle.stored_forms.specs.Storable.{IsStorableEdit};
    ghost use Rattle.stored_forms.specs.StoredForms.{edit_bytes};

    ghost form = { edit_bytes };

    ghost is_storable = { λ edit. IsStorableEdit edit };

    ghost fits = { λ edit. IsFittingEdit edit };

    ghost reads = { edit_at };

    const LEAST: usize = 10;

    fn size(&self) -> u64 {
        edit_size(self)
    }

    fn put(&self, out: &mut Vec<u8>) -> Mem<()> {
        put_edit(out, self)
    }

    fn read(alloc: Global, bytes: &[u8]) -> Result<(Edit, &[u8]), ReadBack> {
        edit_of(alloc, bytes)
    }
}
