//! [`Effect`]: what one edit of an entry did to a row.
ghost use Rattle.std.specs.Prelude.{◌≡◌, IfOk, OnOk};
ghost use Rattle.pod_rows.specs.Pod.{is_row};
ghost use Rattle.row_pages.specs.Items.{rows_of};
ghost use Rattle.pod_pages.specs.Effects.{effect_of, effect_on, kept_effects, oldest_after};
ghost use Rattle.pod_pages.specs.Effects.{put_kind};

use crate::limits::EFFECTS_ENTRIES_LIMIT;
use pod_base::Mem;
use pod_command::{Edit, Row};
use pod_path::Path;
use row_pages::Rows;
use std::alloc::Global;

/// What became of a row.
#[derive(Clone, Copy, Debug, PartialEq, Eq)]
pub enum EffectKind {
    Create,
    Update,
    Delete,
}

/// What an edit did: the number of its entry, the path of the row, and what became of it.
#[derive(Debug, Drop)]
pub struct Effect {
    pub seq: u64,
    pub path: Path,
    pub kind: EffectKind,
}

impl Effect {
    /// A copy of the effect, which shares its path.
    pub fn copy(&self, alloc: Global) -> Mem<Effect>
        ensures { IfOk result (λ copy. copy ≡ self.now) }
    {
        let path = self.path.copy(alloc)?;
        Ok(Effect {
            seq: self.seq,
            path,
            kind: self.kind,
        })
    }
}

/// Whether there is a row at a path, on which an edit's effect depends.
pub(crate) fn is_row(rows: &Rows, path: &Path) -> bool
    ensures { result ≡ is_row (rows_of rows.now) path.now }
{
    rows.find(path.as_str().as_bytes()).is_some()
}

/// The effect of an edit, of these parts.
fn make_effect(alloc: Global, seq: u64, path: &Path, kind: EffectKind) -> Mem<Effect>
    ensures { IfOk result (λ made. made ≡ effect_on seq path.now kind) }
{
    let path = path.copy(alloc)?;
    Ok(Effect { seq, path, kind })
}

/// The kind of effect that a Put has at a path, by whether there is a row.
fn put_kind(is_row: bool) -> EffectKind
    ensures { result ≡ put_kind is_row }
{
    if is_row {
        EffectKind::Update
    } else {
        EffectKind::Create
    }
}

/// The effect of an edit of the entry with a number, by the rows before the edit.
pub(crate) fn effect_of(alloc: Global, seq: u64, rows: &Rows, edit: &Edit) -> Mem<Effect>
    ensures { IfOk result (λ made. made ≡ effect_of seq (rows_of rows.now) edit.now) }
{
    match edit {
        Edit::Put(row) => make_effect(alloc, seq, &row.path, put_kind(is_row(rows, &row.path))),
        Edit::Change {
            path,
            change: _,
            modified: _,
        } => make_effect(alloc, seq, path, EffectKind::Update),
        Edit::Touch { path, modified: _ } => make_effect(alloc, seq, path, EffectKind::Update),
        Edit::Remove { path } => make_effect(alloc, seq, path, EffectKind::Delete),
    }
}

/// The number of the oldest entry whose effects are kept before the next entry.
pub(crate) fn oldest_after(oldest: u64, next: u64) -> u64
    ensures { result ≡ oldest_after oldest next }
{
    let first = next.saturating_sub(EFFECTS_ENTRIES_LIMIT);
    if oldest <= first { first } else { oldest }
}

/// Copies of the effects of the entries from a number on.
pub(crate) fn kept_effects(alloc: Global, effects: &[Effect], oldest: u64) -> Mem<Vec<Effect>>
    ensures { IfOk result (λ kept. kept.items ≡ kept_effects oldest effects.now) }
{
    let mut kept = Vec::new(alloc);
    for effect in effects {
        if oldest <= effect.seq {
            let copy = effect.copy(alloc)?;
            kept.push(copy)?;
        }
    }
    Ok(kept)
}

/// Drops the effects of the entries before a number. None is copied.
pub(crate) fn drop_old(effects: &mut Vec<Effect>, oldest: u64)
    ensures { effects.new.items ≡ kept_effects oldest effects.old.items }
{
    effects.retain(|effect| oldest <= effect.seq);
}

/// Makes room for one more effect: it drops the effects of the entries before a number, where all
/// room is taken, and then makes room for as many as are left. So dropping costs little for each.
pub(crate) fn make_room(effects: &mut Vec<Effect>, oldest: u64) -> Mem<()>
    ensures { OnOk result (kept_effects oldest effects.new.items
        ≡ kept_effects oldest effects.old.items) }
{
    if effects.len() < effects.capacity() {
        return Ok(());
    }
    drop_old(effects, oldest);
    effects.reserve(effects.len().saturating_add(1))?;
    Ok(())
}

/// The effect of putting a row, by whether it replaces one.
pub(crate) fn put_effect(alloc: Global, seq: u64, row: &Row, replaces: bool) -> Mem<Effect>
    ensures { IfOk result (λ made. made ≡ effect_on seq row.now.path (put_kind replaces)) }
{
    make_effect(alloc, seq, &row.path, put_kind(replaces))
}
