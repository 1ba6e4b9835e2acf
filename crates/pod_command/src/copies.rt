//! [`Copies`]: what is copied in lists.
ghost use Rattle.std.specs.Prelude.{◌≡◌, IfOk};

use crate::basis::Basis;
use crate::edit::Edit;
use crate::row::Row;
use pod_base::Mem;
use std::alloc::Global;

/// A value that is copied in lists.
pub(crate) trait Copies: Sized {
    /// A copy of the value, for the copy of a list of them.
    fn copied(&self, alloc: Global) -> Mem<Self>
        ensures { IfOk result (λ copy. copy ≡ self.now) };
}

impl Copies for Basis {
    fn copied(&self, alloc: Global) -> Mem<Basis> {
        self.copy(alloc)
    }
}

impl Copies for Edit {
    fn copied(&self, alloc: Global) -> Mem<Edit> {
        self.copy(alloc)
    }
}

impl Copies for Row {
    fn copied(&self, alloc: Global) -> Mem<Row> {
        self.copy(alloc)
    }
}

/// Copies of a list's items, which are rows, edits or bases.
pub(crate) fn copy_list<T: Copies + Drop>(alloc: Global, items: &[T]) -> Mem<Vec<T>>
    ensures { IfOk result (λ copies. copies.items ≡ items.now) }
{
    let mut copies = Vec::with_capacity(alloc, items.len())?;
    for item in items {
        let copy = item.copied(alloc)?;
        copies.push(copy)?;
    }
    Ok(copies)
}
