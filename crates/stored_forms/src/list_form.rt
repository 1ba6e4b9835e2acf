//! [`Stored`]: what is stored in lists.
ghost use Rattle.std.specs.Prelude.{◌≡◌, ◌++◌, ℕ, List, Option, length, IfOk, OnOk};
ghost use Rattle.std.specs.List.{AllByRecursion};
ghost use Rattle.rdf_graph.specs.Size.{saturated};
ghost use Rattle.stored_forms.specs.Readers.{Gives, list_at, times_at};
ghost use Rattle.stored_forms.specs.Storable.{IsListOf};
ghost use Rattle.stored_forms.specs.StoredForms.{list_bytes};

use crate::primitive_reading::number_of;
use crate::primitive_writing::{number_size, plus, put_number};
use crate::read_back::ReadBack;
use pod_base::Mem;
use std::alloc::Global;

/// A value that is stored in lists.
pub(crate) trait Stored: Sized {
    /// Its stored form.
    ghost form: { Self → List ℕ };

    /// What values of the type are.
    ghost is_storable: { Self → Type 0 };

    /// Which of them have a stored form.
    ghost fits: { Self → Type 0 };

    /// How it is read.
    ghost reads: { List ℕ → Option (Self × List ℕ) };

    /// The fewest bytes that a form has.
    const LEAST: usize;

    /// The size of the item's stored form in a list, at most 2^64 - 1.
    fn size(&self) -> u64
        ensures { result ≡ saturated (length (form self.now)) };

    /// Appends the item's stored form to a list's.
    fn put(&self, out: &mut Vec<u8>) -> Mem<()>
        requires { fits self.now }
        ensures form { OnOk result (out.new.items ≡ out.old.items ++ form self.now) }
        ensures storable { OnOk result (is_storable self.now) };

    /// Reads the item whose stored form the bytes of a list begin with, and the bytes after it.
    fn read(alloc: Global, bytes: &[u8]) -> Result<(Self, &[u8]), ReadBack>
        ensures { Gives (λ x. (x.0, x.1.now)) result (reads bytes.now) };
}

/// The size of a list's stored form, at most 2^64 - 1.
#[tactic(auto, unfolding(crate::specs::StoredForms::list_bytes))]
pub(crate) fn list_size<T: Stored>(items: &[T]) -> u64
    ensures { result ≡ saturated (length (list_bytes T.form items.now)) }
{
    let mut size = number_size();
    for item in items {
        size = plus(size, item.size());
    }
    size
}

/// Appends a list's stored form.
#[tactic(auto, unfolding(crate::specs::StoredForms::list_bytes))]
pub(crate) fn put_list<T: Stored>(out: &mut Vec<u8>, items: &[T]) -> Mem<()>
    requires { AllByRecursion T.fits items.now }
    ensures form { OnOk result (out.new.items ≡ out.old.items ++ list_bytes T.form items.now) }
    ensures storable { OnOk result (IsListOf T.is_storable items.now) }
{
    put_number(out, items.len() as u64)?;
    for item in items {
        item.put(out)?;
    }
    Ok(())
}

/// Reads a list from its stored form, and the bytes after it.
#[tactic(auto, unfolding(crate::specs::Readers::list_at))]
pub(crate) fn list_of<T: Stored + Drop>(
    alloc: Global,
    bytes: &[u8],
) -> Result<(Vec<T>, &[u8]), ReadBack>
    ensures { Gives (λ x. (x.0.items, x.1.now)) result (list_at T.reads bytes.now) }
{
    let (count, rest) = number_of(bytes)?;
    items_of(alloc, count, rest)
}

/// Reads so many items of a list from their stored forms, and the bytes after them. It reserves
/// memory for no more items than the bytes can hold.
fn items_of<T: Stored + Drop>(
    alloc: Global,
    count: u64,
    bytes: &[u8],
) -> Result<(Vec<T>, &[u8]), ReadBack>
    ensures { Gives (λ x. (x.0.items, x.1.now)) result (times_at T.reads count bytes.now) }
{
    let most = bytes.len().checked_div(T::LEAST).unwrap_or(0);
    let mut items = Vec::with_capacity(alloc, most.min(count as usize))?;
    let mut rest = bytes;
    for _ in 0..count {
        let (item, after) = T::read(alloc, rest)?;
        items.push(item)?;
        rest = after;
    }
    Ok((items, rest))
}
