//! A list of numbers.

use pod_base::List;
use std::alloc::Global;

/// Pushes the numbers below 100 to a list, and returns how many it took.
fn push_all(alloc: Global, list: &mut List<u8>) -> usize {
    let mut taken = 0usize;
    for item in 0..100u8 {
        if list.push(alloc, item).is_ok() {
            taken = taken.saturating_add(1);
        }
    }
    taken
}

/// Sets the first item of a list to 7.
fn set_first(list: &mut List<u8>) {
    if let Some(first) = list.as_mut_slice().first_mut() {
        *first = 7;
    }
}

/// Shows that a list takes items, gives the last one, and lends them to be changed.
pub(crate) fn show_list(rt: &HostRuntime) -> anyhow::Result<()> {
    let alloc = rt.alloc();
    let mut list = List::new(alloc);
    list.reserve(alloc, 1)?;
    let taken = push_all(alloc, &mut list);
    println!(rt; "list: 100 items pushed: {taken} taken")?;
    let last = list.pop().unwrap_or(0);
    println!(rt; "list: pop: {last}, and {} left", list.len())?;
    set_first(&mut list);
    let items = list.into_vec();
    let first = items.first().copied().unwrap_or(0);
    println!(rt; "list: the first set to 7, as a vector: {first}")?;
    let empty = List::from_vec(items).is_empty();
    println!(rt; "list: of that vector, empty: {empty}")?;
    Ok(())
}
