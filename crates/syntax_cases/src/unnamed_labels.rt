//! Cases of `turtle_reader`: the labels of the unnamed nodes with these numbers in a document.

use case_words::bytes;
use pod_base::Mem;
use std::alloc::Global;
use turtle_reader::Labels;

/// The labels of the nodes, with a space after each.
pub(crate) fn labels(alloc: Global, numbers: &str, field: &str) -> Mem<String> {
    let document = bytes(alloc, field)?;
    let mut labels = Labels::of(alloc, document.as_slice())?;
    let mut shown = String::new(alloc);
    for number in numbers.split(' ') {
        let label = labels.label(alloc, number.parse::<usize>().unwrap_or(0))?;
        shown.push_str(label.as_str())?;
        shown.push(' ')?;
    }
    Ok(shown)
}
