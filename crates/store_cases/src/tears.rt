//! What a crash leaves of the writes and cuts since the last sync, as a field: `prefix N` or
//! `filled N`, one for each of them, separated by commas.

use pod_base::Mem;
use pod_disk::Tear;
use std::alloc::Global;

/// The tear of a piece.
pub(crate) fn tear(piece: &str) -> Tear {
    let (kind, number) = piece.split_once(' ').unwrap_or((piece, ""));
    match kind {
        "filled" => Tear::Filled(number.parse::<u8>().unwrap_or(0)),
        _ => Tear::Prefix(number.parse::<usize>().unwrap_or(0)),
    }
}

/// The tears of a field. An empty field has none.
pub(crate) fn tears(alloc: Global, field: &str) -> Mem<Vec<Tear>> {
    let mut list = Vec::new(alloc);
    if field.is_empty() {
        return Ok(list);
    }
    for piece in field.split(',') {
        list.push(tear(piece))?;
    }
    Ok(list)
}
