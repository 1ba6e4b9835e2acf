//! The figure `codec`: the snapshot in the file `snapshot` of the current folder is decoded, and
//! encoded again.
use crate::process_usage::{forget_peak, memory, peak_memory, used_micros};
use anyhow::bail;
use std::alloc::Global;
use std::fs;
use stored_forms::{decode_snapshot, encode_snapshot};

/// Decodes the form of a snapshot, and prints how much memory the snapshot takes, and how much was
/// taken at most while it was decoded.
fn weigh(rt: &HostRuntime, alloc: Global, form: &[u8]) -> anyhow::Result<()> {
    forget_peak(rt)?;
    let before = memory(rt)?;
    let snapshot = decode_snapshot(alloc, form)?;
    let most = peak_memory(rt)?.saturating_sub(before);
    let kept = memory(rt)?.saturating_sub(before);
    println!(rt;
        "{} rows take {kept} KiB, decoding took at most {most} KiB",
        snapshot.rows.len()
    )?;
    Ok(())
}

/// Decodes the form of a snapshot, encodes what was decoded, and prints how many rows and bytes
/// they are, and the times if asked.
fn code(rt: &HostRuntime, alloc: Global, form: &[u8], times: bool) -> anyhow::Result<()> {
    let start = used_micros(rt)?;
    let snapshot = decode_snapshot(alloc, form)?;
    let decoded = used_micros(rt)?;
    let encoded = encode_snapshot(alloc, &snapshot)?;
    let again = used_micros(rt)?.saturating_sub(decoded);
    if encoded.as_slice() != form {
        bail!("encoded to other bytes");
    }
    println!(rt; "{} rows in {} bytes", snapshot.rows.len(), form.len())?;
    if times {
        let decoded = decoded.saturating_sub(start);
        println!(rt; "decoded in {decoded} microseconds, encoded in {again}")?;
    }
    Ok(())
}

/// Decodes and encodes the snapshot, and prints what memory and time it took, if asked.
pub fn code_snapshot(rt: &HostRuntime, alloc: Global, costs: bool) -> anyhow::Result<()> {
    let form = fs::read(rt, "snapshot")?;
    if costs {
        weigh(rt, alloc, form.as_slice())?;
    }
    code(rt, alloc, form.as_slice(), costs)
}
