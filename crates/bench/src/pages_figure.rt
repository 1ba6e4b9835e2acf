//! The figure `pages`: the pod of the file `snapshot` of the current folder, as a version in pages,
//! is searched, and changed by the entries of the files `document` and `list`, which put a document
//! and a list above all documents.
ghost use Rattle.pod_rows.specs.Apply.{Applies};

use crate::process_usage::{memory, used_micros};
use anyhow::bail;
use pod_command::{Entry, Row};
use pod_pages::Version;
use pod_records::fits;
use pod_rows::PodState;
use std::alloc::Global;
use std::fs;
use stored_forms::{decode_entry, decode_snapshot};

/// How many searches there are for each PUT of a document.
const SEARCHES: usize = 1_000;

/// How many rows are searched again and again.
const CHOSEN: usize = 64;

/// How many PUTs of a document there are for each PUT of a list.
const PUTS: usize = 100;

/// The entry that a file holds.
fn entry_of(rt: &HostRuntime, alloc: Global, file: &str) -> anyhow::Result<Entry> {
    let form = fs::read(rt, file)?;
    let entry = decode_entry(alloc, form.as_slice())?;
    Ok(entry)
}

/// Whether a row is found, and the list that governs it has rules.
fn is_found(version: &Version, row: &Row) -> bool {
    version.find(&row.path).is_some() && !version.effective(&row.path).rules.list.is_empty()
}

/// Searches so many of these rows, which are as far from each other as can be, in turn, in steps of
/// 7919 of them, so many times in all, and returns how many were found.
fn count_found(version: &Version, rows: &[Row], chosen: usize, times: usize) -> usize {
    let chosen = chosen.max(1);
    let apart = (rows.len() / chosen).max(1);
    let mut found: usize = 0;
    for number in 0..times {
        let place = (number.wrapping_mul(7_919) % chosen).saturating_mul(apart);
        if let Some(row) = rows.get(place) {
            if is_found(version, row) {
                found = found.saturating_add(1);
            }
        }
    }
    found
}

/// Searches a version for so many of these rows so many times, and prints how often one was found,
/// and the time if asked.
fn measure_searches(
    rt: &HostRuntime,
    version: &Version,
    rows: &[Row],
    chosen: usize,
    searches: usize,
    times: bool,
) -> anyhow::Result<()> {
    let start = used_micros(rt)?;
    let found = count_found(version, rows, chosen, searches);
    let searched = used_micros(rt)?.saturating_sub(start);
    println!(rt; "{chosen} rows, {found} of {searches} found")?;
    if times {
        println!(rt; "searched in {searched} microseconds")?;
    }
    Ok(())
}

/// Tests so many times whether an entry applies, and returns whether it did at last.
fn test(alloc: Global, version: &Version, entry: &Entry, times: usize) -> anyhow::Result<bool> {
    let mut applies = false;
    for _ in 0..times {
        applies = fits(alloc, version, entry)?;
    }
    Ok(applies)
}

/// Makes the version after an entry so many times.
fn apply(alloc: Global, version: &Version, entry: &Entry, times: usize) -> anyhow::Result<()>
    requires { Applies version.now.pod version.now.next entry.now }
{
    for _ in 0..times {
        let _next = version.after_entry(alloc, entry)?;
    }
    Ok(())
}

/// Tests and applies an entry so many times, and prints its path, and the times if asked.
fn measure_entry(
    rt: &HostRuntime,
    alloc: Global,
    version: &Version,
    entry: &Entry,
    rounds: usize,
    times: bool,
) -> anyhow::Result<()> {
    let start = used_micros(rt)?;
    let applies = test(alloc, version, entry, rounds)?;
    let tested = used_micros(rt)?;
    if !applies || !fits(alloc, version, entry)? {
        bail!("the entry doesn't apply");
    }
    let begun = used_micros(rt)?;
    apply(alloc, version, entry, rounds)?;
    let applied = used_micros(rt)?.saturating_sub(begun);
    println!(rt; "{} is put {rounds} times", entry.path.as_str())?;
    if times {
        let tested = tested.saturating_sub(start);
        println!(rt; "tested in {tested} microseconds, applied in {applied}")?;
    }
    Ok(())
}

/// Makes the version after a PUT of a document, so many times, and after a list above all documents.
fn change_version(
    rt: &HostRuntime,
    alloc: Global,
    version: &Version,
    rounds: usize,
    times: bool,
) -> anyhow::Result<()> {
    let document = entry_of(rt, alloc, "document")?;
    measure_entry(rt, alloc, version, &document, rounds, times)?;
    let list = entry_of(rt, alloc, "list")?;
    measure_entry(rt, alloc, version, &list, rounds.div_ceil(PUTS), times)
}

/// Searches a version, for some rows and for all.
fn search_version(
    rt: &HostRuntime,
    alloc: Global,
    version: &Version,
    searches: usize,
    times: bool,
) -> anyhow::Result<()> {
    let rows = version.rows(alloc)?;
    let rows = rows.as_slice();
    measure_searches(rt, version, rows, CHOSEN.min(rows.len()), searches, times)?;
    measure_searches(rt, version, rows, rows.len(), searches, times)
}

/// The version of the snapshot. Prints the memory that its rows take and what the version takes
/// beside, and how long it took to make it, if asked.
fn version_of(rt: &HostRuntime, alloc: Global, costs: bool) -> anyhow::Result<Version> {
    let form = fs::read(rt, "snapshot")?;
    let before = memory(rt)?;
    let snapshot = decode_snapshot(alloc, form.as_slice())?;
    let filled = memory(rt)?;
    let start = used_micros(rt)?;
    let version = Version::of(alloc, snapshot)?;
    let made = used_micros(rt)?.saturating_sub(start);
    if costs {
        let (count, rows) = (version.count(), filled.saturating_sub(before));
        let pages = memory(rt)?.saturating_sub(filled);
        println!(rt; "{count} rows take {rows} KiB, their version {pages} KiB more")?;
        println!(rt; "made in {made} microseconds")?;
    }
    Ok(version)
}

/// Makes the version of the snapshot, searches it, and changes it so many times.
pub fn lay_pages(
    rt: &HostRuntime,
    alloc: Global,
    rounds: usize,
    times: bool,
) -> anyhow::Result<()> {
    let version = version_of(rt, alloc, times)?;
    search_version(rt, alloc, &version, rounds.saturating_mul(SEARCHES), times)?;
    change_version(rt, alloc, &version, rounds, times)
}
