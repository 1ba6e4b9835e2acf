//! A disk over a file, which the first write makes.

use crate::outcomes::word;
use pod_base::Text;
use pod_disk::{Disk, FileDisk};
use pod_io::Failed;
use std::fs;
use std::os::unix::fs::MetadataExt;

/// The folder of the file.
const FOLDER: &str = "host_cases_folder";

const FILE: &str = "host_cases_folder/first";

/// A disk over the file of a path.
pub(crate) fn disk_at(rt: &HostRuntime, path: &str) -> anyhow::Result<FileDisk<HostRuntime>> {
    let path = Text::of(rt.alloc(), path)?;
    Ok(FileDisk::new(rt.clone()?, path))
}

/// Shows the four bytes of a disk from an offset on.
pub(crate) fn show_bytes(
    rt: &HostRuntime,
    name: &str,
    disk: &mut FileDisk<HostRuntime>,
    at: u64,
) -> anyhow::Result<()> {
    let mut into = [0u8; 4];
    match disk.read(at, &mut into) {
        Ok(()) => println!(rt; "{name}: 4 bytes at {at}: {}", into.escape_ascii())?,
        Err(Failed) => println!(rt; "{name}: 4 bytes at {at}: failed")?,
    }
    Ok(())
}

/// Shows how many bytes a disk has.
pub(crate) fn show_length(
    rt: &HostRuntime,
    name: &str,
    disk: &mut FileDisk<HostRuntime>,
) -> anyhow::Result<()> {
    match disk.len() {
        Ok(len) => println!(rt; "{name}: length: {len}")?,
        Err(Failed) => println!(rt; "{name}: length: failed")?,
    }
    Ok(())
}

/// Writes a text to a disk at an offset, and shows what came of it.
pub(crate) fn show_write(
    rt: &HostRuntime,
    name: &str,
    disk: &mut FileDisk<HostRuntime>,
    at: u64,
    text: &str,
) -> anyhow::Result<()> {
    let done = word(disk.write_at(at, text.as_bytes()));
    println!(rt; "{name}: write {text} at {at}: {done}")?;
    Ok(())
}

/// Shows a disk over a file that is missing: it is empty, and makes no file.
fn show_missing(rt: &HostRuntime, disk: &mut FileDisk<HostRuntime>) -> anyhow::Result<()> {
    show_length(rt, "file, missing", disk)?;
    let read = word(disk.read(0, &mut []));
    println!(rt; "file, missing: no bytes at 0: {read}")?;
    let synced = word(disk.sync());
    println!(rt; "file, missing: sync: {synced}")?;
    println!(rt; "file: there: {}", fs::exists(rt, FILE)?)?;
    Ok(())
}

/// Shows that the first write makes the file for its owner alone, and that a later one is over it.
fn show_writes(rt: &HostRuntime, disk: &mut FileDisk<HostRuntime>) -> anyhow::Result<()> {
    show_write(rt, "file", disk, 0, "hello")?;
    let mode = fs::metadata(rt, FILE)?.mode() & 0o777;
    println!(rt; "file: mode: {mode:o}")?;
    show_write(rt, "file", disk, 3, "p!?")?;
    let synced = word(disk.sync());
    println!(rt; "file: sync: {synced}")?;
    show_bytes(rt, "file", disk, 1)
}

/// Shows that the file is cut, and that a read past its end is a fault.
fn show_cut(rt: &HostRuntime, disk: &mut FileDisk<HostRuntime>) -> anyhow::Result<()> {
    let cut = word(disk.cut(4));
    println!(rt; "file: cut to 4: {cut}")?;
    show_length(rt, "file", disk)?;
    let synced = word(disk.sync());
    println!(rt; "file: sync: {synced}")?;
    println!(rt; "file: faults: {}", disk.faults())?;
    show_bytes(rt, "file", disk, 1)?;
    println!(rt; "file: faults: {}", disk.faults())?;
    Ok(())
}

/// Shows the calls of a disk over a new file, and what another disk reads then.
fn show_calls(rt: &HostRuntime) -> anyhow::Result<()> {
    let mut disk = disk_at(rt, FILE)?;
    show_missing(rt, &mut disk)?;
    show_writes(rt, &mut disk)?;
    show_cut(rt, &mut disk)?;
    drop(disk);
    let mut again = disk_at(rt, FILE)?;
    show_bytes(rt, "file opened again", &mut again, 0)
}

/// Shows a disk over a file in a folder that is made for it.
pub(crate) fn show_file(rt: &HostRuntime) -> anyhow::Result<()> {
    let _ = fs::remove_dir_all(rt, FOLDER);
    fs::create_dir(rt, FOLDER)?;
    let outcome = show_calls(rt);
    fs::remove_dir_all(rt, FOLDER)?;
    outcome
}
