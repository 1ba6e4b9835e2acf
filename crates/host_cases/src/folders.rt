//! A disk at whose path there is a folder.

use crate::files::{disk_at, show_bytes, show_length, show_write};
use crate::outcomes::word;
use pod_disk::{Disk, FileDisk};
use std::fs;

const FOLDER: &str = "host_cases_no_file";

/// Shows that each call of a disk over the folder fails.
fn show_calls(rt: &HostRuntime, disk: &mut FileDisk<HostRuntime>) -> anyhow::Result<()> {
    show_length(rt, "folder", disk)?;
    show_bytes(rt, "folder", disk, 0)?;
    show_write(rt, "folder", disk, 0, "hello")?;
    let cut = word(disk.cut(0));
    println!(rt; "folder: cut to 0: {cut}")?;
    let synced = word(disk.sync());
    println!(rt; "folder: sync: {synced}")?;
    show_write(rt, "folder", disk, u64::MAX, "hello")?;
    println!(rt; "folder: faults: {}", disk.faults())?;
    Ok(())
}

/// Shows a disk over a folder that is made for it.
pub(crate) fn show_folder(rt: &HostRuntime) -> anyhow::Result<()> {
    let _ = fs::remove_dir_all(rt, FOLDER);
    let mut disk = disk_at(rt, FOLDER)?;
    fs::create_dir(rt, FOLDER)?;
    let outcome = show_calls(rt, &mut disk);
    fs::remove_dir_all(rt, FOLDER)?;
    outcome
}
