//! Several disks over one file, of which the first to use it locks it.

use crate::files::{disk_at, show_length, show_write};
use pod_disk::FileDisk;
use std::fs;

const FILE: &str = "host_cases_file";

/// Shows the calls of a disk that makes the file, and of two others meanwhile: an early one, which
/// has found no file, and a second one, which counts its faults.
fn show_while_locked(
    rt: &HostRuntime,
    early: &mut FileDisk<HostRuntime>,
    second: &mut FileDisk<HostRuntime>,
) -> anyhow::Result<()> {
    let mut disk = disk_at(rt, FILE)?;
    show_write(rt, "disk", &mut disk, 0, "hello")?;
    show_write(rt, "early disk", early, 0, "other")?;
    show_length(rt, "second disk", second)?;
    show_write(rt, "second disk", second, 0, "other")?;
    println!(rt; "second disk: faults: {}", second.faults())?;
    Ok(())
}

/// Shows three disks over the file, and two of them once the one that made it is dropped.
fn show_calls(rt: &HostRuntime) -> anyhow::Result<()> {
    let mut early = disk_at(rt, FILE)?;
    show_length(rt, "early disk", &mut early)?;
    let mut second = disk_at(rt, FILE)?;
    show_while_locked(rt, &mut early, &mut second)?;
    println!(rt; "disk: dropped")?;
    show_write(rt, "early disk", &mut early, 0, "other")?;
    show_length(rt, "second disk", &mut second)
}

/// Shows that a file has one disk at a time.
pub(crate) fn show_locked(rt: &HostRuntime) -> anyhow::Result<()> {
    let _ = fs::remove_file(rt, FILE);
    let outcome = show_calls(rt);
    fs::remove_file(rt, FILE)?;
    outcome
}
