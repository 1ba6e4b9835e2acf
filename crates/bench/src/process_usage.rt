//! What the process has used: processor time and memory.
use anyhow::bail;
use std::alloc::Global;
use std::fs;
use std::time::CpuClock;

/// The microseconds of processor time that the process has used.
pub fn used_micros(rt: &HostRuntime) -> anyhow::Result<u128> {
    Ok(rt.process_cpu_time()?.as_micros())
}

/// The kibibytes of memory that the process has.
pub fn memory(rt: &HostRuntime) -> anyhow::Result<u64> {
    status(rt, "VmRSS:")
}

/// The most kibibytes of memory that the process had since `forget_peak`.
pub fn peak_memory(rt: &HostRuntime) -> anyhow::Result<u64> {
    status(rt, "VmHWM:")
}

/// Begins to note anew how much memory the process has at most (Linux, proc_pid_clear_refs).
pub fn forget_peak(rt: &HostRuntime) -> anyhow::Result<()> {
    fs::write(rt, "/proc/self/clear_refs", "5")?;
    Ok(())
}

/// The number after a name, where the line begins with the name.
fn number_in(line: &str, name: &str) -> Option<u64> {
    let value = line.strip_prefix(name)?;
    let word = value.split_whitespace().next()?;
    word.parse().ok()
}

/// The number in the first line that begins with the name.
fn number_of(text: &str, name: &str) -> Option<u64> {
    for line in text.lines() {
        if let Some(number) = number_in(line, name) {
            return Some(number);
        }
    }
    None
}

/// The number of kibibytes in a line of the process's status (Linux, proc_pid_status).
fn status(rt: &HostRuntime, name: &str) -> anyhow::Result<u64> {
    let text = fs::read_to_string(rt, "/proc/self/status")?;
    match number_of(text.as_str(), name) {
        Some(number) => Ok(number),
        None => bail!("the status of the process has no such number"),
    }
}
