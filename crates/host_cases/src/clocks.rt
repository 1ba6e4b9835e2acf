//! Clocks.

use pod_io::{Clock, HostClock, SetClock};

/// When the first clock is set to, in seconds: long before any run.
const SECONDS: u64 = 784_111_777;

/// Shows a clock that is set, and whether the host's is later.
pub(crate) fn show_clocks(rt: &HostRuntime) -> anyhow::Result<()> {
    let clock = SetClock { seconds: SECONDS };
    println!(rt; "clock: set to {SECONDS}: {}", clock.now())?;
    let host = HostClock::new(rt.clone()?);
    let later = host.now() > SECONDS;
    println!(rt; "clock: of the host, later than that: {later}")?;
    Ok(())
}
