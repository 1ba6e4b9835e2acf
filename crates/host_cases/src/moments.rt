//! Moments, which end with the year 9999.

use pod_base::moment_of;

/// Shows the moments of some numbers of seconds.
pub(crate) fn show_moments(rt: &HostRuntime) -> anyhow::Result<()> {
    for seconds in [0, 784_111_777, 253_402_300_799, 253_402_300_800, u64::MAX] {
        let moment = moment_of(seconds).0;
        println!(rt; "moment: of {seconds} seconds: {moment}")?;
    }
    Ok(())
}
