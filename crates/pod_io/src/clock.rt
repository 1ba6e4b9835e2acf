//! [`Clock`]: what the time is.
ghost use Rattle.std.specs.Prelude.{◌≡◌, ℕ};

use std::time::SystemTime;

/// What the time is.
pub trait Clock {
    /// The numbers that the clock may give.
    ghost may_give: { Self → ℕ → Type 0 };

    /// The clock's time, in seconds since the beginning of 1970, UTC.
    fn now(&self) -> u64
        ensures { may_give self.now result };
}

/// A clock that always gives one number.
#[derive(Clone, Copy, Debug)]
pub struct SetClock {
    pub seconds: u64,
}

impl Clock for SetClock {
    ghost may_give = { λ clock seconds. seconds ≡ clock.seconds };

    fn now(&self) -> u64 {
        self.seconds
    }
}

/// The host's clock, which may give any number. Where the host doesn't know the time, or has one
/// before 1970, it gives 0.
#[derive(Debug, Drop)]
pub struct HostClock<R: Drop> {
    host: R,
}

impl<R: Drop> HostClock<R> {
    /// The clock of that host.
    pub fn new(host: R) -> HostClock<R> {
        HostClock { host }
    }
}

impl<R: std::time::Clock + Drop> Clock for HostClock<R> {
    ghost may_give = { λ _ _. Unit {0} };

    fn now(&self) -> u64 {
        let Ok(time) = SystemTime::now(&self.host) else {
            return 0;
        };
        match time.duration_since(SystemTime::UNIX_EPOCH) {
            Ok(since) => since.as_secs(),
            Err(_before) => 0,
        }
    }
}
