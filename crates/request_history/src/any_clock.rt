//! [`AnyClock`]: a clock that may give any number.
use pod_io::Clock;

/// A clock that may give any number, as that of a world.
pub(crate) struct AnyClock;

impl Clock for AnyClock {
    ghost may_give = { λ _ _. Unit {0} };

    /// The moment of a world's clock, which may be any number.
    fn now(&self) -> u64 {
        0
    }
}
