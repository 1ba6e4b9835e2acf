//! Moments, and the stamp of a change.
ghost use Rattle.std.specs.Prelude.{◌≡◌, min};

/// A moment, in seconds since the beginning of 1970, UTC.
#[derive(Clone, Copy, Debug, PartialEq, Eq, PartialOrd, Ord, Hash)]
pub struct Moment(pub u64);

/// What identifies a change: the connection that requested it, the number of the request in that
/// connection, from 1, and the moment.
#[derive(Clone, Copy, Debug, PartialEq, Eq, Hash)]
pub struct Stamp {
    pub conn: u64,
    pub number: u64,
    pub moment: Moment,
}

/// The last second of the year 9999, in seconds since the beginning of 1970: the last one with an
/// HTTP date (RFC 9110 section 5.6.7).
pub const LAST_SECOND: u64 = 253_402_300_799;

/// The moment of a clock's number of seconds, or [`LAST_SECOND`] where that is less.
pub fn moment_of(seconds: u64) -> Moment
    ensures { result.0 ≡ min seconds LAST_SECOND }
{
    Moment(seconds.min(LAST_SECOND))
}
