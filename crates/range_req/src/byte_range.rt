//! [`ByteRange`]: one range of a Range field, and the part of a body that it is.

ghost use Rattle.std.specs.Prelude.{◌≡◌, ◌<◌, Some, None};
ghost use Rattle.range_req.specs.ByteRanges as spec;

use crate::position_number::number;
use field_list::{Quoting, split_pair};

/// One range of a Range field (RFC 9110, section 14.1.2).
#[derive(Clone, Copy, Debug, PartialEq, Eq)]
pub enum ByteRange {
    /// `a-b`: the bytes from a to b, that one included.
    Between(u64, u64),
    /// `a-`: the bytes from a on.
    From(u64),
    /// `-n`: the last n bytes.
    Last(u64),
}

/// A part of a body: the positions of its first and of its last byte.
#[derive(Clone, Copy, Debug, PartialEq, Eq)]
pub struct Part {
    pub first: u64,
    pub last: u64,
}

/// The byte range between two positions, where the first isn't the greater one.
fn between(first: &[u8], last: &[u8]) -> Option<ByteRange>
    ensures { result ≡ spec.between (spec.number first.now) (spec.number last.now) }
{
    match number(first) {
        Some(first) => match number(last) {
            Some(last) => {
                if first <= last {
                    Some(ByteRange::Between(first, last))
                } else {
                    None
                }
            }
            None => None,
        },
        None => None,
    }
}

/// The byte range from a position on.
fn from(first: &[u8]) -> Option<ByteRange>
    ensures { result ≡ spec.from (spec.number first.now) }
{
    match number(first) {
        Some(first) => Some(ByteRange::From(first)),
        None => None,
    }
}

/// The byte range of so many last bytes.
fn last_bytes(count: &[u8]) -> Option<ByteRange>
    ensures { result ≡ spec.last_bytes (spec.number count.now) }
{
    match number(count) {
        Some(count) => Some(ByteRange::Last(count)),
        None => None,
    }
}

/// The byte range that an element is; none where it is malformed.
pub(crate) fn byte_range(element: &[u8]) -> Option<ByteRange>
    ensures { result ≡ spec.byte_range element.now }
{
    match split_pair(Quoting::Strings, b'-', element) {
        Some((first, last)) => {
            if first.is_empty() {
                last_bytes(last)
            } else if last.is_empty() {
                from(first)
            } else {
                between(first, last)
            }
        }
        None => None,
    }
}

/// The part of a body of that size that a byte range from one position to another is, up to the
/// body's end.
fn part_up_to(first: u64, last: u64, size: u64) -> Option<Part>
    ensures { result ≡ spec.part_up_to first last size }
{
    if first < size {
        Some(Part {
            first,
            last: last.min(size - 1),
        })
    } else {
        None
    }
}

/// The part of a body of that size that a byte range is; none where it has no byte there.
pub(crate) fn part_in(size: u64, range: ByteRange) -> Option<Part>
    ensures { result ≡ spec.part_in size range }
{
    match range {
        ByteRange::Between(first, last) => part_up_to(first, last, size),
        ByteRange::From(first) => part_up_to(first, size.saturating_sub(1), size),
        ByteRange::Last(count) => {
            if count == 0 {
                None
            } else {
                part_up_to(size.saturating_sub(count), size.saturating_sub(1), size)
            }
        }
    }
}
