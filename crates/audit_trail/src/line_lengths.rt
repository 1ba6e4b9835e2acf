//! The capacity that a line is made with. No clause depends on it: a line grows where it has to.

use itoa::Buffer;

/// The length of a number in a line of the trail, in digits.
pub(crate) fn number_len(number: u64) -> usize {
    let mut digits = Buffer::new();
    digits.format(number).len()
}

/// The sum of the lengths of what a line of the trail has, at most that of a `usize`.
pub(crate) fn total(lengths: &[usize]) -> usize {
    let mut sum = 0usize;
    for length in lengths {
        sum = sum.saturating_add(*length);
    }
    sum
}
