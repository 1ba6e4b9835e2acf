//! Prefixes and suffixes of slices, with their contracts over lists.

ghost use Rattle.std.specs.Prelude.{◌≡◌, ◌≤◌, length, take, drop, min};

/// The first `len` bytes of a slice.
pub(crate) fn prefix(bytes: &[u8], len: usize) -> &[u8]
    requires { len ≤ length bytes.now }
    ensures { result.now ≡ take len bytes.now }
{
    &bytes[..len]
}

/// The first `most` bytes of a slice, or all where there are fewer.
pub(crate) fn prefix_up_to(bytes: &[u8], most: usize) -> &[u8]
    ensures bytes { result.now ≡ take most bytes.now }
    ensures len { length result.now ≡ min most (length bytes.now) }
{
    if bytes.len() > most {
        prefix(bytes, most)
    } else {
        bytes
    }
}

/// The bytes of a slice from `at` on.
pub(crate) fn suffix(bytes: &[u8], at: usize) -> &[u8]
    requires { at ≤ length bytes.now }
    ensures { result.now ≡ drop at bytes.now }
{
    &bytes[at..]
}
