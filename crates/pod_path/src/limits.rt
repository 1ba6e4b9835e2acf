//! The limits of a path that is parsed.

ghost use Rattle.std.specs.Prelude.{◌≡◌, ◌&&◌, nat_le};
ghost use Rattle.pod_path.specs.declared.limits.TheConstants.{PATH_BYTES_LIMIT};
ghost use Rattle.pod_path.specs.declared.limits.TheConstants.{PATH_SEGMENTS_LIMIT};

/// The most bytes of a path that is parsed.
pub const PATH_BYTES_LIMIT: usize = 1_024;

/// The most segments of a path that is parsed. The empty text after a last slash is one.
pub const PATH_SEGMENTS_LIMIT: usize = 32;

/// Whether a path of so many bytes and segments is within the limits.
pub(crate) fn is_within(bytes: usize, segments: usize) -> bool
    ensures { result ≡ (nat_le bytes PATH_BYTES_LIMIT && nat_le segments PATH_SEGMENTS_LIMIT) }
{
    bytes <= PATH_BYTES_LIMIT && segments <= PATH_SEGMENTS_LIMIT
}
