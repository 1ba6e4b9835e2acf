//! The limits of a pod.

/// The most rows of a pod.
pub const ROWS_LIMIT: usize = 65_536;

/// The most bytes of a pod's base.
pub const BASE_BYTES_LIMIT: usize = 256;

/// The most bytes of a content type.
pub const CONTENT_TYPE_BYTES_LIMIT: usize = 256;
