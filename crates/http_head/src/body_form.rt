//! The form of a body.

/// How the body after a head is framed (RFC 9112, section 6.3).
#[derive(Clone, Copy, Debug, PartialEq, Eq)]
pub enum BodyForm {
    /// There is no body.
    Empty,
    /// A body of that many bytes.
    Length(u64),
    /// A body in chunks (RFC 9112, section 7.1).
    Chunked,
}
