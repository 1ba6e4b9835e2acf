//! [`Heard`]: an event on a connection.
use crate::request::Request;

/// An event that the bytes of a connection parse to.
#[derive(Debug, Drop)]
pub enum Heard {
    /// A complete request.
    Request(Request),
    /// The end of a head whose client waits for `100 Continue` before it sends the body (RFC 9110
    /// section 10.1.1).
    Interim,
    /// A malformed message, with the status of the response that refuses it. No event follows it.
    Bad(u16),
}
