//! [`Response`]: the answer to a request.
use crate::field::Fields;
use crate::rope::Rope;

/// The body of a response.
#[derive(Debug, Drop)]
pub enum Body {
    /// No body.
    Absent,
    /// These bytes, whose pieces are shared with what they were cut from.
    Whole(Rope),
    /// No bytes, though their number is given: the response to a HEAD.
    LengthOnly(u64),
}

/// A response, without the fields that depend on its moment and its connection (`Date`,
/// `Connection`, `Content-Length`).
#[derive(Debug, Drop)]
pub struct Response {
    pub status: u16,
    pub fields: Fields,
    pub body: Body,
}
