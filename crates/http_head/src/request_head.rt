//! A parsed head, and why there is none.

ghost use Rattle.std.specs.Prelude.{◌≡◌, IfOk};

use pod_base::{Bytes, Fields, Mem, Method};
use std::alloc::Global;
use thiserror::Error;

/// The head of a request (RFC 9112, sections 3 and 5).
///
/// The target and the values of fields are parts of one block, a copy of the head's bytes, and each
/// keeps that block alive. What outlives the request is copied out of it.
#[derive(Debug, Drop)]
pub struct RequestHead {
    pub method: Method,
    /// The target of the request line, as it was sent.
    pub target: Bytes,
    /// The minor version of HTTP/1.
    pub minor: u8,
    /// Names are in lower case, and values have no white space around them.
    pub fields: Fields,
}

/// Why a complete head is refused.
#[derive(Clone, Copy, Debug, PartialEq, Eq, Error)]
pub enum HeadFault {
    /// It is no head by the grammar, or has more than [`FIELD_LIMIT`](crate::FIELD_LIMIT) fields.
    #[error("malformed head")]
    Malformed,
    /// It has more than [`HEAD_LINE_LIMIT`](crate::HEAD_LINE_LIMIT) lines.
    #[error("too many lines in a head")]
    TooMany,
    /// It is of HTTP/1.1 and hasn't exactly one Host.
    #[error("no one host")]
    Host,
    /// Out of memory.
    #[error("out of memory")]
    NoMemory,
}

impl RequestHead {
    /// An equal head, which shares its block of memory.
    pub fn copy(&self, alloc: Global) -> Mem<RequestHead>
        ensures { IfOk result (λ copy. copy ≡ self.now) }
    {
        let target = self.target.copy(alloc)?;
        let fields = self.fields.copy(alloc)?;
        Ok(RequestHead {
            method: self.method,
            target,
            minor: self.minor,
            fields,
        })
    }
}
