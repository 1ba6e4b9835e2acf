//! [`Request`]: a complete request.
ghost use Rattle.std.specs.Prelude.{◌≡◌, IfOk};

use crate::field::Fields;
use crate::memory::Mem;
use crate::method::Method;
use crate::shared_bytes::Bytes;
use std::alloc::Global;

/// A request with its complete body. Field names are in lower case.
#[derive(Debug, Drop)]
pub struct Request {
    pub method: Method,
    /// The target, as in the request line.
    pub target: Bytes,
    /// The minor version of HTTP/1.
    pub minor: u8,
    pub fields: Fields,
    pub body: Bytes,
}

impl Request {
    /// An equal request, which shares target, names, values and body. It takes memory for the list
    /// of fields alone.
    pub fn copy(&self, alloc: Global) -> Mem<Request>
        ensures { IfOk result (λ copy. copy ≡ self.now) }
    {
        let target = self.target.copy(alloc)?;
        let fields = self.fields.copy(alloc)?;
        let body = self.body.copy(alloc)?;
        Ok(Request {
            method: self.method,
            target,
            minor: self.minor,
            fields,
            body,
        })
    }
}
