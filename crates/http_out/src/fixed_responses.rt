//! Responses whose text is fixed: they need no memory and no date.

ghost use Rattle.std.specs.Prelude.{◌≡◌};
ghost use Rattle.http_out.specs.Text as text;

/// The fixed interim response to a request that waits for `100 Continue` before it sends its body.
pub fn interim() -> &'static [u8]
    ensures { result.now ≡ text.interim_text }
{
    b"HTTP/1.1 100 Continue\r\n\r\n"
}

/// The fixed response to a request for which no memory was left.
pub fn memory_text() -> &'static [u8]
    ensures { result.now ≡ text.memory_text }
{
    b"HTTP/1.1 503 Service Unavailable\r\nContent-Length: 0\r\n\r\n"
}

/// The fixed response to a change whose commit met a disk fault.
pub fn disk_text() -> &'static [u8]
    ensures { result.now ≡ text.disk_text }
{
    b"HTTP/1.1 500 Internal Server Error\r\nContent-Length: 0\r\n\r\n"
}
