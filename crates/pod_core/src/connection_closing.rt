//! How a connection ends: after its last request, or with the refusal of a malformed message.
ghost use Rattle.std.specs.Prelude.{◌≡◌, ◌≤◌, ◌<◌, IfOk};
ghost use Rattle.http_out.specs.Text.{AreFieldLines};
ghost use Rattle.pod_core.specs.Output as spec;

use http_conn::REQUEST_LIMIT;
use http_head::closes;
use pod_base::{Mem, Request, Response};
use pod_responses::refusal;
use std::alloc::Global;

/// Whether a connection closes after a request of that number, from 1.
pub fn closes_after(request: &Request, number: u64) -> bool
    ensures { result ≡ spec.closes_after request.now number }
{
    closes(request.minor, &request.fields) || number == REQUEST_LIMIT
}

/// The word of the refusal of a malformed message, after which a connection closes.
fn refusal_word(status: u16) -> &'static [u8]
    ensures { result.now ≡ spec.refusal_word status }
{
    match status {
        400 => b"message",
        413 => b"body-size",
        431 => b"head-size",
        _ => b"coding",
    }
}

/// The refusal of a malformed message, after which a connection closes.
pub fn refusal_of(alloc: Global, status: u16) -> Mem<Response>
    ensures response { IfOk result (λ response. response ≡ spec.refusal_of status) }
    ensures lines { IfOk result (λ response. AreFieldLines response.fields) }
{
    refusal(alloc, status, refusal_word(status))
}
