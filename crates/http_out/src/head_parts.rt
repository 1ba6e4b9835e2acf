//! What a response's head has beside the response itself: the status as a code, the date, and the
//! closing.

ghost use Rattle.std.specs.Prelude.{◌≡◌, ◌≤◌, ◌<◌};
ghost use Rattle.http_out.specs.Dates.{IsDateOf};
ghost use Rattle.http_out.specs.Text.{phrase_of};

use http::StatusCode;
use httpdate::HttpDate;
use pod_base::{Moment, moment_of};

/// A status as a code, a date, and whether the connection closes after the response.
#[derive(Clone, Copy, Debug)]
pub(crate) struct HeadParts {
    pub(crate) code: StatusCode,
    pub(crate) date: [u8; 29],
    pub(crate) close: bool,
}

/// The date among the parts of a response's head, as HTTP writes it (RFC 9110, section 5.6.7).
fn head_date(moment: Moment) -> [u8; 29]
    ensures { IsDateOf moment.0 result }
{
    let date = HttpDate::from_unix_secs(moment_of(moment.0).0).unwrap();
    date.to_bytes()
}

/// The reason phrase among the parts of a response's head: the standard one of its status, where it
/// has one.
#[tactic(auto, unfolding(crate::specs::Text::phrase_of))]
pub(crate) fn phrase_of(code: &StatusCode) -> &'static str
    ensures { result.now ≡ phrase_of code.now }
{
    code.canonical_reason().unwrap_or("")
}

impl HeadParts {
    /// The parts of the head of a response of that status and moment.
    pub(crate) fn new(status: u16, moment: Moment, close: bool) -> HeadParts
        requires { (100 ≤ status) × (status < 600) }
        ensures code { result.code ≡ status }
        ensures date { IsDateOf moment.0 result.date }
        ensures close { result.close ≡ close }
    {
        HeadParts {
            code: StatusCode::from_u16(status).unwrap(),
            date: head_date(moment),
            close,
        }
    }
}
