//! [`Out`], the bytes of a response in pieces, and [`bytes_of`], all of them at once.

ghost use Rattle.std.specs.Prelude.{◌≡◌, ◌<◌, ◌≤◌, ◌++◌, List, ℕ, min, take, drop, length, IfOk};
ghost use Rattle.http_out.specs.Dates.{IsDateOf};
ghost use Rattle.http_out.specs.Text.{response_text, AreFieldLines};

use crate::cursor::{Cursor, fill};
use crate::head_parts::HeadParts;
use crate::segment::Segment;
use pod_base::{Bytes, BytesBuilder, Mem, Moment, Response};
use std::alloc::Global;
use std::marker::Model;

/// The bytes of a response, given in pieces. It takes no memory, and copies no body as a whole.
///
/// Contracts see the bytes that are left.
#[derive(Debug, Drop)]
pub struct Out {
    response: Response,
    head: HeadParts,
    cursor: Cursor,
}

impl Model for Out {
    ghost use Rattle.std.specs.Prelude.{◌≡◌, List, ℕ};
    ghost use Rattle.http_out.specs.Segments.{left_of};

    ghost Value = { List ℕ };

    ghost view = { λ o. left_of o.response o.head o.cursor };

    ghost invariant = { λ o. o.head.code ≡ o.response.status };
}

/// The beginning of a text.
const START: Cursor = Cursor {
    segment: Segment::Version,
    offset: 0,
};

impl Out {
    /// The bytes of a response of that moment, on a connection that closes after it or stays open
    /// (RFC 9112, sections 2 to 6). The fields must not break their lines.
    pub fn new(response: Response, moment: Moment, close: bool) -> Out
        requires status { (100 ≤ response.status) × (response.status < 600) }
        requires fields { AreFieldLines response.fields }
        ensures { (date : List ℕ) × IsDateOf moment.0 date
            × (result ≡ response_text response date close) }
    {
        Out {
            head: HeadParts::new(response.status, moment, close),
            response,
            cursor: START,
        }
    }

    /// Copies the next bytes to the beginning of a slice, as many as there is room for, and returns
    /// how many. The other bytes of the slice stay. Where no byte is left it returns 0, and only
    /// there, since the slice has room.
    pub fn next(&mut self, into: &mut [u8]) -> usize
        requires { 0 < length into.old }
        ensures count { result ≡ min (length self.old) (length into.old) }
        ensures given { into.new ≡ take result self.old ++ drop result into.old }
        ensures left { self.new ≡ drop result self.old }
    {
        fill(&self.response, &self.head, &mut self.cursor, into)
    }
}

/// How many bytes [`bytes_of`] copies at once.
const PIECE_LENGTH: usize = 1_024;

/// The bytes that an [`Out`] of the response gives, all at once.
pub fn bytes_of(alloc: Global, response: &Response, moment: Moment, close: bool) -> Mem<Bytes>
    requires status { (100 ≤ response.now.status) × (response.now.status < 600) }
    requires fields { AreFieldLines response.now.fields }
    ensures { IfOk result (λ bytes. (date : List ℕ) × IsDateOf moment.0 date
        × (bytes ≡ response_text response.now date close)) }
{
    let head = HeadParts::new(response.status, moment, close);
    let mut cursor = START;
    let mut piece = [0; PIECE_LENGTH];
    let mut text = BytesBuilder::new(alloc);
    let mut count = fill(response, &head, &mut cursor, &mut piece);
    while count > 0 {
        text.append(alloc, &piece[..count])?;
        count = fill(response, &head, &mut cursor, &mut piece);
    }
    text.freeze(alloc)
}
