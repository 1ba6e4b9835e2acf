//! Cases of the bytes of messages.
//!
//! | Fields | Answer |
//! |---|---|
//! | `end` TEXT | where the head ends: in the whole text, and scanned byte by byte |
//! | `head`, `framing`, `closes` or `expects`, HEAD | that of the parsed head, or its fault |
//! | `body` FORM TEXT | what a body's bytes end with, in pieces of several sizes |
//! | `cuts` FORM TEXT | the same in three pieces, cut at each two positions |
//! | `feed` FORM PIECE.. | the answer to each piece |
//! | `conn` TEXT | the events of a connection, and the rest after them: whole, in pieces and cut |
//! | `rests` TEXT | the rest after each byte |
//! | `one` TEXT | the one request that the text is, or `none` |
//! | `response` SECONDS STATUS CLOSE BODY FIELD.. | the bytes of a response |
//! | `fixed` NAME | the bytes of a response with a fixed text |

use crate::{bodies, connections, field_cases, head_ends, heads, response_bytes};
use std::alloc::{AllocError, Global};

/// What the libraries answer to the fields of a case.
pub(crate) fn answer(alloc: Global, fields: &[&str]) -> Result<String, AllocError> {
    match fields {
        ["end", text] => head_ends::answer(alloc, text),
        [what @ ("head" | "framing" | "closes" | "expects"), head] => {
            heads::answer(alloc, what, head)
        }
        ["body", form, text] => bodies::in_pieces(alloc, form, text),
        ["cuts", form, text] => bodies::cut_everywhere(alloc, form, text),
        ["feed", form, pieces @ ..] => bodies::piece_by_piece(alloc, form, pieces),
        ["conn", text] => connections::events(alloc, text),
        ["rests", text] => connections::rests(alloc, text),
        ["one", text] => connections::one(alloc, text),
        ["response", seconds, status, close, body, lines @ ..] => {
            response_bytes::response(alloc, seconds, status, close, body, lines)
        }
        ["fixed", name] => response_bytes::fixed(alloc, name),
        _ => field_cases::answer(alloc, fields),
    }
}
