//! The events of a `world` case: what each of its fields is.
//!
//! | Field | What it is |
//! |---|---|
//! | `arrive` CONN TEXT | the text arrives |
//! | `get` CONN PATH | a GET by the owner arrives |
//! | `put` CONN PATH TEXT | a PUT of that text by the owner arrives |
//! | `look` CONN PLACE, `take` CONN | at the moment, or at the one that follows |
//! | `repair`, `body` or `gate`, and `ok` or `fail` | a step of the holder of the lock |
//! | `publish` | |
//! | `note` | remembers what `body ok` and `gate ok` would add to the journal: a gate 1 and a record |
//! | `stop` | with the journal and a gate 0 |
//! | `stop` GATE | with the journal, that gate, and the record that is remembered with a gate 0 |
//! | `stop` GATE `cut` | the same without its last byte |
//!
//! The owner's token is `t1`; `t2` is Bob's.

use case_words::{bytes, first_word, number_of};
use pod_base::{Bytes, Mem, Moment};
use request_history::Event;
use std::alloc::Global;

/// The moment of events that name none.
pub(crate) const MOMENT: u64 = 784_111_777;

/// The bytes that arrive.
fn arrive(alloc: Global, conn: usize, piece: &[u8]) -> Mem<Event> {
    let piece = Bytes::of(alloc, piece)?;
    Ok(Event::Arrive { conn, piece })
}

/// A GET by the owner arrives.
fn get(alloc: Global, conn: usize, path: &str) -> Mem<Event> {
    let text = format!(in alloc;
        "GET {path} HTTP/1.1\r\nHost: h\r\nAuthorization: Bearer t1\r\n\r\n"
    )?;
    arrive(alloc, conn, text.as_str().as_bytes())
}

/// A PUT by the owner arrives.
fn put(alloc: Global, conn: usize, path: &str, body: &str) -> Mem<Event> {
    let len = body.len();
    let text = format!(in alloc;
        "PUT {path} HTTP/1.1\r\nHost: h\r\nAuthorization: Bearer t1\r\nContent-Type: text/plain\r\nContent-Length: {len}\r\n\r\n{body}"
    )?;
    arrive(alloc, conn, text.as_str().as_bytes())
}

/// The moment of a word, where there is one.
fn moment(word: &str) -> Moment {
    if word.is_empty() {
        Moment(MOMENT)
    } else {
        Moment(number_of(word))
    }
}

/// An event of a connection.
fn event_at(alloc: Global, word: &str, conn: usize, rest: &str) -> Mem<Option<Event>> {
    let (first, more) = first_word(rest);
    match word {
        "arrive" => {
            let piece = bytes(alloc, rest)?;
            Ok(Some(arrive(alloc, conn, piece.as_slice())?))
        }
        "get" => Ok(Some(get(alloc, conn, first)?)),
        "put" => Ok(Some(put(alloc, conn, first, more)?)),
        "look" => Ok(Some(Event::Look {
            conn,
            place: number_of(first),
            moment: moment(more),
        })),
        "take" => Ok(Some(Event::Take {
            conn,
            moment: moment(first),
        })),
        _ => Ok(None),
    }
}

/// The event of a field; none where it is a step of the program.
pub(crate) fn event(alloc: Global, field: &str) -> Mem<Option<Event>> {
    let (word, rest) = first_word(field);
    let ok = rest == "ok";
    match word {
        "repair" => Ok(Some(Event::Repair { ok })),
        "body" => Ok(Some(Event::Body { ok })),
        "gate" => Ok(Some(Event::Gate { ok })),
        "publish" => Ok(Some(Event::Publish)),
        _ => {
            let (conn, more) = first_word(rest);
            event_at(alloc, word, number_of(conn) as usize, more)
        }
    }
}
