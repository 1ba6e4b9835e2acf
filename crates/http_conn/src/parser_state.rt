//! What a connection keeps between two pieces: the unfinished message.

ghost use Rattle.std.specs.Prelude.{◌≡◌, ◌≢◌, true, false, [], IfOk};
ghost use Rattle.http_head.specs.HeadScan.{HasScanned};
ghost use Rattle.http_conn.specs.ParserStates.{rest_of};

use http_head::{HeadSearch, RequestHead, blank_length};
use http_payload::Payload;
use pod_base::{BytesBuilder, Mem};
use std::alloc::Global;

/// A head that has not ended.
#[derive(Debug, Drop)]
pub(crate) struct PartialHead {
    /// Its bytes so far, with the empty lines before it.
    pub(crate) bytes: BytesBuilder,
    /// The search for its end, which has seen these bytes.
    pub(crate) search: HeadSearch,
    /// How many requests precede it.
    pub(crate) count: u64,
}

impl PartialHead {
    /// The parser's state before any byte of a head, after `count` requests.
    pub(crate) fn new(alloc: Global, count: u64) -> PartialHead
        ensures bytes { result.bytes ≡ [] }
        ensures seen { HasScanned result.search [] }
        ensures count { result.count ≡ count }
    {
        PartialHead {
            bytes: BytesBuilder::new(alloc),
            search: HeadSearch::new(),
            count,
        }
    }

    /// An equal state of the parser in a partial head.
    fn copy(&self, alloc: Global) -> Mem<PartialHead>
        ensures { IfOk result (λ copy. copy ≡ self.now) }
    {
        let mut bytes = BytesBuilder::new(alloc);
        bytes.append(alloc, self.bytes.as_slice())?;
        Ok(PartialHead {
            bytes,
            search: self.search.copy(),
            count: self.count,
        })
    }
}

/// A request whose body has not ended.
#[derive(Debug, Drop)]
pub(crate) struct PartialBody {
    pub(crate) head: RequestHead,
    pub(crate) payload: Payload,
    /// How many bytes of the request have come, without the empty lines before it.
    pub(crate) len: usize,
    /// How many requests precede it.
    pub(crate) count: u64,
}

impl PartialBody {
    /// An equal state of the parser in a request with a partial body.
    fn copy(&self, alloc: Global) -> Mem<PartialBody>
        ensures { IfOk result (λ copy. copy ≡ self.now) }
    {
        let head = self.head.copy(alloc)?;
        let payload = self.payload.copy(alloc)?;
        Ok(PartialBody {
            head,
            payload,
            len: self.len,
            count: self.count,
        })
    }
}

/// Where in the messages of a connection the bytes so far end.
#[derive(Debug, Drop)]
pub(crate) enum ParserState {
    /// Between messages or in a head.
    Head(PartialHead),
    /// After a head whose body has not ended.
    Body(PartialBody),
    /// After the last message: no event follows.
    Closed,
    /// A call was out of memory.
    Failed,
}

impl ParserState {
    /// An equal state of the parser.
    pub(crate) fn copy(&self, alloc: Global) -> Mem<ParserState>
        ensures { IfOk result (λ copy. copy ≡ self.now) }
    {
        match self {
            ParserState::Head(partial) => {
                let copy = partial.copy(alloc)?;
                Ok(ParserState::Head(copy))
            }
            ParserState::Body(partial) => {
                let copy = partial.copy(alloc)?;
                Ok(ParserState::Body(copy))
            }
            ParserState::Closed => Ok(ParserState::Closed),
            ParserState::Failed => Ok(ParserState::Failed),
        }
    }
}

/// How many bytes of an unfinished message the parser's state keeps.
pub(crate) fn rest_of(state: &ParserState) -> usize
    ensures { result ≡ rest_of state.now }
{
    match state {
        ParserState::Head(partial) => partial.bytes.len() - blank_length(partial.bytes.as_slice()),
        ParserState::Body(partial) => partial.len,
        ParserState::Closed | ParserState::Failed => 0,
    }
}

/// Whether the parser's state is that after a call that was out of memory.
pub(crate) fn has_failed(state: &ParserState) -> bool
    ensures yes { result ≡ true → state.now ≡ ParserState.Failed }
    ensures no { result ≡ false → state.now ≢ ParserState.Failed }
{
    matches!(state, ParserState::Failed)
}
