//! [`LinkOutput`]: a link with a buffer for what is sent.
ghost use Rattle.std.specs.Prelude.{◌≡◌, ◌≤◌, ◌<◌, ◌++◌, [], drop, length, true, false, IfOk, OnOk};
ghost use Rattle.pod_io.specs.Counts.{CountsFaults};
ghost use Rattle.pod_io.specs.Links.{CountsLinkRead};
ghost use Rattle.pod_io.specs.Visible.{Consumes, IfVisible, IsRead};
ghost use Rattle.pod_serve.specs.Serving.{CountsSent, FollowsLink, IsWrittenTo, taken_with};

use conn_talk::Output;
use pod_io::{Failed, Link, LinkFailed};

/// How many bytes may wait to be sent.
const BUFFER: usize = 16_384;

/// How far a text was sent, and whether all of it was.
struct Sent {
    at: usize,
    whole: bool,
}

/// Sends a text to a link from a position on.
fn send_from<L: Link>(link: &mut L, text: &[u8], from: usize) -> Sent
    ensures whole { result.whole ≡ true → drop result.at text.now ≡ [] }
    ensures taken { taken_with (drop result.at text.now) (L.sent link.new)
        ≡ taken_with (drop from text.now) (L.sent link.old) }
    ensures written { IsWrittenTo (L.rest link.old) (L.rest link.new) (L.sent link.old)
        (L.sent link.new) (L.counts link.old) (L.counts link.new) }
    ensures failed { CountsSent result.whole (L.counts link.old).write_faults
        (L.counts link.new).write_faults }
{
    let mut at = from;
    while at < text.len() {
        match link.write(&text[at..]) {
            Ok(count) => at += count,
            Err(_failed) => return Sent { at, whole: false },
        }
    }
    Sent { at, whole: true }
}

/// Appends a text to those that wait in a link's buffer, where none of them was sent and there is
/// room for it. It takes no memory.
fn hold(held: &mut Vec<u8>, from: usize, text: &[u8]) -> bool
    ensures whole { result ≡ true → from ≡ 0 }
    ensures held { result ≡ true → held.new.items ≡ held.old.items ++ text.now }
    ensures same { result ≡ false → held.new.items ≡ held.old.items }
{
    if from > 0 || text.len() > held.capacity() - held.len() {
        return false;
    }
    held.extend_from_slice(text).is_ok()
}

/// A link, by reference, whose responses are sent together: they wait in a buffer until it is full
/// or flushed. The bytes of `held` from `from` on wait. Where no memory was left for the buffer
/// each text is sent at once.
#[derive(Drop)]
pub(crate) struct LinkOutput<'a, L> {
    pub link: &'a mut L,
    held: &'a mut Vec<u8>,
    from: usize,
}

impl<'a, L: Link> LinkOutput<'a, L> {
    /// The output to that link, with that buffer, which it empties. Nothing waits.
    pub(crate) fn new(link: &'a mut L, held: &'a mut Vec<u8>) -> LinkOutput<'a, L>
        ensures same { result.link.ghost_name ≡ link.entry.ghost_name }
        ensures link { result.link.now ≡ link.entry.now }
        ensures empty { drop result.from result.held.now.items ≡ [] }
    {
        held.clear();
        let _reserved = held.reserve(BUFFER);
        LinkOutput {
            link,
            held,
            from: 0,
        }
    }

    /// Reads from the link of this output. What waits stays.
    pub(crate) fn receive(&mut self, into: &mut [u8]) -> Result<usize, LinkFailed>
        requires { 0 < length into.old }
        ensures same { self.old.link.ghost_name ≡ self.new.link.ghost_name }
        ensures from { self.new.from ≡ self.old.from }
        ensures held { self.new.held.now ≡ self.old.held.now }
        ensures len { IfOk result (λ count. count ≤ length into.old) }
        ensures bytes { IfOk result (λ count. IfVisible (L.rest self.old.link.now)
            (λ rest. IsRead rest count into.old into.new)) }
        ensures rest { Consumes result (L.rest self.old.link.now) (L.rest self.new.link.now) }
        ensures sent { L.sent self.new.link.now ≡ L.sent self.old.link.now }
        ensures counts { CountsLinkRead result (L.counts self.old.link.now)
            (L.counts self.new.link.now) }
    {
        self.link.read(into)
    }
}

impl<'a, L: Link> Output for LinkOutput<'a, L> {
    ghost use Rattle.std.specs.Prelude.{◌≡◌, drop};
    ghost use Rattle.pod_serve.specs.Serving.{FollowsLink, taken_with};
    ghost use Rattle.pod_serve.specs.ServingLaws.{follows_still, follows_joins};

    ghost taken = { λ o. taken_with (drop o.from o.held.now.items) (L.sent o.link.now) };

    ghost faults = { λ o. (L.counts o.link.now).write_faults };

    ghost follows = { λ a b. FollowsLink L.rest L.sent L.counts a b };

    fn write(&mut self, piece: &[u8]) -> Result<usize, Failed> {
        if hold(self.held, self.from, piece) {
            return Ok(piece.len());
        }
        self.flush()?;
        if hold(self.held, self.from, piece) {
            return Ok(piece.len());
        }
        match self.link.write(piece) {
            Ok(count) => Ok(count),
            Err(_failed) => Err(Failed),
        }
    }

    fn flush(&mut self) -> Result<(), Failed>
        ensures taken { taken_with (drop self.new.from self.new.held.now.items)
            (L.sent self.new.link.now)
            ≡ taken_with (drop self.old.from self.old.held.now.items) (L.sent self.old.link.now) }
        ensures faults { CountsFaults result (L.counts self.old.link.now).write_faults
            (L.counts self.new.link.now).write_faults }
        ensures follows { FollowsLink L.rest L.sent L.counts self.old self.new }
        ensures empty { OnOk result (drop self.new.from self.new.held.now.items ≡ []) }
    {
        let Sent { at, whole } = send_from(self.link, self.held.as_slice(), self.from);
        self.from = at;
        if !whole {
            return Err(Failed);
        }
        self.held.clear();
        self.from = 0;
        Ok(())
    }

    ghost still = { λ o. follows_still L.rest L.sent L.counts o };

    ghost joins = { λ a b c. follows_joins L.rest L.sent L.counts a b c };
}
