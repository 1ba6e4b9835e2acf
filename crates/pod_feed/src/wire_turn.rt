//! What a turn of a feed does by its wire: it sends notices, and polls.
ghost use Rattle.std.specs.Prelude.{◌≡◌, IfErr, IfOk};
ghost use Rattle.pod_io.specs.Wires.{CountsErrors};
ghost use Rattle.pod_feed.specs.Feeds.{wire_view_of};
ghost use Rattle.pod_feed.specs.Turns.{EndsAtWire, IsPolled, IsTold, SendsTexts, polled_so};

use crate::feed_end::FeedEnd;
use crate::version_report::Report;
use pod_base::Text;
use pod_io::{Polled, Wire, WireFault};

/// Sends the texts of notices by the wire in order, or some of the first where a send fails.
fn send_texts<W: Wire>(wire: &mut W, texts: &[Text]) -> Result<(), WireFault>
    ensures sent { SendsTexts result texts.now (W.sent wire.old) (W.sent wire.new) }
    ensures polls { W.polls wire.new ≡ W.polls wire.old }
    ensures faults { CountsErrors result (W.faults wire.old) (W.faults wire.new) }
    ensures closed { W.closed wire.new ≡ W.closed wire.old }
    ensures follows { W.follows wire.old wire.new }
{
    for text in texts {
        match wire.send_text(text) {
            Ok(()) => {}
            Err(fault) => return Err(fault),
        }
    }
    Ok(())
}

/// What a poll of the feed's wire that found this leads to.
fn polled_so(polled: Polled, next: u64) -> Result<u64, FeedEnd>
    ensures { result ≡ polled_so polled next }
{
    match polled {
        Polled::Nothing => Ok(next),
        Polled::Closed => Err(FeedEnd::PeerClosed),
    }
}

/// Polls the feed's wire. Returns this number, or the end of the feed.
fn poll_after<W: Wire>(wire: &mut W, next: u64) -> Result<u64, FeedEnd>
    ensures polled { IsPolled next result
        (wire_view_of W.sent W.polls W.faults W.closed wire.old)
        (wire_view_of W.sent W.polls W.faults W.closed wire.new) }
    ensures follows { W.follows wire.old wire.new }
{
    match wire.poll() {
        Ok(polled) => polled_so(polled, next),
        Err(_failed) => Err(FeedEnd::WireFault),
    }
}

/// Sends the notices of a report by the wire, and polls it. Returns the number of the first entry
/// that is yet to be told, or the end of the feed.
pub(crate) fn send_and_poll<W: Wire>(wire: &mut W, report: &Report) -> Result<u64, FeedEnd>
    ensures turned { IfOk result (IsTold report.now
        (wire_view_of W.sent W.polls W.faults W.closed wire.old)
        (wire_view_of W.sent W.polls W.faults W.closed wire.new)) }
    ensures ended { IfErr result (EndsAtWire report.now.notices.items
        (wire_view_of W.sent W.polls W.faults W.closed wire.old)
        (wire_view_of W.sent W.polls W.faults W.closed wire.new)) }
    ensures follows { W.follows wire.old wire.new }
{
    match send_texts(wire, report.notices.as_slice()) {
        Ok(()) => poll_after(wire, report.next),
        Err(_failed) => Err(FeedEnd::WireFault),
    }
}
