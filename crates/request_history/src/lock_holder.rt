//! [`Holder`]: the change that holds the lock.
ghost use Rattle.std.specs.Prelude.{◌≡◌, suc};
ghost use Rattle.http_out.specs.Text.{response_text};
ghost use Rattle.http_out.specs.Calendar.{date_text};
ghost use Rattle.pod_core.specs.Output as output;
ghost use Rattle.pod_core.specs.Session.{upgrades};
ghost use Rattle.request_history.specs.Answers.{holder_of};

use crate::answer_bytes::{Requester, switches};
use crate::recorded_entry::Recorded;
use pod_base::{Bytes, Moment, Request, Response};
use std::marker::Model;

/// The change that holds the lock: its connection, counted from 0, its request with number, agent
/// and moment, the place and the response of its reply with the entry, and the bytes of the
/// response.
#[derive(Drop)]
pub(crate) struct Holder {
    pub(crate) conn: usize,
    pub(crate) request: Request,
    pub(crate) number: u64,
    pub(crate) requester: Requester,
    pub(crate) moment: Moment,
    pub(crate) place: u64,
    pub(crate) response: Response,
    pub(crate) entry: Recorded,
    pub(crate) text: Bytes,
}

impl Model for Holder {
    ghost use Rattle.std.specs.Prelude.{◌≡◌};
    ghost use Rattle.http_out.specs.Text.{response_text};
    ghost use Rattle.http_out.specs.Calendar.{date_text};
    ghost use Rattle.pod_core.specs.KeeperSteps.{Holder as KeeperHolder};
    ghost use Rattle.pod_core.specs.Output as output;
    ghost use Rattle.request_history.specs.Answers.{holder_of};

    ghost Value = { KeeperHolder };

    ghost view = { λ h. holder_of h.conn h.request h.number h.requester h.moment h.place h.response
        h.entry };

    ghost invariant = { λ h. h.text ≡ response_text h.response (date_text h.moment.0)
        (output.closes_after h.request h.number) };
}

impl Holder {
    /// The connection of the change that holds the lock, counted from 0.
    pub(crate) fn conn(&self) -> usize
        ensures { suc result ≡ self.now.conn }
    {
        self.conn
    }

    /// The bytes of the response of the change that holds the lock.
    pub(crate) fn text(&self) -> &[u8]
        ensures { result.now ≡ output.item_text self.now.item }
    {
        self.text.as_slice()
    }

    /// Whether the response of the change that holds the lock switches protocols.
    pub(crate) fn switches(&self) -> bool
        ensures { result ≡ upgrades self.now.item.outcome }
    {
        switches(&self.response)
    }

    /// The entry of the change that holds the lock, with the record.
    pub(crate) fn entry(&self) -> &Recorded
        ensures { result.now ≡ self.now.entry }
    {
        &self.entry
    }

    /// The entry of the change that holds the lock, and nothing else of it.
    pub(crate) fn into_entry(self) -> Recorded
        ensures { result ≡ self.entry }
    {
        self.entry
    }
}
