//! [`CaseWire`]: a wire during whose calls a pod is changed.

use crate::script::Script;
use pod_base::Text;
use pod_io::{Polled, Wire, WireFault};
use pod_live::{CommittedEntry, Rounds, StoreName};
use published_view::ViewName;
use std::sync::Wait;

/// A wire, and what is done during its calls.
#[derive(Drop)]
pub(crate) struct CaseWire<'a, N: ViewName<CommittedEntry> + StoreName, L, R, W> {
    pub(crate) script: Script<'a, N, L, R>,
    pub(crate) wire: W,
}

impl<'a, N: ViewName<CommittedEntry> + StoreName, L: Rounds<N>, R: Wait, W: Wire> Wire
    for CaseWire<'a, N, L, R, W> {
    ghost sent = { λ w. W.sent w.wire };

    ghost polls = { λ w. W.polls w.wire };

    ghost faults = { λ w. W.faults w.wire };

    ghost closed = { λ w. W.closed w.wire };

    ghost follows = { λ _ _. Unit {0} };

    ghost still = { λ _. tt };

    ghost joins = { λ _ _ _ _ _. tt };

    fn send_text(&mut self, text: &Text) -> Result<(), WireFault> {
        self.script.run_call("send");
        self.wire.send_text(text)
    }

    fn poll(&mut self) -> Result<Polled, WireFault> {
        self.script.run_call("poll");
        self.wire.poll()
    }
}
