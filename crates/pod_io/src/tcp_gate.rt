//! [`TcpGate`]: the connections of a listening socket.
ghost use Rattle.std.specs.Prelude.{◌≡◌, None};

use crate::gate::Gate;
use crate::source::Failed;
use crate::tcp_link::TcpLink;
use std::io::ErrorKind;
use std::net::TcpListener;
use std::thread;
use std::time::{Clock, Duration};

/// How often a connection is accepted until one is given.
const TRY_LIMIT: usize = 65536;

/// How many of these tries may be followed by a wait, so that a gate waits an hour in all for
/// what the host lacks, such as descriptors.
const WAIT_LIMIT: usize = 36000;

/// How long each of these waits is, in milliseconds.
const WAIT: u64 = 100;

/// The connections of a listening socket. It doesn't show them, and has no end. It counts a call
/// that found none after all its tries.
#[derive(Drop)]
pub struct TcpGate<R: Drop> {
    host: R,
    listener: TcpListener,
    faults: u64,
    given: u64,
}

impl<R: Drop> TcpGate<R> {
    /// The connections of that socket.
    pub fn new(host: R, listener: TcpListener) -> TcpGate<R>
        ensures faults { result.faults ≡ 0 }
        ensures given { result.given ≡ 0 }
    {
        TcpGate {
            host,
            listener,
            faults: 0,
            given: 0,
        }
    }
}

/// What a try to accept a connection gave.
enum Tried {
    /// A connection.
    Link(TcpLink),
    /// A peer that was gone before its connection was accepted.
    Gone,
    /// An error, such as that the process has too many open files.
    Busy,
}

/// Accepts a TCP connection at the gate's socket, once.
fn accept(listener: &TcpListener) -> Tried {
    match listener.accept() {
        Ok((stream, _address)) => match TcpLink::new(stream) {
            Ok(link) => Tried::Link(link),
            Err(_error) => Tried::Gone,
        },
        Err(error) if error.kind() == ErrorKind::ConnectionAborted => Tried::Gone,
        Err(error) if error.kind() == ErrorKind::Interrupted => Tried::Gone,
        Err(_error) => Tried::Busy,
    }
}

/// Accepts the next TCP connection at the gate's socket. Tries again where a peer is gone, and
/// after a moment where there is another error.
fn accept_next<R: Clock>(host: &R, listener: &TcpListener) -> Option<TcpLink> {
    let mut waits = 0;
    for _ in 0..TRY_LIMIT {
        match accept(listener) {
            Tried::Link(link) => return Some(link),
            Tried::Gone => {}
            Tried::Busy if waits < WAIT_LIMIT => {
                waits += 1;
                thread::sleep(host, Duration::from_millis(WAIT));
            }
            Tried::Busy => return None,
        }
    }
    None
}

impl<R: Clock + Drop> Gate for TcpGate<R> {
    type Conn = TcpLink;

    ghost rest = { λ _. None };

    ghost back = { λ _. None };

    ghost room = { λ _. 1 };

    ghost faults = { λ g. g.faults };

    ghost given = { λ g. g.given };

    ghost ends = { λ _. 0 };

    fn next(&mut self) -> Result<Option<TcpLink>, Failed> {
        match accept_next(&self.host, &self.listener) {
            Some(link) => {
                self.given = self.given.saturating_add(1);
                Ok(Some(link))
            }
            None => {
                self.faults = self.faults.saturating_add(1);
                Err(Failed)
            }
        }
    }

    fn done(&mut self, conn: TcpLink) {
        conn.close();
    }
}
