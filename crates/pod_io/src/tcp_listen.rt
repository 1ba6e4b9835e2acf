//! [`TcpListen`]: listening sockets of this host.
ghost use Rattle.std.specs.Prelude.{◌≡◌, ◌≤◌, ◌+◌, [], None, length, OnOk, IfOk};
ghost use Rattle.pod_io.specs.declared.listen.TheConstants.{GATE_LIMIT};

use crate::listen::{GATE_LIMIT, Listen, ListenFault};
use crate::tcp_gate::TcpGate;
use pod_base::List;
use std::alloc::Global;
use std::net::{IpAddr, Ipv4Addr, Net, SocketAddr, TcpListener, TcpStream};
use std::time::Clock;

/// The listening sockets of this host, on its address 127.0.0.1 alone. It doesn't show what it
/// opens, and counts its errors.
#[derive(Drop)]
pub struct TcpListen<R: Drop> {
    host: R,
    faults: u64,
}

impl<R: Drop> TcpListen<R> {
    /// A listener of that host.
    pub fn new(host: R) -> TcpListen<R>
        ensures faults { result.faults ≡ 0 }
    {
        TcpListen { host, faults: 0 }
    }
}

/// Opens a TCP socket that listens on a port, and gates for its connections, which share it.
fn open_gates<R>(
    host: &R,
    alloc: Global,
    port: u16,
    count: usize,
) -> Result<List<TcpGate<R>>, ListenFault>
where
    R: Net<Listener = TcpListener, Stream = TcpStream> + Clone + Drop,
    ensures { IfOk result (λ gates. length gates.items ≡ count) }
{
    let Ok(listener) = host.bind(SocketAddr::new(IpAddr::V4(Ipv4Addr::LOCALHOST), port)) else {
        return Err(ListenFault::Failed);
    };
    let mut gates = List::new(alloc);
    for _ in 0..count {
        let gate = another_gate(host, &listener)?;
        if gates.push(alloc, gate).is_err() {
            return Err(ListenFault::NoMemory);
        }
    }
    Ok(gates)
}

/// Another gate for the connections at a listening TCP socket.
fn another_gate<R: Clone + Drop>(
    host: &R,
    listener: &TcpListener,
) -> Result<TcpGate<R>, ListenFault> {
    let Ok(host) = host.clone() else {
        return Err(ListenFault::NoMemory);
    };
    let Ok(listener) = listener.try_clone() else {
        return Err(ListenFault::Failed);
    };
    Ok(TcpGate::new(host, listener))
}

impl<R> Listen for TcpListen<R>
where
    R: Net<Listener = TcpListener, Stream = TcpStream> + Clock + Clone + Drop,
{
    type Gate = TcpGate<R>;

    ghost may_open = { λ _ _. Unit {0} };

    ghost back = { λ _. None };

    ghost room = { λ _. GATE_LIMIT };

    ghost faults = { λ l. l.faults };

    fn open(
        &mut self,
        alloc: Global,
        port: u16,
        workers: usize,
    ) -> Result<List<TcpGate<R>>, ListenFault> {
        let opened = open_gates(&self.host, alloc, port, workers);
        if matches!(&opened, Err(ListenFault::Failed)) {
            self.faults = self.faults.saturating_add(1);
        }
        opened
    }

    fn close(&mut self, gate: TcpGate<R>) {
        drop(gate);
    }
}
