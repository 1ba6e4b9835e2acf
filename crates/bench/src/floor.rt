//! The limit of what a server over the adapters of `pod_io` can reach: every request, whatever it asks for, gets one fixed
//! response of 300 bytes. `bench/run serve` measures `podd` beside it.

ghost use Rattle.std.specs.Prelude.{◌<◌, ◌≤◌, IfSome, length};
ghost use Rattle.pod_io.specs.declared.listen.TheConstants.{GATE_LIMIT};

use anyhow::bail;
use pod_io::{GATE_LIMIT, Gate, Link, LinkFailed, Listen, TcpListen};
use std::env;
use std::thread::{self, Threads};

/// The response to every request.
const ANSWER: &[u8] = b"HTTP/1.1 200 OK\r\nContent-Type: text/plain\r\nContent-Length: 300\r\n\r\n\
....................................................................................................\
....................................................................................................\
....................................................................................................";

/// The most reads of one connection.
const READ_LIMIT: u64 = 1 << 40;

/// The most connections of a gate.
const CONNECTION_LIMIT: u64 = 1 << 40;

/// How many requests end in these bytes: how often an empty line ends a head.
fn count_heads(bytes: &[u8]) -> usize {
    bytes
        .windows(4)
        .filter(|four| *four == b"\r\n\r\n".as_slice())
        .count()
}

/// Writes the whole answer, or says that the connection takes no more.
fn write_answer<L: Link>(link: &mut L) -> bool {
    let mut at = 0;
    for _ in 0..ANSWER.len() {
        if at >= ANSWER.len() {
            return true;
        }
        match link.write(&ANSWER[at..]) {
            Ok(count) => at += count,
            Err(_) => return false,
        }
    }
    at >= ANSWER.len()
}

/// Answers each request of a connection, until it ends.
fn serve_link<L: Link>(link: &mut L) {
    let mut piece = [0; 4096];
    for _ in 0..READ_LIMIT {
        let count = match link.read(&mut piece) {
            Ok(0) | Err(LinkFailed::Failed) => return,
            Ok(count) => count,
            Err(LinkFailed::Quiet) => continue,
        };
        for _ in 0..count_heads(&piece[..count]) {
            if !write_answer(link) {
                return;
            }
        }
    }
}

/// Serves the connections of a gate, one after the other.
fn serve_gate<G: Gate>(gate: &mut G) {
    for _ in 0..CONNECTION_LIMIT {
        let Ok(Some(mut link)) = gate.next() else {
            return;
        };
        serve_link(&mut link);
        gate.done(link);
    }
}

/// The port and the workers that the arguments after the word ask for: at least one worker, and at most as many as a listener has gates.
fn settings(rt: &HostRuntime) -> Option<(u16, usize)>
    ensures { IfSome result (λ settings. (0 < settings.1) × (settings.1 ≤ GATE_LIMIT)) }
{
    let mut words = env::args(rt).ok()?.skip(2);
    let port = words.next()?.parse::<u16>().ok()?;
    let workers = words.next()?.parse::<usize>().ok()?;
    if workers == 0 || workers > GATE_LIMIT {
        return None;
    }
    Some((port, workers))
}

/// Serves each gate in a thread of its own.
fn serve<R: Threads + Sync, G: Gate + Send>(rt: &R, gates: &mut [G])
    requires { 0 < length gates.old }
{
    let workers = gates.len();
    let one = |_at: usize, gate: &mut G| serve_gate(gate);
    thread::for_each_mut(rt, gates, workers, &one);
}

/// Serves the port of the arguments by these threads, until all gates are closed.
pub fn serve_floor<R: Threads + Sync>(rt: &HostRuntime, threads: &R) -> anyhow::Result<()> {
    let Some((port, workers)) = settings(rt) else {
        bail!("the arguments are a port and a number of workers");
    };
    let Ok(host) = rt.clone() else {
        bail!("out of memory");
    };
    let mut listen = TcpListen::new(host);
    let Ok(mut gates) = listen.open(rt.alloc(), port, workers) else {
        bail!("the port can't be opened");
    };
    serve(threads, gates.as_mut_slice());
    Ok(())
}
