//! A connection over TCP, on the loopback address alone.

use crate::gates::sent;
use crate::links::link_write;
use crate::outcomes::link_read;
use anyhow::bail;
use pod_io::{Gate, Link, Listen, TcpLink, TcpListen};
use std::io;
use std::io::{Read, Write};
use std::net::{Ipv4Addr, Shutdown, SocketAddrV4, TcpListener, TcpStream};
use std::time::Duration;

/// A port of this host that nobody listens on.
fn free_port(rt: &HostRuntime) -> io::Result<u16> {
    let listener = TcpListener::bind(rt, SocketAddrV4::new(Ipv4Addr::LOCALHOST, 0))?;
    Ok(listener.local_addr()?.port())
}

/// A client of that port, whose reads wait for ten seconds.
fn connect(rt: &HostRuntime, port: u16) -> io::Result<TcpStream> {
    let stream = TcpStream::connect(rt, SocketAddrV4::new(Ipv4Addr::LOCALHOST, port))?;
    stream.set_read_timeout(Some(Duration::from_secs(10)))?;
    Ok(stream)
}

/// Shows what the client reads.
fn show_client_read(rt: &HostRuntime, client: &mut TcpStream) -> anyhow::Result<()> {
    let mut into = [0u8; 8];
    let count = client.read(&mut into)?;
    println!(rt; "client: read: {count}: {}", into.escape_ascii())?;
    Ok(())
}

/// Shows what the server's side of a connection reads and writes.
fn show_link(rt: &HostRuntime, link: &mut TcpLink) -> anyhow::Result<()> {
    let alloc = rt.alloc();
    println!(rt; "link over TCP: read: {}", link_read(alloc, link)?)?;
    println!(rt; "link over TCP: read: {}", link_read(alloc, link)?)?;
    println!(rt; "link over TCP: write hi: {}", link_write(alloc, link)?)?;
    Ok(())
}

/// Shows a connection that a gate gives, and that ends when it is given back.
fn show_served<G: Gate<Conn = TcpLink>>(
    rt: &HostRuntime,
    gate: &mut G,
    client: &mut TcpStream,
) -> anyhow::Result<()> {
    println!(rt; "client: write hello: {}", client.write(b"hello")?)?;
    let Ok(Some(mut link)) = gate.next() else {
        bail!("the gate gave no connection");
    };
    println!(rt; "gate over TCP: next: a connection")?;
    show_link(rt, &mut link)?;
    show_client_read(rt, client)?;
    client.shutdown(Shutdown::Write)?;
    gate.done(link);
    println!(rt; "gate over TCP: the connection is given back")?;
    show_client_read(rt, client)
}

/// Shows a connection of a client with a listener of two gates.
pub(crate) fn show_connection(rt: &HostRuntime) -> anyhow::Result<()> {
    let port = free_port(rt)?;
    let mut listen = TcpListen::new(rt.clone()?);
    let Ok(mut gates) = listen.open(rt.alloc(), port, 2) else {
        bail!("the listener opened no gates");
    };
    println!(rt; "listener over TCP: open: {} gates", gates.len())?;
    let Some(mut gate) = gates.pop() else {
        bail!("there is no gate");
    };
    sent(&gate);
    let mut client = connect(rt, port)?;
    show_served(rt, &mut gate, &mut client)?;
    listen.close(gate);
    Ok(())
}
