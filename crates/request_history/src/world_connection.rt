//! [`Connection`]: what a connection has read and written.
ghost use Rattle.std.specs.Prelude.{◌≡◌, ◌+◌, ◌^◌, ◌<◌, ◌≤◌, ◌++◌, ◌∷◌, [], None, length};
ghost use Rattle.std.specs.Prelude.{slice_get};
ghost use Rattle.std.specs.Prelude.{if◌then◌else◌, IfOk, OnOk};
ghost use Rattle.std.specs.Option.{option_copied};
ghost use Rattle.pod_base.specs.declared.heard.Heard.{Heard as Event};
ghost use Rattle.pod_core.specs.Session.{requests_of};
ghost use Rattle.pod_core.specs.World as world;
ghost use Rattle.request_history.specs.Connections.{HasNext, IsParsed, Rests, SettlesTo, advanced};
ghost use Rattle.request_history.specs.Connections.{connection_of, fresh};

use crate::connection_input::Input;
use http_out::interim;
use pod_base::{Bytes, BytesBuilder, Heard, Mem};
use std::alloc::Global;
use std::marker::Model;

/// A connection. How many of the events of its input are done is kept, and what is next is no
/// `100 Continue`: these are written at once.
#[derive(Drop)]
pub(crate) struct Connection {
    input: Input,
    done: usize,
    output: Bytes,
    switched: bool,
    seen: u64,
}

impl Model for Connection {
    ghost use Rattle.pod_core.specs.World.{Connection as WorldConnection};
    ghost use Rattle.request_history.specs.Connections.{IsConnection, connection_of};

    ghost Value = { WorldConnection };

    ghost view = { λ c. connection_of c.input c.done c.output c.switched c.seen };

    ghost invariant = { λ c. IsConnection c.input c.done c.switched };
}

/// The count of requests on a world's connection, and one more where the event is a request.
fn counted(count: usize, event: &Heard) -> usize
    requires { count + 1 < 2 ^ 64 }
    ensures { result ≡ count + length (requests_of (event.now ∷ [])) }
{
    match event {
        Heard::Request(_) => count + 1,
        Heard::Interim => count,
        Heard::Bad(_) => count,
    }
}

/// How many of the events on a world's connection are requests.
fn count_requests(events: &[Heard]) -> usize
    ensures is { result ≡ length (requests_of events.now) }
    ensures most { result ≤ length events.now }
{
    let _len = events.len();
    let mut count = 0;
    for event in events {
        count = counted(count, event);
    }
    count
}

/// Writes the interims with which the events of a world's connection begin. Returns how many they
/// are.
fn write_interims(alloc: Global, output: &mut BytesBuilder, events: &[Heard]) -> Mem<usize>
    ensures text { OnOk result (output.new ≡ output.old ++ world.interims_text events.now) }
    ensures count { IfOk result (λ count. count ≡ length (world.first_interims events.now)) }
    ensures within { IfOk result (λ count. count ≤ length events.now) }
{
    let mut count = 0;
    for event in events {
        match event {
            Heard::Interim => {
                output.append(alloc, interim())?;
                count += 1;
            }
            Heard::Request(_) => return Ok(count),
            Heard::Bad(_) => return Ok(count),
        }
    }
    Ok(count)
}

/// Writes the interims that are next on a world's connection, unless protocols were switched.
/// Returns how many they are.
fn write_next(
    alloc: Global,
    output: &mut BytesBuilder,
    switched: bool,
    events: &[Heard],
) -> Mem<usize>
    ensures text { OnOk result (output.new
        ≡ output.old ++ (if switched then [] else world.interims_text events.now)) }
    ensures count { IfOk result (λ count. count
        ≡ (if switched then 0 else length (world.first_interims events.now))) }
    ensures within { IfOk result (λ count. count ≤ length events.now) }
{
    if switched {
        return Ok(0);
    }
    write_interims(alloc, output, events)
}

/// A world's connection that read this, so many of whose events are done, once the interims that
/// are next are written.
fn settled(
    alloc: Global,
    input: Input,
    done: usize,
    output: BytesBuilder,
    switched: bool,
    seen: u64,
) -> Mem<Connection>
    requires parsed { IsParsed input }
    requires within { done ≤ length input.events }
    ensures { IfOk result (SettlesTo (connection_of input done output switched seen)) }
{
    let mut output = output;
    let count = write_next(alloc, &mut output, switched, &input.events()[done..])?;
    let output = output.freeze(alloc)?;
    Ok(Connection {
        input,
        done: done + count,
        output,
        switched,
        seen,
    })
}

/// The event of a world's connection after so many, unless protocols were switched.
fn next_of(events: &[Heard], done: usize, switched: bool) -> Option<&Heard>
    ensures { option_copied result ≡ (if switched then None else slice_get events.now done) }
{
    if switched {
        return None;
    }
    events.get(done)
}

impl Connection {
    /// A world's connection of which nothing was read.
    pub(crate) fn of(alloc: Global, seen: u64) -> Connection
        ensures is { result ≡ fresh seen }
        ensures rests { Rests result }
    {
        let input = Input::new(alloc);
        let output = Bytes::new();
        Connection {
            input,
            done: 0,
            output,
            switched: false,
            seen,
        }
    }

    /// The next event of the world's connection.
    pub(crate) fn next(&self) -> Option<&Heard>
        ensures { HasNext self.now (option_copied result) }
    {
        http_conn::laws::one_parse();
        next_of(self.input.events(), self.done, self.switched)
    }

    /// The number of the next request of the world's connection, from 1.
    pub(crate) fn number(&self) -> u64
        ensures { result ≡ world.request_number self.now }
    {
        let events = self.input.events();
        let _len = events.len();
        count_requests(&events[..self.done]) as u64 + 1
    }

    /// The last place that the world's connection has seen.
    pub(crate) fn seen(&self) -> u64
        ensures { result ≡ self.now.seen }
    {
        self.seen
    }

    /// The bytes that the world's connection wrote.
    pub(crate) fn output(&self) -> &Bytes
        ensures { result.now ≡ self.now.output }
    {
        &self.output
    }

    /// A copy of the bytes that the world's connection wrote.
    fn copy_output(&self, alloc: Global) -> Mem<BytesBuilder>
        ensures { IfOk result (λ output. output ≡ self.now.output) }
    {
        let mut output = BytesBuilder::new(alloc);
        output.append(alloc, self.output.as_slice())?;
        Ok(output)
    }

    /// The world's connection with more input.
    pub(crate) fn arrived(&self, alloc: Global, piece: &[u8]) -> Mem<Connection>
        ensures { IfOk result (SettlesTo (world.with_input self.now piece.now)) }
    {
        let input = self.input.more(alloc, piece)?;
        let output = self.copy_output(alloc)?;
        let connection = settled(alloc, input, self.done, output, self.switched, self.seen)?;
        Ok(connection)
    }

    /// The world's connection after its next event was answered by these bytes, which switch
    /// protocols or don't, and it has seen this place.
    pub(crate) fn answered(
        &self,
        alloc: Global,
        text: &[u8],
        switched: bool,
        seen: u64,
    ) -> Mem<Connection>
        requires { (event : Event) × world.IsNextEvent self.now event }
        ensures { IfOk result (λ connection. (event : Event)
            → world.IsNextEvent self.now event
            → SettlesTo (advanced self.now event text.now switched seen) connection) }
    {
        http_conn::laws::one_parse();
        let _len = self.input.events().len();
        let input = self.input.copy(alloc)?;
        let mut output = self.copy_output(alloc)?;
        output.append(alloc, text)?;
        let connection = settled(alloc, input, self.done + 1, output, switched, seen)?;
        Ok(connection)
    }
}
