//! [`Parts`]: the parts of a world, and what each event does.
ghost use Rattle.std.specs.Prelude.{◌≡◌, ◌≤◌, ◌<◌, ℕ, false, suc, length, slice_get, slice_set};
ghost use Rattle.std.specs.Prelude.{IfOk, IfSome, IsTrue, Some, true};
ghost use Rattle.std.specs.Option.{option_copied};
ghost use Rattle.pod_base.specs.declared.heard.Heard.{Heard as EventHeard};
ghost use Rattle.pod_core.specs.History.{end_of};
ghost use Rattle.pod_core.specs.Session.{IsClockMoment};
ghost use Rattle.pod_core.specs.World as world;
ghost use Rattle.pod_core.specs.World.{Connection as WorldConnection, IsNextEvent, holder_in};
ghost use Rattle.request_history.specs.Connections.{SettlesTo};
ghost use Rattle.request_history.specs.Parts.{CameTo, IsFaulted, IsFinished, IsReady, TakesLock};
ghost use Rattle.request_history.specs.Parts.{IsWorld, ReplacesIfAny, TakesIfAny};
ghost use Rattle.request_history.specs.Phases.{IsOpened, MayStep};
ghost use Rattle.request_history.specs.Reads.{after_answer};
ghost use Rattle.request_history.specs.Worlds.{any_second, event_of, holder_event};
ghost use Rattle.request_history.specs.declared.next_change.Change.TheVariants as outcomes;

use crate::answer_bytes::Answer;
use crate::event::{Event, StepFault};
use crate::lock_holder::Holder;
use crate::lock_holder_steps::Step;
use crate::next_change::{Change, change_next};
use crate::next_read::read_next;
use crate::world_connection::Connection;
use crate::world_keeper::Keeper;
use http_out::disk_text;
use pod_base::{Mem, Moment, NoMemory, moment_of};
use std::alloc::Global;
use token_table::Tokens;

/// The parts of a world: its table of tokens, its keeper, its connections, the published place, and
/// whether it has stopped.
#[derive(Drop)]
pub struct Parts {
    pub(crate) tokens: Tokens,
    pub(crate) keeper: Keeper,
    pub(crate) connections: Vec<Connection>,
    pub(crate) published: u64,
    pub(crate) stopped: bool,
}

/// A connection after its answer, and its place among the connections.
#[derive(Drop)]
pub(crate) struct Replaced {
    at: usize,
    connection: Connection,
}

/// Whether the clock among a world's parts may give the moment of an event.
fn is_clock_moment(moment: Moment) -> bool
    ensures yes { IsTrue result → IsClockMoment any_second moment.0 }
    ensures no { result ≡ false → IsClockMoment any_second moment.0 → ⊥ }
{
    moment_of(moment.0).0 == moment.0
}

/// Puts a connection in its place among the parts of a world.
fn put(connections: &mut Vec<Connection>, at: usize, connection: Connection)
    requires { at < length connections.old.items }
    ensures { connections.new.items ≡ slice_set connections.old.items at connection }
{
    connections[at] = connection;
}

impl Parts {
    /// A connection among the parts of a world, if there is one.
    fn connection(&self, conn: usize) -> Option<&Connection>
        ensures { option_copied result ≡ slice_get self.now.connections.items conn }
    {
        self.connections.as_slice().get(conn)
    }

    // ---- a connection is replaced

    /// Puts a connection in its place among the parts of a world, where there is one.
    fn replace(&mut self, conn: usize, next: Option<Connection>) -> Result<(), StepFault>
        requires fine { IsWorld self.old }
        requires within { IfSome next (λ _. conn < length self.old.connections.items) }
        ensures { (event : world.Event) → ReplacesIfAny self.old event conn next
            → CameTo result self.old event self.new }
    {
        match next {
            Some(next) => {
                put(&mut self.connections, conn, next);
                Ok(())
            }
            None => Err(StepFault::NotNow),
        }
    }

    /// The connection after the event that bytes arrive.
    fn arrived(&self, alloc: Global, conn: usize, piece: &[u8]) -> Mem<Option<Connection>>
        requires fine { IsWorld self.now }
        requires runs { self.now.stopped ≡ false }
        ensures { IfOk result (ReplacesIfAny self.now (world.arrive (suc conn) piece.now) conn) }
    {
        http_conn::laws::events_stay();
        match self.connection(conn) {
            Some(from) => {
                let next = from.arrived(alloc, piece)?;
                Ok(Some(next))
            }
            None => Ok(None),
        }
    }

    /// The world's parts take the event that bytes arrive.
    fn arrive(&mut self, alloc: Global, conn: usize, piece: &[u8]) -> Result<(), StepFault>
        requires fine { IsWorld self.old }
        requires runs { self.old.stopped ≡ false }
        ensures { CameTo result self.old (world.arrive (suc conn) piece.now) self.new }
    {
        match self.arrived(alloc, conn, piece) {
            Ok(next) => self.replace(conn, next),
            Err(NoMemory) => Err(StepFault::NoMemory),
        }
    }

    /// Whether the world's parts may take the event of a look: a connection that has seen this
    /// place may look at the place at that moment.
    fn may_look(&self, seen: u64, place: u64, moment: Moment) -> bool
        ensures yes { IsTrue result → (seen ≤ place) × (place ≤ self.now.published)
            × IsClockMoment any_second moment.0 }
        ensures no { result ≡ false → seen ≤ place → place ≤ self.now.published
            → IsClockMoment any_second moment.0 → ⊥ }
    {
        if place < seen {
            return false;
        }
        if self.published < place {
            return false;
        }
        is_clock_moment(moment)
    }

    /// This connection, at that place in the list, after the event that what is next is answered at
    /// a place.
    fn looked_from(
        &self,
        alloc: Global,
        from: &Connection,
        conn: usize,
        place: u64,
        moment: Moment,
    ) -> Mem<Option<Connection>>
        requires fine { IsWorld self.now }
        requires runs { self.now.stopped ≡ false }
        requires is_there { slice_get self.now.connections.items conn ≡ Some from.now }
        ensures { IfOk result
            (ReplacesIfAny self.now (world.look (suc conn) place moment.0) conn) }
    {
        let _len = self.connections.as_slice().len();
        if !self.may_look(from.seen(), place, moment) {
            return Ok(None);
        }
        let answer = read_next(alloc, &self.tokens, &self.keeper, from, conn, place, moment)?;
        match answer {
            Some(answer) => {
                let next = from.answered(alloc, answer.text.as_slice(), answer.switched, place)?;
                Ok(Some(next))
            }
            None => Ok(None),
        }
    }

    /// The connection after the event that what is next is answered at a place.
    fn looked(
        &self,
        alloc: Global,
        conn: usize,
        place: u64,
        moment: Moment,
    ) -> Mem<Option<Connection>>
        requires fine { IsWorld self.now }
        requires runs { self.now.stopped ≡ false }
        ensures { IfOk result
            (ReplacesIfAny self.now (world.look (suc conn) place moment.0) conn) }
    {
        match self.connection(conn) {
            Some(from) => self.looked_from(alloc, from, conn, place, moment),
            None => Ok(None),
        }
    }

    /// The world's parts take the event that what is next is answered at a place.
    fn look(
        &mut self,
        alloc: Global,
        conn: usize,
        place: u64,
        moment: Moment,
    ) -> Result<(), StepFault>
        requires fine { IsWorld self.old }
        requires runs { self.old.stopped ≡ false }
        ensures { CameTo result self.old (world.look (suc conn) place moment.0) self.new }
    {
        match self.looked(alloc, conn, place, moment) {
            Ok(next) => self.replace(conn, next),
            Err(NoMemory) => Err(StepFault::NoMemory),
        }
    }

    // ---- a change takes the lock

    /// What an event makes of what is next on this connection, at that place in the list, where the
    /// lock may be taken.
    fn change_from(
        &self,
        alloc: Global,
        from: &Connection,
        conn: usize,
        moment: Moment,
    ) -> Mem<Change>
        requires { slice_get self.now.connections.items conn ≡ Some from.now }
        ensures { IfOk result (TakesIfAny self.now conn moment.0) }
    {
        let _len = self.connections.as_slice().len();
        if !self.keeper.is_free() {
            return Ok(Change::Stays);
        }
        if !is_clock_moment(moment) {
            return Ok(Change::Stays);
        }
        let change = change_next(alloc, &self.tokens, &self.keeper, from, conn, moment)?;
        Ok(change)
    }

    /// What an event makes of what is next, where it may take the lock.
    fn change(&self, alloc: Global, conn: usize, moment: Moment) -> Mem<Change>
        ensures { IfOk result (TakesIfAny self.now conn moment.0) }
    {
        match self.connection(conn) {
            Some(from) => self.change_from(alloc, from, conn, moment),
            None => Ok(Change::Stays),
        }
    }

    /// The connection after the event that its change is answered at the end of the history.
    fn answered(&self, alloc: Global, conn: usize, answer: &Answer) -> Mem<Connection>
        requires { IsReady self.now conn }
        ensures { IfOk result (λ new. (from : WorldConnection) (event : EventHeard)
            → slice_get self.now.connections.items conn ≡ Some from → IsNextEvent from event
            → SettlesTo (after_answer from event answer.now (end_of self.now.keeper.history)) new) }
    {
        match self.connection(conn) {
            Some(from) => {
                let end = self.keeper.end();
                let next = from.answered(alloc, answer.text.as_slice(), answer.switched, end)?;
                Ok(next)
            }
            None => Err(NoMemory),
        }
    }

    /// The world's parts take the event that a change without an entry is answered.
    fn take_answered(
        &mut self,
        alloc: Global,
        conn: usize,
        answer: &Answer,
    ) -> Result<(), StepFault>
        requires fine { IsWorld self.old }
        requires runs { self.old.stopped ≡ false }
        requires ready { IsReady self.old conn }
        ensures { (moment : ℕ) → TakesLock self.old conn moment (outcomes.Answered answer.now)
            → CameTo result self.old (world.take (suc conn) moment) self.new }
    {
        match self.answered(alloc, conn, answer) {
            Ok(next) => {
                put(&mut self.connections, conn, next);
                Ok(())
            }
            Err(NoMemory) => Err(StepFault::NoMemory),
        }
    }

    /// The world's parts take the event that a change takes the lock.
    fn take(&mut self, alloc: Global, conn: usize, moment: Moment) -> Result<(), StepFault>
        requires fine { IsWorld self.old }
        requires runs { self.old.stopped ≡ false }
        ensures { CameTo result self.old (world.take (suc conn) moment.0) self.new }
    {
        match self.change(alloc, conn, moment) {
            Ok(change) => match change {
                Change::Held(holder) => {
                    self.keeper.hold(holder);
                    Ok(())
                }
                Change::Answered(answer) => self.take_answered(alloc, conn, &answer),
                Change::Stays => Err(StepFault::NotNow),
            },
            Err(NoMemory) => Err(StepFault::NoMemory),
        }
    }

    // ---- the holder of the lock

    /// The connection of this holder of the lock after the event that its change meets a disk
    /// fault.
    fn faulted_of(&self, alloc: Global, holder: &Holder) -> Mem<Replaced>
        requires fine { IsWorld self.now }
        requires held { holder_in self.now.keeper.phase ≡ Some holder.now }
        ensures { IfOk result (IsFaulted self.now) }
    {
        let at = holder.conn();
        match self.connection(at) {
            Some(from) => {
                let connection = from.answered(alloc, disk_text(), false, from.seen())?;
                Ok(Replaced { at, connection })
            }
            None => Err(NoMemory),
        }
    }

    /// The connection of the holder of the lock after the event that its change meets a disk fault.
    fn faulted(&self, alloc: Global) -> Mem<Replaced>
        requires { IsWorld self.now }
        ensures { IfOk result (IsFaulted self.now) }
    {
        match self.keeper.holder() {
            Some(holder) => self.faulted_of(alloc, holder),
            None => Err(NoMemory),
        }
    }

    /// The world's parts take the event that the holder of the lock gives up.
    fn fail(&mut self, alloc: Global, step: Step) -> Result<(), StepFault>
        requires fine { IsWorld self.old }
        requires runs { self.old.stopped ≡ false }
        requires may { MayStep self.old.keeper step }
        ensures { CameTo result self.old (holder_event step false) self.new }
    {
        match self.faulted(alloc) {
            Ok(replaced) => {
                put(&mut self.connections, replaced.at, replaced.connection);
                self.keeper.give_up(step);
                Ok(())
            }
            Err(NoMemory) => Err(StepFault::NoMemory),
        }
    }

    /// The world's parts take the event that the holder of the lock makes a step.
    fn proceed(&mut self, alloc: Global, step: Step) -> Result<(), StepFault>
        requires fine { IsWorld self.old }
        requires runs { self.old.stopped ≡ false }
        requires may { MayStep self.old.keeper step }
        ensures { CameTo result self.old (holder_event step true) self.new }
    {
        match self.keeper.proceed(alloc, step) {
            Ok(()) => Ok(()),
            Err(NoMemory) => Err(StepFault::NoMemory),
        }
    }

    /// The world's parts take the event that the holder of the lock makes a step, or gives up.
    fn hold_on(&mut self, alloc: Global, step: Step, ok: bool) -> Result<(), StepFault>
        requires fine { IsWorld self.old }
        requires runs { self.old.stopped ≡ false }
        ensures { CameTo result self.old (holder_event step ok) self.new }
    {
        if !self.keeper.may(step) {
            return Err(StepFault::NotNow);
        }
        if ok {
            self.proceed(alloc, step)
        } else {
            self.fail(alloc, step)
        }
    }

    /// The connection of this holder of the lock after the event that its change is answered.
    fn finished_of(&self, alloc: Global, holder: &Holder) -> Mem<Replaced>
        requires fine { IsWorld self.now }
        requires held { holder_in self.now.keeper.phase ≡ Some holder.now }
        ensures { IfOk result (IsFinished self.now) }
    {
        let at = holder.conn();
        match self.connection(at) {
            Some(from) => {
                let end = self.keeper.end();
                let connection = from.answered(alloc, holder.text(), holder.switches(), end)?;
                Ok(Replaced { at, connection })
            }
            None => Err(NoMemory),
        }
    }

    /// The connection of the holder of the lock after the event that its change is answered.
    fn finished(&self, alloc: Global) -> Mem<Replaced>
        requires { IsWorld self.now }
        ensures { IfOk result (IsFinished self.now) }
    {
        match self.keeper.holder() {
            Some(holder) => self.finished_of(alloc, holder),
            None => Err(NoMemory),
        }
    }

    /// The world's parts take the event that the entry of the holder of the lock, whose gate is
    /// open, is published.
    fn publish_opened(&mut self, alloc: Global) -> Result<(), StepFault>
        requires fine { IsWorld self.old }
        requires runs { self.old.stopped ≡ false }
        requires opened { IsOpened self.old.keeper.phase }
        ensures { CameTo result self.old world.publish self.new }
    {
        match self.finished(alloc) {
            Ok(replaced) => {
                put(&mut self.connections, replaced.at, replaced.connection);
                self.published = self.keeper.end();
                self.keeper.release();
                Ok(())
            }
            Err(NoMemory) => Err(StepFault::NoMemory),
        }
    }

    /// The world's parts take the event that the entry of the holder of the lock is published.
    fn publish(&mut self, alloc: Global) -> Result<(), StepFault>
        requires fine { IsWorld self.old }
        requires runs { self.old.stopped ≡ false }
        ensures { CameTo result self.old world.publish self.new }
    {
        if !self.keeper.is_opened() {
            return Err(StepFault::NotNow);
        }
        self.publish_opened(alloc)
    }

    // ---- all events

    /// The world's parts take the event that the world stops.
    fn stop(&mut self, image: &[u8]) -> Result<(), StepFault>
        requires fine { IsWorld self.old }
        requires runs { self.old.stopped ≡ false }
        ensures { CameTo result self.old (world.stop image.now) self.new }
    {
        if !self.keeper.allows(image) {
            return Err(StepFault::NotNow);
        }
        self.stopped = true;
        Ok(())
    }

    /// The world's parts take an event, where the world hasn't stopped.
    fn run(&mut self, alloc: Global, event: &Event) -> Result<(), StepFault>
        requires fine { IsWorld self.old }
        requires runs { self.old.stopped ≡ false }
        ensures { CameTo result self.old (event_of event.now) self.new }
    {
        match event {
            Event::Arrive { conn, piece } => self.arrive(alloc, *conn, piece.as_slice()),
            Event::Look {
                conn,
                place,
                moment,
            } => self.look(alloc, *conn, *place, *moment),
            Event::Take { conn, moment } => self.take(alloc, *conn, *moment),
            Event::Repair { ok } => self.hold_on(alloc, Step::Repair, *ok),
            Event::Body { ok } => self.hold_on(alloc, Step::Body, *ok),
            Event::Gate { ok } => self.hold_on(alloc, Step::Gate, *ok),
            Event::Publish => self.publish(alloc),
            Event::Stop { image } => self.stop(image.as_slice()),
        }
    }

    /// The world's parts take an event.
    pub(crate) fn step(&mut self, alloc: Global, event: &Event) -> Result<(), StepFault>
        requires { IsWorld self.old }
        ensures { CameTo result self.old (event_of event.now) self.new }
    {
        if self.stopped {
            return Err(StepFault::NotNow);
        }
        self.run(alloc, event)
    }
}
