//! [`Follower`]: a pod that is kept up to date by another one's entries.
ghost use Rattle.std.specs.Prelude.{◌≡◌, ◌≤◌, ◌^◌, IfOk, IsErrOf, OnErr, false};
ghost use Rattle.pod_command.specs.declared.entry.Entry.{Entry as EntryValue};
ghost use Rattle.pod_command.specs.declared.snapshot.Snapshot.{Snapshot as SnapshotValue};
ghost use Rattle.pod_records.specs.Readings.{IsSnapshotOf};
ghost use Rattle.pod_records.specs.Records.{IsSnapshotText};
ghost use Rattle.pod_reply.specs.Reply.{IsReply};
ghost use Rattle.pod_reply.specs.Replies.{unchanged};
ghost use Rattle.pod_rows.specs.WellFormed.{IsWellFormedSnapshot, WellFormed, pod_of};
ghost use Rattle.reply_laws.specs.Granted.{is_change};
ghost use Rattle.reply_laws.specs.Sent.{IsSent};
ghost use Rattle.token_table.specs.Credentials.{asked_view};

use crate::entry_decoding::read_entry;
use pod_base::{Bytes, Mem, Moment, NoMemory, Request, Response, Stamp};
use pod_command::{Entry, Snapshot};
use pod_core::{Replied, answer};
use pod_pages::Version;
use pod_records::fits;
use pod_rows::{PodState, StateFault, snapshot};
use std::alloc::Global;
use std::marker::Model;
use stored_forms::{ReadBack, decode_snapshot, encode_snapshot};
use thiserror::Error;
use token_table::Asked;

/// Why a follower isn't started.
#[derive(Clone, Copy, Debug, PartialEq, Eq, Error)]
pub enum StartFault {
    /// The bytes are the text of no well-formed snapshot.
    #[error("no well-formed snapshot")]
    NotSnapshot,
    #[error("out of memory")]
    NoMemory,
}

/// What became of an entry. `next` is the number of the entry that the follower can apply.
#[derive(Clone, Copy, Debug, PartialEq, Eq)]
pub enum Took {
    /// It was applied.
    Applied,
    /// It was applied before, or comes from before the snapshot.
    Old { seq: u64, next: u64 },
    /// Entries before it are missing.
    Ahead { seq: u64, next: u64 },
    /// It is the next one, and doesn't apply to the pod.
    Unfit { seq: u64 },
    /// The bytes are no entry.
    NotEntry,
}

/// A pod that is kept from a snapshot and entries. Contracts see the pod, and the number of the
/// entry that it can apply next.
#[derive(Drop)]
pub struct Follower {
    version: Version,
}

impl Model for Follower {
    ghost use Rattle.pod_rows.specs.State.{NumberedPod};

    ghost Value = { NumberedPod };

    ghost view = { λ f. record { pod = f.version.pod; next = f.version.next } };
}

/// The follower that begins with a snapshot.
fn start_with(alloc: Global, snapshot: Snapshot) -> Result<Follower, StartFault>
    ensures pod { IfOk result (λ follower. follower.pod ≡ pod_of snapshot) }
    ensures next { IfOk result (λ follower. follower.next ≡ snapshot.seq) }
    ensures well_formed { IfOk result (λ _. IsWellFormedSnapshot snapshot) }
    ensures refused { IsErrOf result StartFault.NotSnapshot
        → IsWellFormedSnapshot snapshot → ⊥ }
{
    match Version::of(alloc, snapshot) {
        Ok(version) => Ok(Follower { version }),
        Err(StateFault::NotWellFormed) => Err(StartFault::NotSnapshot),
        Err(StateFault::NoMemory) => Err(StartFault::NoMemory),
    }
}

impl Follower {
    ghost use Rattle.pod_follow.specs.Followed.{IsStart, Takes, TakesEntry, read_stamp};

    /// The follower that begins with the snapshot whose text the bytes are, as the first record of a
    /// journal, [`Follower::save`] and the first frame of `podctl ship` have it.
    ///
    /// # Errors
    ///
    /// [`StartFault::NotSnapshot`] exactly where the bytes are the text of no well-formed snapshot.
    pub fn start(alloc: Global, snapshot: &[u8]) -> Result<Follower, StartFault>
        ensures started { IfOk result (IsStart snapshot.now) }
        ensures refused { IsErrOf result StartFault.NotSnapshot
            → (other : SnapshotValue) → IsSnapshotOf snapshot.now other → ⊥ }
    {
        match decode_snapshot(alloc, snapshot) {
            Ok(snapshot) => start_with(alloc, snapshot),
            Err(ReadBack::NotCanonical) => Err(StartFault::NotSnapshot),
            Err(ReadBack::NoMemory) => Err(StartFault::NoMemory),
        }
    }

    /// The number of the entry that the follower can apply next, at most 2^63.
    pub fn next(&self) -> u64
        ensures next { result ≡ self.now.next }
        ensures most { self.now.next ≤ 2 ^ 63 }
    {
        self.version.seq()
    }

    /// Takes an entry that was sent to the follower, in either format. It is applied exactly where
    /// it is the next one and applies to the pod; no other changes the follower, and nor does a
    /// call that is out of memory.
    pub fn take(&mut self, alloc: Global, entry: &[u8]) -> Mem<Took>
        ensures took { IfOk result (Takes self.old entry.now self.new) }
        ensures kept { OnErr result (self.new ≡ self.old) }
    {
        match read_entry(alloc, entry)? {
            Some(entry) => self.take_entry(alloc, &entry),
            None => Ok(Took::NotEntry),
        }
    }

    /// Takes an entry that was sent to the follower, by its number.
    fn take_entry(&mut self, alloc: Global, entry: &Entry) -> Mem<Took>
        ensures took { IfOk result (TakesEntry self.old entry.now self.new) }
        ensures kept { OnErr result (self.new ≡ self.old) }
    {
        let next = self.version.seq();
        let seq = entry.seq;
        if seq < next {
            Ok(Took::Old { seq, next })
        } else if next < seq {
            Ok(Took::Ahead { seq, next })
        } else {
            self.apply(alloc, entry)
        }
    }

    /// Applies the next entry to the follower's pod, where it applies.
    fn apply(&mut self, alloc: Global, entry: &Entry) -> Mem<Took>
        requires { entry.now.seq ≡ self.old.next }
        ensures took { IfOk result (TakesEntry self.old entry.now self.new) }
        ensures kept { OnErr result (self.new ≡ self.old) }
    {
        if fits(alloc, &self.version, entry)? {
            self.version.advance(alloc, entry)?;
            Ok(Took::Applied)
        } else {
            Ok(Took::Unfit { seq: entry.seq })
        }
    }

    /// The text of a snapshot of the follower's pod at its place: another follower starts with it,
    /// and so does this one where it is stopped and started anew.
    pub fn save(&self, alloc: Global) -> Mem<Bytes>
        ensures { IfOk result (IsSnapshotText self.now.pod self.now.next) }
    {
        let _next = self.version.seq();
        self.version.is_well_formed();
        let snapshot = snapshot(alloc, &self.version)?;
        encode_snapshot(alloc, &snapshot)
    }

    /// The response to a read, which is that of the pod at the follower's place. The leader may have
    /// changed since.
    pub fn read(
        &self,
        alloc: Global,
        request: &Request,
        asked: &Asked<'_>,
        moment: Moment,
    ) -> Mem<Response>
        requires { is_change request.now.method ≡ false }
        ensures reply { IfOk result (λ response. IsReply self.now.pod request.now
            (asked_view asked.now) self.now.next (read_stamp moment) (unchanged response)) }

        // Its bytes can be written.
        ensures sent { IfOk result IsSent }
    {
        let seq = self.version.seq();
        let stamp = Stamp {
            conn: 0,
            number: 0,
            moment,
        };
        let replied = answer(alloc, &self.version, request, asked, seq, stamp)?;
        Ok(replied.response)
    }

    /// The pod of a follower is well-formed. It does nothing.
    pub fn is_well_formed(&self)
        ensures { WellFormed self.now.pod }
    {
        self.version.is_well_formed()
    }
}
