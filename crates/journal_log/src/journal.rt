//! A journal: its position on its disk, and the calls that add and repair.

ghost use Rattle.std.specs.Prelude.{◌≡◌, ◌≢◌, ◌⊎◌, ◌+◌, ◌<◌, ◌≤◌, ◌^◌, ◌++◌, ◌∷◌, [], List, ℕ};
ghost use Rattle.std.specs.Prelude.{length, OnOk, OnErr, true, false};
ghost use Rattle.pod_io.specs.Counts.{CountsFaults};
ghost use Rattle.pod_disk.specs.Disk.{LeavesOnly};
ghost use Rattle.journal_log.specs.Heads.{encoded_head, IsKnownHead};
ghost use Rattle.journal_log.specs.Walking.{state_at};
ghost use Rattle.journal_log.specs.Images.{IsEither};
ghost use Rattle.journal_log.specs.CleanJournal.{IsClean, IsInDoubt, IsCleanOrInDoubt};
ghost use Rattle.journal_log.specs.CleanJournal.{IsWhileAppended};
ghost use Rattle.journal_log.specs.Frames.{framed_of, opened};
ghost use Rattle.journal_log.specs.Gates.{IsOpening};

use crate::fault::DiskFault;
use crate::framed_record::Framed;
use crate::head::Head;
use crate::writes::write_through;
use pod_disk::Disk;
use std::marker::Model;

/// The position of a journal on its disk: the offset of its last gate, and whether that gate is in
/// doubt. The disk is passed to each call.
///
/// Contracts see the offset of its last gate, whether that gate is in doubt, the format and the
/// epoch (`JournalState`), and say by `IsClean` and `IsInDoubt` how these fit the images of a disk.
#[derive(Drop)]
pub struct Journal {
    // The offset of the last gate.
    end: u64,
    doubt: bool,
    format: u8,
    epoch: u64,
}

impl Model for Journal {
    ghost use Rattle.std.specs.Prelude.{◌<◌, ◌^◌};
    ghost use Rattle.journal_log.specs.JournalState.{JournalState};
    ghost use Rattle.journal_log.specs.Heads.{IsKnownHead};

    ghost Value = { JournalState };

    ghost view = { λ j. record { end = j.end; doubt = j.doubt; format = j.format; epoch = j.epoch } };

    ghost invariant = { λ j. (j.end < 2 ^ 63) × IsKnownHead j.format j.epoch };
}

impl Journal {
    /// The clean journal with this head whose last gate is at this offset.
    pub(crate) fn new_clean(head: Head, end: u64) -> Journal
        requires known { IsKnownHead head.format head.epoch }
        requires room { end < 2 ^ 63 }
        ensures { result ≡ state_at head end }
    {
        Journal {
            end,
            doubt: false,
            format: head.format,
            epoch: head.epoch,
        }
    }

    /// The format of this journal: 1 or 2. Format 2 is the one that is written, and format 1 is an
    /// old one.
    pub fn format(&self) -> u8
        ensures format { result ≡ self.now.format }
        ensures known { (result ≡ 1) ⊎ (result ≡ 2) }
    {
        self.format
    }

    /// The epoch of this journal: at most 2^63. Of two journals the one with the greater epoch is
    /// newer.
    pub fn epoch(&self) -> u64
        ensures epoch { result ≡ self.now.epoch }
        ensures most { result ≤ 2 ^ 63 }
    {
        self.epoch
    }

    /// How many bytes the journal has, from its first byte to its last gate.
    pub fn len(&self) -> u64
        ensures { result ≡ self.now.end + 1 }
    {
        self.end + 1
    }

    /// Whether the journal's last gate may be open though its record isn't to count. Then
    /// [`repair`](Journal::repair) has to close it before anything else.
    pub fn needs_repair(&self) -> bool
        ensures { result ≡ self.now.doubt }
    {
        let Journal { doubt, .. } = self;
        *doubt
    }

    /// Adds a record to the journal, by four calls of the disk: the record with a closed gate after
    /// it, a sync, a 1 at the gate before it, a sync. At each moment every crash image of the disk
    /// stands for the records from before the call, with the new one or without, and at `Ok` for
    /// those with the new one. After an `Err` the journal is clean as before, or its last gate is
    /// in doubt; [`needs_repair`](Journal::needs_repair) says which. The journal is clean before
    /// the call.
    pub fn append<D: Disk>(&mut self, disk: &mut D, framed: &Framed) -> Result<(), DiskFault>
        requires { (bodies : List (List ℕ)) × IsClean (D.image disk.old) self.old bodies }
        ensures moments { (bodies : List (List ℕ)) → IsClean (D.image disk.old) self.old bodies
            → LeavesOnly D.moment D.left_since disk.old disk.new
            (IsEither self.old.format self.old.epoch bodies framed.now) }
        ensures gates { (bodies : List (List ℕ)) → IsClean (D.image disk.old) self.old bodies
            → LeavesOnly D.moment D.left_since disk.old disk.new
            (IsWhileAppended self.old.format self.old.epoch bodies framed.now) }
        ensures kept { (self.new.format ≡ self.old.format) × (self.new.epoch ≡ self.old.epoch) }
        ensures appended { OnOk result ((bodies : List (List ℕ))
            → IsClean (D.image disk.old) self.old bodies
            → IsClean (D.image disk.new) self.new (bodies ++ framed.now ∷ [])) }
        ensures fault { OnErr result ((bodies : List (List ℕ))
            → IsClean (D.image disk.old) self.old bodies
            → IsCleanOrInDoubt (D.image disk.new) self.new bodies framed.now) }
        ensures faults { CountsFaults result (D.faults disk.old) (D.faults disk.new) }
    {
        write_through(disk, self.end + 1, framed.bytes())?;
        self.doubt = true;
        write_through(disk, self.end, &[1])?;
        self.doubt = false;
        self.end += framed.bytes().len() as u64;
        Ok(())
    }

    /// Closes the journal's gate that is in doubt: writes 0 there, and syncs. At each moment every
    /// crash image of the disk stands for the records of the journal, with the one after that gate
    /// or without, and at `Ok` for those without.
    pub fn repair<D: Disk>(&mut self, disk: &mut D) -> Result<(), DiskFault>
        requires { (bodies : List (List ℕ)) × (body : List ℕ)
            × IsInDoubt (D.image disk.old) self.old bodies body }
        ensures moments { (bodies : List (List ℕ)) (body : List ℕ)
            → IsInDoubt (D.image disk.old) self.old bodies body
            → LeavesOnly D.moment D.left_since disk.old disk.new
            (IsEither self.old.format self.old.epoch bodies body) }
        ensures gates { (bodies : List (List ℕ)) (body : List ℕ)
            → IsInDoubt (D.image disk.old) self.old bodies body
            → LeavesOnly D.moment D.left_since disk.old disk.new
            (IsOpening (encoded_head self.old.format self.old.epoch ++ opened bodies)
            (framed_of body)) }
        ensures kept { (self.new.format ≡ self.old.format) × (self.new.epoch ≡ self.old.epoch) }
        ensures repaired { OnOk result ((bodies : List (List ℕ)) (body : List ℕ)
            → IsInDoubt (D.image disk.old) self.old bodies body
            → IsClean (D.image disk.new) self.new bodies) }
        ensures fault { OnErr result ((bodies : List (List ℕ)) (body : List ℕ)
            → IsInDoubt (D.image disk.old) self.old bodies body
            → IsInDoubt (D.image disk.new) self.new bodies body) }
        ensures faults { CountsFaults result (D.faults disk.old) (D.faults disk.new) }
    {
        write_through(disk, self.end, &[0])?;
        self.doubt = false;
        Ok(())
    }
}
