//! A store on two disks in memory, and its steps.

ghost use Rattle.std.specs.Prelude.{◌≡◌, []};
ghost use Rattle.pod_disk.specs.NotedCalls.{content_of};

use journal_log::{DiskFault, Framed, OpenFault};
use journal_pair::Pair;
use pod_disk::MemDisk;
use std::alloc::Global;
use std::marker::Model;

/// The two disks of a store, and its pair, which is clean or has a gate in doubt.
#[derive(Drop)]
pub(crate) struct Store {
    first: MemDisk,
    second: MemDisk,
    pair: Pair,
}

impl Model for Store {
    ghost use Rattle.store_cases.specs.Known.{IsKnown};

    ghost Value = { Unit {0} };

    ghost view = { λ s. tt };

    ghost invariant = { λ s. IsKnown s.first s.second s.pair };
}

impl Store {
    /// Begins a store on two empty disks.
    pub(crate) fn init(
        first: MemDisk,
        second: MemDisk,
        snapshot: &Framed,
    ) -> Result<Store, DiskFault>
        requires first { content_of first ≡ [] }
        requires second { content_of second ≡ [] }
    {
        let mut first = first;
        let mut second = second;
        match Pair::init(&mut first, &mut second, snapshot) {
            Ok(pair) => Ok(Store {
                first,
                second,
                pair,
            }),
            Err(fault) => Err(fault),
        }
    }

    /// Opens a store.
    pub(crate) fn open(alloc: Global, first: MemDisk, second: MemDisk) -> Result<Store, OpenFault> {
        let mut first = first;
        let mut second = second;
        match Pair::open(alloc, &mut first, &mut second) {
            Ok((pair, _records)) => Ok(Store {
                first,
                second,
                pair,
            }),
            Err(fault) => Err(fault),
        }
    }

    /// Its first disk.
    pub(crate) fn first(&self) -> &MemDisk {
        &self.first
    }

    /// Its second disk.
    pub(crate) fn second(&self) -> &MemDisk {
        &self.second
    }

    /// `doubt` where a gate is in doubt, and else `failed`.
    pub(crate) fn after_fault(&self) -> &'static str {
        if self.pair.needs_repair() {
            "doubt"
        } else {
            "failed"
        }
    }

    /// Adds a record.
    pub(crate) fn append(&mut self, framed: &Framed) -> &'static str {
        if self.pair.needs_repair() {
            return "unrepaired";
        }
        match self.pair.append(&mut self.first, &mut self.second, framed) {
            Ok(()) => "ok",
            Err(DiskFault) => self.after_fault(),
        }
    }

    /// Makes a checkpoint.
    pub(crate) fn checkpoint(&mut self, snapshot: &Framed) -> &'static str {
        if self.pair.needs_repair() {
            return "unrepaired";
        }
        match self
            .pair
            .checkpoint(&mut self.first, &mut self.second, snapshot)
        {
            Ok(()) => "ok",
            Err(DiskFault) => self.after_fault(),
        }
    }

    /// Closes the gate that is in doubt.
    pub(crate) fn repair(&mut self) -> &'static str {
        if !self.pair.needs_repair() {
            return "no doubt";
        }
        match self.pair.repair(&mut self.first, &mut self.second) {
            Ok(()) => "ok",
            Err(DiskFault) => self.after_fault(),
        }
    }
}
