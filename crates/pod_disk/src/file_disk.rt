//! The disk over a file of the host.

ghost use Rattle.std.specs.Prelude.{◌≡◌, ◌≤◌, None};
ghost use Rattle.pod_base.specs.Counts.{CountIncreased};
ghost use Rattle.pod_disk.specs.Laws.{none_visible};

use crate::disk::{Disk, LENGTH_LIMIT};
use crate::lazy_file::LazyFile;
use pod_base::Text;
use pod_io::Failed;
use std::fs::{File, Files};
use std::marker::Model;

/// A disk over a file of the host. It tells contracts nothing of what it holds; they see its count
/// of errors.
///
/// The file is opened at the first use and locked until the disk is dropped, so that another disk
/// over the same file gives a counted fault at each call. A missing file is an empty disk; it is
/// made, for its owner alone, by the first write.
#[derive(Drop)]
pub struct FileDisk<R: Files<File = File> + Drop> {
    file: LazyFile<R>,
    faults: u64,
}

impl<R: Files<File = File> + Drop> Model for FileDisk<R> {
    ghost use Rattle.std.specs.Prelude.{ℕ};

    ghost Value = { ℕ };

    ghost view = { λ d. d.faults };
}

impl<R: Files<File = File> + Drop> FileDisk<R> {
    /// A disk over the host's file of that path.
    pub fn new(host: R, path: Text) -> FileDisk<R>
        ensures { result ≡ 0 }
    {
        FileDisk {
            file: LazyFile::new(host, path),
            faults: 0,
        }
    }

    /// How many calls of this disk over a file failed.
    pub fn faults(&self) -> u64
        ensures { result ≡ self.now }
    {
        self.faults
    }

    /// Counts a failed call of a disk over a file.
    fn fault(&mut self) -> Failed
        ensures no_fewer { self.old ≤ self.new }
        ensures increased { CountIncreased self.old self.new }
    {
        self.faults = self.faults.saturating_add(1);
        Failed
    }
}

impl<R: Files<File = File> + Drop> Disk for FileDisk<R> {
    ghost content = { λ _. None };

    ghost image = { λ _ _. ⊥ };

    ghost moment = { λ _. 0 };

    ghost left_since = { λ _ _ _. ⊥ };

    ghost faults = { λ faults. faults };

    ghost reads_image = { λ _ b visible. none_visible b visible };

    ghost counts_now = { λ _ t c le image. image };

    ghost only_now = { λ _ c was. was };

    fn len(&mut self) -> Result<u64, Failed> {
        match self.file.len() {
            Ok(len) if len < LENGTH_LIMIT => Ok(len),
            _ => Err(self.fault()),
        }
    }

    fn read(&mut self, at: u64, into: &mut [u8]) -> Result<(), Failed> {
        match self.file.read(at, into) {
            Ok(()) => Ok(()),
            Err(_error) => Err(self.fault()),
        }
    }

    fn write_at(&mut self, at: u64, bytes: &[u8]) -> Result<(), Failed> {
        if at >= LENGTH_LIMIT || bytes.len() as u64 >= LENGTH_LIMIT - at {
            return Err(self.fault());
        }
        match self.file.write(at, bytes) {
            Ok(()) => Ok(()),
            Err(_error) => Err(self.fault()),
        }
    }

    fn cut(&mut self, len: u64) -> Result<(), Failed> {
        match self.file.cut(len) {
            Ok(()) => Ok(()),
            Err(_error) => Err(self.fault()),
        }
    }

    fn sync(&mut self) -> Result<(), Failed> {
        match self.file.sync() {
            Ok(()) => Ok(()),
            Err(_error) => Err(self.fault()),
        }
    }
}
