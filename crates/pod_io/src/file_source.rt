//! [`FileSource`]: a source over a file of the host.
ghost use Rattle.std.specs.Prelude.{◌≤◌, None, length, IfOk};

use crate::{Failed, Source};
use pod_base::Text;
use std::fs::{File, Files, OpenOptions};
use std::io::{self, Read};

/// The file of a path, opened at the first read. It doesn't show its bytes, and counts its reads and
/// its errors. A file that can't be opened is an error of each read, and is tried again.
#[derive(Drop)]
pub struct FileSource<R: Files<File = File> + Drop> {
    host: R,
    path: Text,
    file: Option<File>,
    faults: u64,
    reads: u64,
    ends: u64,
}

impl<R: Files<File = File> + Drop> FileSource<R> {
    /// The file of that path.
    pub fn new(host: R, path: Text) -> FileSource<R> {
        FileSource {
            host,
            path,
            file: None,
            faults: 0,
            reads: 0,
            ends: 0,
        }
    }
}

/// Opens the file of a source, where it isn't open yet.
fn open<R: Files<File = File>>(host: &R, path: &str, file: &mut Option<File>) -> io::Result<()> {
    if file.is_none() {
        let found = OpenOptions::new().read(true).open(host, path)?;
        *file = Some(found);
    }
    Ok(())
}

/// Reads bytes of a source's file, which is opened first where it isn't open.
fn read_file<R: Files<File = File>>(
    host: &R,
    path: &str,
    file: &mut Option<File>,
    into: &mut [u8],
) -> io::Result<usize>
    ensures { IfOk result (λ count. count ≤ length into.old) }
{
    open(host, path, file)?;
    match file {
        Some(file) => file.read(into),
        None => Err(io::ErrorKind::NotFound.into()),
    }
}

impl<R: Files<File = File> + Drop> Source for FileSource<R> {
    ghost rest = { λ _. None };

    ghost faults = { λ s. s.faults };

    ghost reads = { λ s. s.reads };

    ghost ends = { λ s. s.ends };

    fn read(&mut self, into: &mut [u8]) -> Result<usize, Failed> {
        match read_file(&self.host, self.path.as_str(), &mut self.file, into) {
            Ok(count) => {
                self.reads = self.reads.saturating_add(1);
                if count == 0 {
                    self.ends = self.ends.saturating_add(1);
                }
                Ok(count)
            }
            Err(_error) => {
                self.faults = self.faults.saturating_add(1);
                Err(Failed)
            }
        }
    }
}
