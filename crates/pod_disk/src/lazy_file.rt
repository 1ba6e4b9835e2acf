//! A file of the host: opened at its first use, made at its first write, locked, and synced before
//! it is read.

use pod_base::Text;
use std::fs::{File, Files, OpenFile, OpenOptions};
use std::io;
use std::os::fd::AsRawFd;
use std::os::unix::fs::{FileExt, OpenOptionsExt};

/// The permissions of a file that is made: its owner reads and writes it.
const MODE: u32 = 0o600;

/// A file of the host, opened at its first use. A missing one is an empty file, made at the first
/// write.
#[derive(Drop)]
pub struct LazyFile<R: Files<File = File> + Drop> {
    host: R,
    path: Text,
    file: Option<File>,
    // There was no file at the first use. Then one that somebody else made meanwhile is refused.
    is_missing: bool,
    // What reads give is on the disk or on its way there: no sync has failed, and no older copies
    // are kept.
    is_settled: bool,
    // The entry of the file in its folder is on the disk.
    is_entered: bool,
}

/// Opens a file of the host and locks it, so that no other open of it succeeds here until this one
/// is dropped.
fn open_locked<R: Files<File = File>>(
    host: &R,
    path: &str,
    options: &OpenOptions,
) -> io::Result<File> {
    let file = options.open(host, path)?;
    file.try_lock()?;
    Ok(file)
}

/// Opens the host's file, if there is one.
fn open_existing<R: Files<File = File>>(host: &R, path: &str) -> io::Result<Option<File>> {
    let mut options = OpenOptions::new();
    options.read(true).write(true);
    match open_locked(host, path, &options) {
        Ok(file) => Ok(Some(file)),
        Err(error) if error.kind() == io::ErrorKind::NotFound => Ok(None),
        Err(error) => Err(error),
    }
}

/// Makes the host's file. One that is there already is refused.
fn create_new<R: Files<File = File>>(host: &R, path: &str) -> io::Result<File> {
    let mut options = OpenOptions::new();
    options.read(true).write(true).create_new(true).mode(MODE);
    open_locked(host, path, &options)
}

/// Settles a file of the host before it is read: waits until it is on the disk, and drops the
/// system's copies of its pages, which a failed sync may have left other than the disk has them.
fn settle(file: &File) -> io::Result<()> {
    file.sync_all()?;
    match libc::posix_fadvise(file.as_raw_fd(), 0, 0, libc::POSIX_FADV_DONTNEED) {
        0 => Ok(()),
        error => Err(io::Error::from_raw_os_error(error)),
    }
}

/// The folder of a host's file, by the file's path.
fn folder_of(path: &str) -> &str {
    match path.rsplit_once('/') {
        Some(("", _name)) => "/",
        Some((folder, _name)) => folder,
        None => ".",
    }
}

/// Waits until the folder of a file has the file's entry on the disk.
fn sync_folder<R: Files<File = File>>(host: &R, path: &str) -> io::Result<()> {
    OpenOptions::new()
        .read(true)
        .open(host, folder_of(path))?
        .sync_all()
}

impl<R: Files<File = File> + Drop> LazyFile<R> {
    /// A file of the host at this path, which isn't opened yet.
    pub fn new(host: R, path: Text) -> LazyFile<R> {
        LazyFile {
            host,
            path,
            file: None,
            is_missing: false,
            is_settled: false,
            is_entered: false,
        }
    }

    /// Opens the file at its first use, and settles it where that is still to be done.
    fn prepare(&mut self) -> io::Result<()> {
        if self.file.is_none() && !self.is_missing {
            self.file = open_existing(&self.host, self.path.as_str())?;
            self.is_missing = self.file.is_none();
        }
        if let Some(file) = &self.file {
            if !self.is_settled {
                settle(file)?;
                self.is_settled = true;
            }
        }
        Ok(())
    }

    /// Opens the file, or makes it where it is missing at its first write.
    fn prepare_write(&mut self) -> io::Result<()> {
        self.prepare()?;
        if self.is_missing {
            self.file = Some(create_new(&self.host, self.path.as_str())?);
            self.is_missing = false;
            self.is_settled = true;
        }
        Ok(())
    }

    /// How many bytes the host's file has: 0 where it is missing.
    pub fn len(&mut self) -> io::Result<u64> {
        self.prepare()?;
        match &self.file {
            Some(file) => Ok(file.metadata()?.len()),
            None => Ok(0),
        }
    }

    /// Reads as many bytes of the host's file as `into` has, from the offset `at` on.
    pub fn read(&mut self, at: u64, into: &mut [u8]) -> io::Result<()> {
        self.prepare()?;
        match &self.file {
            Some(file) => file.read_exact_at(into, at),
            None if into.is_empty() => Ok(()),
            None => Err(io::ErrorKind::UnexpectedEof.into()),
        }
    }

    /// Writes bytes to the host's file, which is made where it is missing.
    pub fn write(&mut self, at: u64, bytes: &[u8]) -> io::Result<()> {
        self.prepare_write()?;
        match &self.file {
            Some(file) => file.write_all_at(bytes, at),
            None => Err(io::ErrorKind::NotFound.into()),
        }
    }

    /// Cuts the host's file to `len` bytes.
    pub fn cut(&mut self, len: u64) -> io::Result<()> {
        self.prepare()?;
        match &self.file {
            Some(file) => file.set_len(len),
            None if len == 0 => Ok(()),
            None => Err(io::ErrorKind::NotFound.into()),
        }
    }

    /// Waits until the host's file has its bytes and its length on the disk. The first time it
    /// waits for its entry in the folder too, without which a new file would be lost. Where it
    /// fails, the next call settles the file first.
    pub fn sync(&mut self) -> io::Result<()> {
        self.prepare()?;
        if let Some(file) = &self.file {
            self.is_settled = false;
            file.sync_all()?;
            if !self.is_entered {
                sync_folder(&self.host, self.path.as_str())?;
                self.is_entered = true;
            }
            self.is_settled = true;
        }
        Ok(())
    }
}
