//! [`HeldStreams`]: the descriptors of the standard streams, kept from other files.
use std::fs::{File, Files};
use std::io;

/// The file that takes the place of a standard stream that is closed: an empty input, to which
/// nothing can be written.
const CLOSED_STREAM: &str = "/dev/null";

/// Files that keep the descriptors 0 to 2 taken.
///
/// A file gets the least free descriptor. A program that is started with a standard stream closed
/// would get it for the first file that it opens, and then read that file as its input, or print
/// over it. So a program opens these first, and keeps them until its end.
#[derive(Drop)]
pub struct HeldStreams {
    files: [File; 3],
}

impl HeldStreams {
    /// Takes those of the descriptors 0 to 2 that are free.
    pub fn open<R: Files<File = File>>(host: &R) -> io::Result<HeldStreams> {
        let files = [
            File::open(host, CLOSED_STREAM)?,
            File::open(host, CLOSED_STREAM)?,
            File::open(host, CLOSED_STREAM)?,
        ];
        Ok(HeldStreams { files })
    }
}
