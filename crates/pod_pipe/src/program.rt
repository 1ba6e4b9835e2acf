//! What a program over a store takes from its host: the words after its name, and the store of the
//! current folder.
ghost use Rattle.std.specs.Prelude.{IfOk, IsSome};

use crate::status::Status;
use pod_base::{Mem, Text};
use pod_disk::{Disks, FileDisk, Place};
use pod_io::FileSource;
use std::alloc::Global;
use std::io::ErrorKind;
use std::{env, io};

/// The words after the program's name, as the host gives them.
fn host_words(rt: &HostRuntime, alloc: Global) -> io::Result<Vec<String>> {
    let mut words = Vec::new(alloc);
    for word in env::args(rt)?.skip(1) {
        words.push(word)?;
    }
    Ok(words)
}

/// The words after the program's name.
///
/// # Errors
///
/// The status of the program: 2 where a word is no text in UTF-8, and 7 out of memory.
pub fn given_words(rt: &HostRuntime, alloc: Global) -> Result<Vec<String>, Status> {
    match host_words(rt, alloc) {
        Ok(words) => Ok(words),
        Err(error) if error.kind() == ErrorKind::InvalidData => Err(Status::INVALID_ARGUMENTS),
        Err(_error) => Err(Status::NO_MEMORY),
    }
}

/// The store of the current folder: its disks are the files `pod.a` and `pod.b`, and its token table
/// is the file `pod.tokens`.
pub fn store_in_folder(
    rt: &HostRuntime,
    alloc: Global,
) -> Mem<Place<FileDisk<HostRuntime>, FileSource<HostRuntime>>>
    ensures { IfOk result (λ place. IsSome place.disks) }
{
    let disks = Disks {
        first: FileDisk::new(rt.clone()?, Text::of(alloc, "pod.a")?),
        second: FileDisk::new(rt.clone()?, Text::of(alloc, "pod.b")?),
    };
    Ok(Place {
        disks: Some(disks),
        tokens: FileSource::new(rt.clone()?, Text::of(alloc, "pod.tokens")?),
    })
}
