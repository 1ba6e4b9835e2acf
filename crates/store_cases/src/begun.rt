//! Stores in memory: a new one, one of format 1, and new ones with a wrong second disk.

ghost use Rattle.std.specs.Prelude.{◌≡◌, [], IfOk, IsTrue};
ghost use Rattle.iri_ref.specs.Components.{IsAbsolute};
ghost use Rattle.pod_command.specs.Encodable.{IsEncodable};
ghost use Rattle.pod_disk.specs.NotedCalls.{visible_content};
ghost use Rattle.pod_io.specs.Visible.{IfVisible};
ghost use Rattle.pod_rows.specs.Base.{is_base};

use crate::held_keeper::{Held, MOMENT, OWNER};
use crate::images::push_record;
use crate::requests::request;
use iri_ref::Iri;
use pod_base::{Bytes, List, Mem, Method, Moment, NoMemory, Text};
use pod_command::Entry;
use pod_disk::{Disks, MemDisk};
use pod_keeper::{CommitFault, Keeper};
use std::alloc::Global;
use stored_forms::{ReadBack, decode_entry, encode_entry};

/// A disk of these bytes whose calls of these numbers fail.
pub(crate) fn disk(alloc: Global, bytes: &[u8], failing: Vec<u64>) -> Mem<MemDisk> {
    MemDisk::new(alloc, Vec::from_slice(alloc, bytes)?, failing)
}

/// Two disks of these bytes.
pub(crate) fn disks_of(alloc: Global, first: &[u8], second: &[u8]) -> Mem<Disks<MemDisk>> {
    let first = disk(alloc, first, Vec::new(alloc))?;
    let second = disk(alloc, second, Vec::new(alloc))?;
    Ok(Disks { first, second })
}

/// An empty disk.
fn empty_disk(alloc: Global) -> Mem<MemDisk>
    ensures { IfOk result (λ disk. IfVisible (visible_content disk) (λ b. b ≡ [])) }
{
    MemDisk::new(alloc, Vec::new(alloc), Vec::new(alloc))
}

/// The base of the pods.
fn base(alloc: Global) -> Mem<Iri>
    ensures { IfOk result (λ base. IsTrue (is_base base)) }
{
    match Iri::read(alloc, "http://127.0.0.1:8080/") {
        Ok(base) => Ok(base),
        Err(_) => Err(NoMemory),
    }
}

/// The owner of the pods.
fn owner(alloc: Global) -> Mem<Text>
    ensures { IfOk result IsAbsolute }
{
    match Iri::read(alloc, OWNER) {
        Ok(_iri) => Text::of(alloc, OWNER),
        Err(_) => Err(NoMemory),
    }
}

/// The disks of a new store.
fn new_disks(alloc: Global) -> Mem<Disks<MemDisk>> {
    let base = base(alloc)?;
    let owner = owner(alloc)?;
    let first = empty_disk(alloc)?;
    let second = empty_disk(alloc)?;
    let mut disks = Disks { first, second };
    match Keeper::init(alloc, &mut disks, base, owner, Moment(MOMENT)) {
        Ok(()) => Ok(disks),
        Err(CommitFault::NoMemory | CommitFault::DiskFault) => Err(NoMemory),
    }
}

/// The entry without bases.
fn without_bases(alloc: Global, entry: Entry) -> Entry
    requires { IsEncodable entry }
    ensures { IsEncodable result }
{
    let mut entry = entry;
    entry.bases = List::new(alloc);
    entry
}

/// An entry in format 1, from its text in format 2.
fn old_text(alloc: Global, text: &[u8]) -> Mem<Vec<u8>> {
    let entry = match decode_entry(alloc, text) {
        Ok(entry) => entry,
        Err(ReadBack::NotCanonical | ReadBack::NoMemory) => return Err(NoMemory),
    };
    let entry = without_bases(alloc, entry);
    let bytes = encode_entry(alloc, &entry)?;
    let mut text = Vec::from_slice(alloc, bytes.as_slice())?;
    text.truncate(text.len().saturating_sub(8));
    if let Some(first) = text.first_mut() {
        *first = 1;
    }
    Ok(text)
}

/// A journal of format 1 with these records, a snapshot and entries.
fn old_image(alloc: Global, records: &[Bytes]) -> Mem<Vec<u8>> {
    let mut image = Vec::from_slice(alloc, b"PODJRNL1")?;
    image.extend_from_slice(&1u64.to_be_bytes())?;
    if let Some((snapshot, entries)) = records.split_first() {
        image.push(1)?;
        push_record(&mut image, snapshot.as_slice())?;
        for entry in entries {
            let text = old_text(alloc, entry.as_slice())?;
            image.push(1)?;
            push_record(&mut image, &text)?;
        }
    }
    image.push(0)?;
    Ok(image)
}

/// The first disk of a store of format 1 with one entry, a PUT of `/a/b/c.ttl`.
fn old_disk(alloc: Global) -> Mem<Vec<u8>> {
    let body = b"<> <http://e.example/p> 1 .";
    let request = request(alloc, Method::Put, "/a/b/c.ttl", "text/turtle", body)?;
    let Ok((mut held, _records)) = Held::open(alloc, new_disks(alloc)?) else {
        return Err(NoMemory);
    };
    let _done = held.commit(alloc, &request);
    match Held::open(alloc, held.close()) {
        Ok((_held, records)) => old_image(alloc, records.as_slice()),
        Err(_fault) => Err(NoMemory),
    }
}

/// The bytes with another one at this offset.
fn changed(bytes: Vec<u8>, at: usize, byte: u8) -> Vec<u8> {
    let mut bytes = bytes;
    if let Some(place) = bytes.get_mut(at) {
        *place = byte;
    }
    bytes
}

/// The bytes of the two disks of a store that a case begins with: `new`, `old`, `wrong` or
/// `wronger`.
pub(crate) fn images(alloc: Global, start: &str) -> Mem<(Vec<u8>, Vec<u8>)> {
    let disks = new_disks(alloc)?;
    let first = Vec::from_slice(alloc, disks.first.bytes())?;
    let second = Vec::from_slice(alloc, disks.second.bytes())?;
    match start {
        "old" => Ok((old_disk(alloc)?, second)),
        "wrong" => Ok((first, changed(second, 16, 1))),
        "wronger" => Ok((first, changed(changed(second, 16, 1), 0, 0))),
        _ => Ok((first, second)),
    }
}
