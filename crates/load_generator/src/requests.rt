//! The requests of the load generator.
ghost use Rattle.std.specs.Prelude.{◌≡◌, ◌++◌, IfOk, decimal};
ghost use Rattle.std.specs.List.{flat_map};
ghost use Rattle.load_generator.specs.Streams as spec;

use iri_ref::Iri;
use itoa::Buffer;
use pod_base::{Mem, NoMemory};
use std::alloc::Global;

/// The moment of each request of a run, in seconds since the beginning of 1970.
pub const LOAD_MOMENT: u64 = 784_111_777;

/// The owner of the pod of a run.
const OWNER: &str = "https://alice.example/#me";

/// The owner of the pod that takes the load generator's requests, as whom each is made.
pub fn owner(alloc: Global) -> Mem<Iri>
    ensures { IfOk result (λ owner. owner ≡ spec.load_owner) }
{
    match Iri::read(alloc, OWNER) {
        Ok(owner) => Ok(owner),
        Err(_) => Err(NoMemory),
    }
}

/// Appends pieces of the load's requests, one after another.
fn append_all(text: &mut Vec<u8>, pieces: &[&[u8]]) -> Mem<()>
    ensures { IfOk result (λ _. text.new.items
        ≡ text.old.items ++ flat_map (λ p. p.now) pieces.now) }
{
    for piece in pieces {
        text.extend_from_slice(piece)?;
    }
    Ok(())
}

/// Appends the document that request k of the load writes.
fn append_body(text: &mut Vec<u8>, k: u16) -> Mem<()>
    ensures { IfOk result (λ _. text.new.items ≡ text.old.items ++ spec.document_body k) }
{
    let mut number = Buffer::new();
    append_all(
        text,
        &[
            b"<> <http://example.org/n> ".as_slice(),
            number.format(k).as_bytes(),
            b" .".as_slice(),
        ],
    )
}

/// Appends a request of the load that writes document k with this body.
fn append_put(text: &mut Vec<u8>, k: u16, body: &[u8]) -> Mem<()>
    requires { body.now ≡ spec.document_body k }
    ensures { IfOk result (λ _. text.new.items ≡ text.old.items ++ spec.put_document k) }
{
    let mut folder = Buffer::new();
    let mut document = Buffer::new();
    let mut length = Buffer::new();
    append_all(
        text,
        &[
            b"PUT /load/c".as_slice(),
            folder.format(k / 4 % 100).as_bytes(),
            b"/d".as_slice(),
            document.format(k).as_bytes(),
            b".ttl HTTP/1.1\r\nHost: 127.0.0.1:8080\r\n".as_slice(),
            b"Content-Type: text/turtle\r\nContent-Length: ".as_slice(),
            length.format(body.len()).as_bytes(),
            b"\r\n\r\n".as_slice(),
            body,
        ],
    )
}

/// Appends the request k of the load that writes a document.
fn append_put_document(alloc: Global, text: &mut Vec<u8>, k: u16) -> Mem<()>
    ensures { IfOk result (λ _. text.new.items ≡ text.old.items ++ spec.put_document k) }
{
    let mut body = Vec::new(alloc);
    append_body(&mut body, k)?;
    append_put(text, k, body.as_slice())
}

/// Appends the request k of the load that reads a document.
fn append_get_document(text: &mut Vec<u8>, k: u16) -> Mem<()>
    ensures { IfOk result (λ _. text.new.items ≡ text.old.items ++ spec.get_document k) }
{
    let mut folder = Buffer::new();
    let mut document = Buffer::new();
    append_all(
        text,
        &[
            b"GET /load/c".as_slice(),
            folder.format(k / 4 % 100).as_bytes(),
            b"/d".as_slice(),
            document.format(k - k % 4).as_bytes(),
            b".ttl HTTP/1.1\r\nHost: 127.0.0.1:8080\r\n\r\n".as_slice(),
        ],
    )
}

/// Appends the request k of the load that adds a member whose body are these digits.
fn append_post(text: &mut Vec<u8>, k: u16, digits: &[u8]) -> Mem<()>
    requires { digits.now ≡ decimal k }
    ensures { IfOk result (λ _. text.new.items ≡ text.old.items ++ spec.post_member k) }
{
    let mut folder = Buffer::new();
    let mut length = Buffer::new();
    append_all(
        text,
        &[
            b"POST /load/c".as_slice(),
            folder.format(k / 4 % 100).as_bytes(),
            b"/ HTTP/1.1\r\nHost: 127.0.0.1:8080\r\nSlug: s\r\n".as_slice(),
            b"Content-Type: application/octet-stream\r\nContent-Length: ".as_slice(),
            length.format(digits.len()).as_bytes(),
            b"\r\n\r\n".as_slice(),
            digits,
        ],
    )
}

/// Appends the request k of the load that adds a member.
fn append_post_member(text: &mut Vec<u8>, k: u16) -> Mem<()>
    ensures { IfOk result (λ _. text.new.items ≡ text.old.items ++ spec.post_member k) }
{
    let mut digits = Buffer::new();
    append_post(text, k, digits.format(k).as_bytes())
}

/// Appends the request k of the load that reads a folder.
fn append_get_folder(text: &mut Vec<u8>, k: u16) -> Mem<()>
    ensures { IfOk result (λ _. text.new.items ≡ text.old.items ++ spec.get_folder k) }
{
    let mut folder = Buffer::new();
    append_all(
        text,
        &[
            b"GET /load/c".as_slice(),
            folder.format(k / 4 % 100).as_bytes(),
            b"/ HTTP/1.1\r\nHost: 127.0.0.1:8080\r\n\r\n".as_slice(),
        ],
    )
}

/// Appends request k of the load.
#[tactic(auto, unfolding(crate::specs::Streams::request_text))]
fn append_request(alloc: Global, text: &mut Vec<u8>, k: u16) -> Mem<()>
    ensures { IfOk result (λ _. text.new.items ≡ text.old.items ++ spec.request_text k) }
{
    match k % 4 {
        0 => append_put_document(alloc, text, k),
        1 => append_get_document(text, k),
        2 => append_post_member(text, k),
        _ => append_get_folder(text, k),
    }
}

/// The stream of so many requests of the load, as the bytes of one connection.
pub fn stream(alloc: Global, requests: u16) -> Mem<Vec<u8>>
    ensures { IfOk result (λ bytes. bytes.items ≡ spec.stream requests) }
{
    let mut text = Vec::new(alloc);
    for k in 0..requests {
        append_request(alloc, &mut text, k)?;
    }
    Ok(text)
}
