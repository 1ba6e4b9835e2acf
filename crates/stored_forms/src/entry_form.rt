//! The stored forms of entries, in both formats.
ghost use Rattle.std.specs.Prelude.{◌≡◌, ◌++◌, ◌∷◌, [], length, IfOk, IsErrOf, OnOk};
ghost use Rattle.rdf_graph.specs.Size.{saturated};
ghost use Rattle.pod_command.specs.Bare.{bare_entry, without_bases};
ghost use Rattle.pod_command.specs.Encodable.{IsChanging, IsEncodable};
ghost use Rattle.stored_forms.specs.Readers.{Gives};
ghost use Rattle.stored_forms.specs.Reading.{agent_after, agent_at, entry_1_in, entry_in};
ghost use Rattle.stored_forms.specs.Reading.{made_entry};
ghost use Rattle.stored_forms.specs.Reading.{method_after, method_at, new_entry_at};
ghost use Rattle.stored_forms.specs.Reading.{old_entry_at, origin_at, request_at};
ghost use Rattle.stored_forms.specs.Storable.{IsStorable, IsStorableAgent, IsNumber, IsPathText};
ghost use Rattle.stored_forms.specs.StoredForms.{agent_bytes, entry_1_bytes, entry_bytes};
ghost use Rattle.stored_forms.specs.StoredForms.{method_byte, origin_bytes, request_bytes};
ghost use Rattle.pod_command.specs.declared.entry.Entry.{Entry};
ghost use Rattle.stored_forms.specs.declared.read_back.ReadBack.TheVariants.{NotCanonical};

use crate::list_form::{list_of, list_size, put_list};
use crate::primitive_reading::{byte_of, number_of, path_of, text_of};
use crate::primitive_writing::{
    after_byte, byte_size, number_size, piece_size, plus, put_byte, put_number, put_path, put_text,
};
use crate::read_back::ReadBack;
use pod_base::{Agent, Bytes, List, Mem, Method, Moment, NoMemory};
use pod_command::{Basis, Edit, Entry};
use pod_path::Path;
use std::alloc::Global;

/// Who made a change.
#[derive(Drop)]
struct Origin {
    seq: u64,
    conn: u64,
    number: u64,
    agent: Agent,
}

/// What was requested.
#[derive(Drop)]
struct Requested {
    moment: u64,
    method: Method,
    path: Path,
}

/// The stored form of an entry, in format 2.
pub fn encode_entry(alloc: Global, e: &Entry) -> Mem<Bytes>
    requires { IsEncodable e.now }
    ensures form { IfOk result (λ bytes. bytes ≡ entry_bytes e.now) }

    // So `decode_entry` doesn't refuse it.
    ensures storable { IfOk result (λ _. IsStorable e.now) }
{
    let mut out = Vec::with_capacity(alloc, entry_size(e) as usize)?;
    put_entry(&mut out, e)?;
    match Bytes::from_vec(alloc, out) {
        Ok(bytes) => Ok(bytes),
        Err(_bytes) => Err(NoMemory),
    }
}

/// The size of an entry's stored form in format 2, or 2^64 - 1 where that is less.
#[tactic(auto, unfolding(crate::specs::StoredForms::entry_bytes))]
pub fn entry_size(e: &Entry) -> u64
    ensures { result ≡ saturated (length (entry_bytes e.now)) }
{
    let lists = plus(list_size(e.edits.as_slice()), list_size(e.bases.as_slice()));
    let rest = plus(request_size(e), lists);
    let rest = plus(origin_size(e), rest);
    after_byte(rest)
}

/// The entry whose stored form in format 2 the bytes are.
///
/// # Errors
///
/// `NotCanonical` exactly where they are the form of no entry.
pub fn decode_entry(alloc: Global, bytes: &[u8]) -> Result<Entry, ReadBack>
    ensures form { IfOk result (λ e. bytes.now ≡ entry_bytes e) }
    ensures storable { IfOk result (λ e. IsStorable e) }
    ensures encodable { IfOk result (λ e. IsEncodable e) }

    // It is the only one, and its lists have no spare room.
    ensures only { IfOk result (λ found. (e : Entry) → IsStorable e → bytes.now ≡ entry_bytes e
        → found ≡ bare_entry e) }
    ensures refused { IsErrOf result NotCanonical → (e : Entry) → IsStorable e
        → bytes.now ≡ entry_bytes e → ⊥ }
{
    entry_in(alloc, bytes)
}

/// The entry whose stored form in format 1 the bytes are, without bases.
///
/// # Errors
///
/// `NotCanonical` exactly where they are the form of no entry.
pub fn decode_entry_1(alloc: Global, bytes: &[u8]) -> Result<Entry, ReadBack>
    ensures form { IfOk result (λ e. bytes.now ≡ entry_1_bytes e) }
    ensures bases { IfOk result (λ e. e.bases.items ≡ []) }
    ensures storable { IfOk result (λ e. IsStorable e) }
    ensures encodable { IfOk result (λ e. IsEncodable e) }

    // It is the only one without bases, and its lists have no spare room.
    ensures only { IfOk result (λ found. (e : Entry) → IsStorable e → bytes.now ≡ entry_1_bytes e
        → found ≡ without_bases e) }
    ensures refused { IsErrOf result NotCanonical → (e : Entry) → IsStorable e
        → bytes.now ≡ entry_1_bytes e → ⊥ }
{
    entry_1_in(alloc, bytes)
}

/// Appends the stored form of an entry in format 2.
#[tactic(auto, unfolding(crate::specs::StoredForms::entry_bytes))]
fn put_entry(out: &mut Vec<u8>, e: &Entry) -> Mem<()>
    requires { IsEncodable e.now }
    ensures form { OnOk result (out.new.items ≡ out.old.items ++ entry_bytes e.now) }
    ensures storable { OnOk result (IsStorable e.now) }
{
    put_byte(out, 2)?;
    put_origin(out, e)?;
    put_request(out, e)?;
    put_list(out, e.edits.as_slice())?;
    put_list(out, e.bases.as_slice())
}

/// Appends the part of an entry's stored form that says who made the change.
#[tactic(auto, unfolding(crate::specs::StoredForms::origin_bytes))]
fn put_origin(out: &mut Vec<u8>, e: &Entry) -> Mem<()>
    ensures form { OnOk result (out.new.items ≡ out.old.items ++ origin_bytes e.now) }
    ensures seq { OnOk result (IsNumber e.now.seq) }
    ensures conn { OnOk result (IsNumber e.now.conn) }
    ensures number { OnOk result (IsNumber e.now.number) }
    ensures agent { OnOk result (IsStorableAgent e.now.agent) }
{
    put_number(out, e.seq)?;
    put_number(out, e.conn)?;
    put_number(out, e.number)?;
    put_agent(out, &e.agent)
}

/// Appends the part of an entry's stored form that says what was requested.
#[tactic(auto, unfolding(crate::specs::StoredForms::request_bytes))]
fn put_request(out: &mut Vec<u8>, e: &Entry) -> Mem<()>
    ensures form { OnOk result (out.new.items ≡ out.old.items ++ request_bytes e.now) }
    ensures moment { OnOk result (IsNumber e.now.moment.0) }
    ensures path { OnOk result (IsPathText e.now.path) }
{
    put_number(out, e.moment.0)?;
    put_byte(out, method_byte(e.method))?;
    put_path(out, &e.path)
}

/// Appends the stored form of an entry's agent.
#[tactic(auto, unfolding(crate::specs::StoredForms::agent_bytes))]
fn put_agent(out: &mut Vec<u8>, agent: &Agent) -> Mem<()>
    ensures form { OnOk result (out.new.items ≡ out.old.items ++ agent_bytes agent.now) }
    ensures storable { OnOk result (IsStorableAgent agent.now) }
{
    match agent {
        Agent::Public => put_byte(out, 0),
        Agent::Known(iri) => {
            put_byte(out, 1)?;
            put_text(out, iri)
        }
    }
}

/// The byte of a method in an entry's stored form. No entry that can be stored has another than the
/// first four.
fn method_byte(method: Method) -> u8
    ensures { result ≡ method_byte method }
{
    match method {
        Method::Post => 0,
        Method::Put => 1,
        Method::Patch => 2,
        Method::Delete => 3,
        Method::Get | Method::Head | Method::Options | Method::Other => 4,
    }
}

/// The size of the part of an entry's stored form that says who made the change.
#[tactic(auto, unfolding(crate::specs::StoredForms::origin_bytes))]
fn origin_size(e: &Entry) -> u64
    ensures { result ≡ saturated (length (origin_bytes e.now)) }
{
    let rest = plus(number_size(), agent_size(&e.agent));
    let rest = plus(number_size(), rest);
    plus(number_size(), rest)
}

/// The size of the part of an entry's stored form that says what was requested.
#[tactic(auto, unfolding(crate::specs::StoredForms::request_bytes))]
fn request_size(e: &Entry) -> u64
    ensures { result ≡ saturated (length (request_bytes e.now)) }
{
    let rest = after_byte(piece_size(e.path.as_str().as_bytes()));
    plus(number_size(), rest)
}

/// The size of the stored form of an entry's agent.
#[tactic(auto, unfolding(crate::specs::StoredForms::agent_bytes))]
fn agent_size(agent: &Agent) -> u64
    ensures { result ≡ saturated (length (agent_bytes agent.now)) }
{
    match agent {
        Agent::Public => byte_size(),
        Agent::Known(iri) => after_byte(piece_size(iri.as_str().as_bytes())),
    }
}

/// Reads the entry whose stored form in format 2 all of the bytes are.
#[tactic(auto, unfolding(crate::specs::Reading::entry_in))]
fn entry_in(alloc: Global, bytes: &[u8]) -> Result<Entry, ReadBack>
    ensures { Gives (λ e. e) result (entry_in bytes.now) }
{
    let (format, rest) = byte_of(bytes)?;
    if format != 2 {
        return Err(ReadBack::NotCanonical);
    }
    let (entry, rest) = new_entry(alloc, rest)?;
    if !rest.is_empty() {
        return Err(ReadBack::NotCanonical);
    }
    Ok(entry)
}

/// Reads the entry whose stored form in format 1 all of the bytes are.
#[tactic(auto, unfolding(crate::specs::Reading::entry_1_in))]
fn entry_1_in(alloc: Global, bytes: &[u8]) -> Result<Entry, ReadBack>
    ensures { Gives (λ e. e) result (entry_1_in bytes.now) }
{
    let (format, rest) = byte_of(bytes)?;
    if format != 1 {
        return Err(ReadBack::NotCanonical);
    }
    let (entry, rest) = old_entry(alloc, rest)?;
    if !rest.is_empty() {
        return Err(ReadBack::NotCanonical);
    }
    Ok(entry)
}

/// Reads an entry in format 2 from its stored form after the first byte.
#[tactic(auto, unfolding(crate::specs::Reading::new_entry_at))]
fn new_entry(alloc: Global, bytes: &[u8]) -> Result<(Entry, &[u8]), ReadBack>
    ensures { Gives (λ x. (x.0, x.1.now)) result (new_entry_at bytes.now) }
{
    let (origin, rest) = origin_of(alloc, bytes)?;
    let (requested, rest) = request_of(alloc, rest)?;
    let (edits, rest) = list_of(alloc, rest)?;
    let (bases, rest) = list_of(alloc, rest)?;
    let edits = List::from_vec(edits);
    let bases = List::from_vec(bases);
    Ok((entry_of(origin, requested, edits, bases), rest))
}

/// Reads an entry in format 1 from its stored form after the first byte.
#[tactic(auto, unfolding(crate::specs::Reading::old_entry_at))]
fn old_entry(alloc: Global, bytes: &[u8]) -> Result<(Entry, &[u8]), ReadBack>
    ensures { Gives (λ x. (x.0, x.1.now)) result (old_entry_at bytes.now) }
{
    let (origin, rest) = origin_of(alloc, bytes)?;
    let (requested, rest) = request_of(alloc, rest)?;
    let (edits, rest) = list_of(alloc, rest)?;
    let edits = List::from_vec(edits);
    Ok((entry_of(origin, requested, edits, List::new(alloc)), rest))
}

/// The entry of the parts that were read from its stored form.
fn entry_of(origin: Origin, requested: Requested, edits: List<Edit>, bases: List<Basis>) -> Entry
    ensures { result ≡ made_entry (origin.seq, (origin.conn, (origin.number, origin.agent)))
        (requested.moment, (requested.method, requested.path)) edits bases }
{
    Entry {
        seq: origin.seq,
        conn: origin.conn,
        number: origin.number,
        agent: origin.agent,
        moment: Moment(requested.moment),
        method: requested.method,
        path: requested.path,
        edits,
        bases,
    }
}

/// Reads from an entry's stored form who made the change.
#[tactic(auto, unfolding(crate::specs::Reading::origin_at))]
fn origin_of(alloc: Global, bytes: &[u8]) -> Result<(Origin, &[u8]), ReadBack>
    ensures { Gives (λ x. ((x.0.seq, (x.0.conn, (x.0.number, x.0.agent))), x.1.now)) result
        (origin_at bytes.now) }
{
    let (seq, rest) = number_of(bytes)?;
    let (conn, rest) = number_of(rest)?;
    let (number, rest) = number_of(rest)?;
    let (agent, rest) = agent_of(alloc, rest)?;
    let origin = Origin {
        seq,
        conn,
        number,
        agent,
    };
    Ok((origin, rest))
}

/// Reads from an entry's stored form what was requested.
#[tactic(auto, unfolding(crate::specs::Reading::request_at))]
fn request_of(alloc: Global, bytes: &[u8]) -> Result<(Requested, &[u8]), ReadBack>
    ensures { Gives (λ x. ((x.0.moment, (x.0.method, x.0.path)), x.1.now)) result
        (request_at bytes.now) }
{
    let (moment, rest) = number_of(bytes)?;
    let (method, rest) = method_of(rest)?;
    let (path, rest) = path_of(alloc, rest)?;
    let requested = Requested {
        moment,
        method,
        path,
    };
    Ok((requested, rest))
}

/// Reads an entry's agent from its stored form.
#[tactic(auto, unfolding(crate::specs::Reading::agent_at))]
fn agent_of(alloc: Global, bytes: &[u8]) -> Result<(Agent, &[u8]), ReadBack>
    ensures { Gives (λ x. (x.0, x.1.now)) result (agent_at bytes.now) }
{
    let (tag, rest) = byte_of(bytes)?;
    agent_after(alloc, tag, rest)
}

/// Reads an entry's agent from its stored form after the first byte.
#[tactic(auto, unfolding(crate::specs::Reading::agent_after))]
fn agent_after(alloc: Global, tag: u8, bytes: &[u8]) -> Result<(Agent, &[u8]), ReadBack>
    ensures { Gives (λ x. (x.0, x.1.now)) result (agent_after tag bytes.now) }
{
    match tag {
        0 => Ok((Agent::Public, bytes)),
        1 => {
            let (iri, rest) = text_of(alloc, bytes)?;
            Ok((Agent::Known(iri), rest))
        }
        _ => Err(ReadBack::NotCanonical),
    }
}

/// Reads the method from an entry's stored form, one that changes a pod.
#[tactic(auto, unfolding(crate::specs::Reading::method_at))]
fn method_of(bytes: &[u8]) -> Result<(Method, &[u8]), ReadBack>
    ensures { Gives (λ x. (x.0, x.1.now)) result (method_at bytes.now) }
{
    let (tag, rest) = byte_of(bytes)?;
    method_after(tag, rest)
}

/// The method of a byte in an entry's stored form.
#[tactic(auto, unfolding(crate::specs::Reading::method_after))]
fn method_after(tag: u8, bytes: &[u8]) -> Result<(Method, &[u8]), ReadBack>
    ensures { Gives (λ x. (x.0, x.1.now)) result (method_after tag bytes.now) }
{
    match tag {
        0 => Ok((Method::Post, bytes)),
        1 => Ok((Method::Put, bytes)),
        2 => Ok((Method::Patch, bytes)),
        3 => Ok((Method::Delete, bytes)),
        _ => Err(ReadBack::NotCanonical),
    }
}
