//! The words of a line.

ghost use Rattle.std.specs.Prelude.{◌≡◌, ◌++◌, ◌∷◌, IfOk, OnOk};
ghost use Rattle.audit_trail.specs.Lines as spec;

use itoa::Buffer;
use pod_base::{Agent, Bytes, Mem, Method, Moment, NoMemory};
use std::alloc::Global;

/// The word of an agent in a line of the trail, its IRI; `-` for anybody.
pub(crate) fn agent_word(agent: &Agent) -> &[u8]
    ensures { result.now ≡ spec.agent_word agent.now }
{
    match agent {
        Agent::Public => b"-",
        Agent::Known(iri) => iri.as_str().as_bytes(),
    }
}

/// The word of a method in a line of the trail, its name.
pub(crate) fn method_word(method: Method) -> &'static [u8]
    ensures { result.now ≡ spec.method_word method }
{
    match method {
        Method::Get => b"GET",
        Method::Head => b"HEAD",
        Method::Options => b"OPTIONS",
        Method::Post => b"POST",
        Method::Put => b"PUT",
        Method::Patch => b"PATCH",
        Method::Delete => b"DELETE",
        Method::Other => b"OTHER",
    }
}

/// Appends a word to a line of the trail, after a space. After an `Err` only a part may have been
/// appended.
pub(crate) fn append_word(line: &mut Vec<u8>, word: &[u8]) -> Mem<()>
    ensures { OnOk result (line.new.items ≡ line.old.items ++ 32 ∷ word.now) }
{
    line.push(b' ')?;
    line.extend_from_slice(word)?;
    Ok(())
}

/// Appends the first words of a line of the trail: a number, a moment, the agent and the method.
pub(crate) fn append_first(
    line: &mut Vec<u8>,
    number: u64,
    moment: Moment,
    agent: &Agent,
    method: Method,
) -> Mem<()>
    ensures { OnOk result (line.new.items
        ≡ line.old.items ++ spec.first_text number moment agent.now method) }
{
    let mut digits = Buffer::new();
    let mut seconds = Buffer::new();
    line.extend_from_slice(digits.format(number).as_bytes())?;
    append_word(line, seconds.format(moment.0).as_bytes())?;
    append_word(line, agent_word(agent))?;
    append_word(line, method_word(method))
}

/// The bytes of a line of the trail, once all its words are in it.
pub(crate) fn freeze(alloc: Global, line: Vec<u8>) -> Mem<Bytes>
    ensures { IfOk result (λ bytes. bytes ≡ line.items) }
{
    match Bytes::from_vec(alloc, line) {
        Ok(bytes) => Ok(bytes),
        Err(_line) => Err(NoMemory),
    }
}
