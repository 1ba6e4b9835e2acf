//! The parts of a read, from the head of its bytes: each function returns a value and the bytes
//! after it.
ghost use Rattle.std.specs.Prelude.{◌≡◌};
ghost use Rattle.stored_forms.specs.Readers.{Gives, byte_at, number_at, piece_at};
ghost use Rattle.stored_forms.specs.Reading.{agent_after, agent_at, text_at};
ghost use Rattle.podctl_commands.specs.Heads.{head_of, read_head_at};

use pod_base::{Agent, Text};
use pod_follow::{split_number, split_piece};
use std::alloc::Global;
use stored_forms::ReadBack;

/// The first byte of a read.
const READ: u8 = 3;

/// The first byte of a part of a read.
fn byte_of(bytes: &[u8]) -> Result<(u8, &[u8]), ReadBack>
    ensures { Gives (λ x. (x.0, x.1.now)) result (byte_at bytes.now) }
{
    match bytes.split_first() {
        Some((first, rest)) => Ok((*first, rest)),
        None => Err(ReadBack::NotCanonical),
    }
}

/// The number that is the next part of a read.
fn number_of(bytes: &[u8]) -> Result<(u64, &[u8]), ReadBack>
    ensures { Gives (λ x. (x.0, x.1.now)) result (number_at bytes.now) }
{
    match split_number(bytes) {
        Some(parts) => Ok(parts),
        None => Err(ReadBack::NotCanonical),
    }
}

/// The bytes after their number that are the next part of a read.
fn piece_of(bytes: &[u8]) -> Result<(&[u8], &[u8]), ReadBack>
    ensures { Gives (λ x. (x.0.now, x.1.now)) result (piece_at bytes.now) }
{
    match split_piece(bytes) {
        Some(parts) => Ok(parts),
        None => Err(ReadBack::NotCanonical),
    }
}

/// The text that is the next part of a read, lent by the bytes.
#[tactic(auto, unfolding(stored_forms::specs::Reading::text_at))]
fn str_of(bytes: &[u8]) -> Result<(&str, &[u8]), ReadBack>
    ensures { Gives (λ x. (x.0.now, x.1.now)) result (text_at bytes.now) }
{
    let (piece, rest) = piece_of(bytes)?;
    match str::from_utf8(piece) {
        Ok(text) => Ok((text, rest)),
        Err(_) => Err(ReadBack::NotCanonical),
    }
}

/// The text that is the next part of a read.
fn text_of(alloc: Global, bytes: &[u8]) -> Result<(Text, &[u8]), ReadBack>
    ensures { Gives (λ x. (x.0, x.1.now)) result (text_at bytes.now) }
{
    let (text, rest) = str_of(bytes)?;
    let text = Text::of(alloc, text)?;
    Ok((text, rest))
}

/// The agent that is the next part of a read, after its first byte.
#[tactic(auto, unfolding(stored_forms::specs::Reading::agent_after))]
fn agent_after(alloc: Global, tag: u8, bytes: &[u8]) -> Result<(Agent, &[u8]), ReadBack>
    ensures { Gives (λ x. (x.0, x.1.now)) result (agent_after tag bytes.now) }
{
    match tag {
        0 => Ok((Agent::Public, bytes)),
        1 => {
            let (iri, rest) = text_of(alloc, bytes)?;
            Ok((Agent::Known(iri), rest))
        }
        _ => Err(ReadBack::NotCanonical),
    }
}

/// The agent that is the next part of a read.
#[tactic(auto, unfolding(stored_forms::specs::Reading::agent_at))]
fn agent_of(alloc: Global, bytes: &[u8]) -> Result<(Agent, &[u8]), ReadBack>
    ensures { Gives (λ x. (x.0, x.1.now)) result (agent_at bytes.now) }
{
    let (tag, rest) = byte_of(bytes)?;
    agent_after(alloc, tag, rest)
}

/// The parts of a read before its request, which are the agent and the moment, and the bytes of the
/// request.
#[tactic(auto, unfolding(crate::specs::Heads::read_head_at))]
pub(crate) fn read_head(alloc: Global, body: &[u8]) -> Result<(Agent, u64, &[u8]), ReadBack>
    ensures { Gives (λ x. (head_of (x.0, x.1), x.2.now)) result (read_head_at body.now) }
{
    let (kind, rest) = byte_of(body)?;
    if kind != READ {
        return Err(ReadBack::NotCanonical);
    }
    let (agent, rest) = agent_of(alloc, rest)?;
    let (moment, rest) = number_of(rest)?;
    Ok((agent, moment, rest))
}
