//! The line of an answered request.

ghost use Rattle.std.specs.Prelude.{◌≡◌, ◌++◌, ◌∷◌, [], decimal, IfOk, OnOk};
ghost use Rattle.audit_trail.specs.Lines as spec;

use crate::line_lengths::{number_len, total};
use crate::line_words::{agent_word, append_first, append_word, freeze, method_word};
use crate::target_text::{append_target, target_len};
use itoa::Buffer;
use pod_base::{Agent, Bytes, Mem, Moment, Request};
use std::alloc::Global;

/// The words between the line's five spaces, and its LF.
const SEPARATORS: usize = 6;

/// How many bytes the line of a session's request has.
fn session_len(place: u64, moment: Moment, agent: &Agent, request: &Request, status: u16) -> usize {
    total(&[
        number_len(place),
        number_len(moment.0),
        agent_word(agent).len(),
        method_word(request.method).len(),
        target_len(request.target.as_slice()),
        number_len(u64::from(status)),
        SEPARATORS,
    ])
}

/// Appends to the trail's line of a session a space, the target, and the status with the end of the
/// line.
fn append_outcome(line: &mut Vec<u8>, target: &[u8], status: u16) -> Mem<()>
    ensures { OnOk result (line.new.items
        ≡ line.old.items
        ++ (32 ∷ (spec.target_word target.now ++ 32 ∷ (decimal status ++ 10 ∷ [])))) }
{
    let mut digits = Buffer::new();
    line.push(b' ')?;
    append_target(line, target)?;
    append_word(line, digits.format(status).as_bytes())?;
    line.push(b'\n')?;
    Ok(())
}

/// The trail's line of a session's request that was answered at a place of the history.
///
/// It has the place, the moment, the agent, the method, the target and the status, one space
/// between, and ends in LF. Anybody is `-`, also where a token was refused. A method that the
/// server doesn't know is `OTHER`. Bytes of the target outside `!` to `~` are escaped by `%` and
/// two upper-case digits.
pub fn session_line(
    alloc: Global,
    place: u64,
    moment: Moment,
    agent: &Agent,
    request: &Request,
    status: u16,
) -> Mem<Bytes>
    ensures { IfOk result
        (λ line. line ≡ spec.session_line place moment agent.now request.now status) }
{
    let len = session_len(place, moment, agent, request, status);
    let mut line = Vec::with_capacity(alloc, len)?;
    append_first(&mut line, place, moment, agent, request.method)?;
    append_outcome(&mut line, request.target.as_slice(), status)?;
    freeze(alloc, line)
}
