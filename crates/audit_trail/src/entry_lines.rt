//! The line of a change.

ghost use Rattle.std.specs.Prelude.{◌≡◌, ◌++◌, ◌∷◌, [], decimal, length, IfOk, OnOk};
ghost use Rattle.audit_trail.specs.Lines as spec;

use crate::basis_text::{append_bases, bases_len};
use crate::line_lengths::{number_len, total};
use crate::line_words::{agent_word, append_first, append_word, freeze, method_word};
use itoa::Buffer;
use pod_base::{Bytes, Mem};
use pod_command::Entry;
use std::alloc::Global;

/// The spaces between the line's eight first words, and its LF.
const SEPARATORS: usize = 8;

/// How many bytes the line of an entry's change has.
fn entry_len(entry: &Entry) -> usize {
    total(&[
        number_len(entry.seq),
        number_len(entry.moment.0),
        agent_word(&entry.agent).len(),
        method_word(entry.method).len(),
        entry.path.as_str().len(),
        number_len(entry.conn),
        number_len(entry.number),
        number_len(entry.edits.as_slice().len() as u64),
        bases_len(entry.bases.as_slice()),
        SEPARATORS,
    ])
}

/// Appends to an entry's line the path, the connection, the request's number in it, and how many
/// edits there are.
fn append_change(line: &mut Vec<u8>, entry: &Entry) -> Mem<()>
    ensures { OnOk result (line.new.items ≡ line.old.items ++ spec.spaced
        (entry.now.path ∷ decimal entry.now.conn ∷ decimal entry.now.number
        ∷ decimal (length entry.now.edits.items) ∷ [])) }
{
    let mut conn = Buffer::new();
    let mut number = Buffer::new();
    let mut count = Buffer::new();
    append_word(line, entry.path.as_str().as_bytes())?;
    append_word(line, conn.format(entry.conn).as_bytes())?;
    append_word(line, number.format(entry.number).as_bytes())?;
    append_word(line, count.format(entry.edits.as_slice().len()).as_bytes())
}

/// The line of a change in the audit trail, by its entry.
///
/// It has the number of the entry, the moment, the agent, the method, the path, the connection, the
/// number of the request in it, the count of edits, and each basis, or `-` where there is none; one
/// space between, and LF at its end. Anybody is `-`.
pub fn entry_line(alloc: Global, entry: &Entry) -> Mem<Bytes>
    ensures { IfOk result (λ line. line ≡ spec.entry_line entry.now) }
{
    let mut line = Vec::with_capacity(alloc, entry_len(entry))?;
    append_first(
        &mut line,
        entry.seq,
        entry.moment,
        &entry.agent,
        entry.method,
    )?;
    append_change(&mut line, entry)?;
    append_bases(alloc, &mut line, entry.bases.as_slice())?;
    line.push(b'\n')?;
    freeze(alloc, line)
}
