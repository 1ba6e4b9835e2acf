//! Tags, and verdicts on preconditions. In the values of fields `$t` and `$j` are the tags of 32
//! zeros, a dash and that mark.

use case_words::{bytes, known, method_of, number_of, shown};
use conditional_req::{Conditions, Current, Tag, judge, read_conditions, tag_of};
use pod_base::{Bytes, Field, Fields, Mem, Method, Moment};
use std::alloc::{AllocError, Global};
use stored_bytes::digest_of;

/// The tag of a representation.
pub(crate) fn tag(
    alloc: Global,
    ctype: &str,
    body: &str,
    mark: &str,
) -> Result<String, AllocError> {
    let body = bytes(alloc, body)?;
    let mark = mark.as_bytes().first().copied().unwrap_or(b'?');
    shown(
        alloc,
        tag_of(&digest_of(ctype, body.as_slice()), mark)
            .0
            .as_slice(),
    )
}

/// The tag of 32 zeros with a mark.
fn zeros(mark: u8) -> Tag {
    let mut text = [b'0'; 34];
    text[32] = b'-';
    text[33] = mark;
    Tag(text)
}

/// Appends a piece that follows a `$`: the tag of its mark, and what is after it.
fn push_tagged(value: &mut Vec<u8>, piece: &[u8]) -> Result<(), AllocError> {
    if let [mark, rest @ ..] = piece {
        value.extend_from_slice(zeros(*mark).0.as_slice())?;
        value.extend_from_slice(rest)?;
    }
    Ok(())
}

/// The bytes of a value, with the tags in it.
fn value_of(alloc: Global, text: &str) -> Result<Vec<u8>, AllocError> {
    let text = bytes(alloc, text)?;
    let mut value = Vec::new(alloc);
    let mut pieces = text.as_slice().split(|byte| *byte == b'$');
    if let Some(first) = pieces.next() {
        value.extend_from_slice(first)?;
    }
    for piece in pieces {
        push_tagged(&mut value, piece)?;
    }
    Ok(value)
}

/// Appends the field that `name: value` is.
fn add_field(alloc: Global, fields: &mut Fields, line: &str) -> Mem<()> {
    let (name, value) = line.split_once(": ").unwrap_or((line, ""));
    let value = value_of(alloc, value)?;
    let name = Bytes::of(alloc, name.as_bytes())?;
    let value = Bytes::of(alloc, value.as_slice())?;
    fields.add(alloc, Field { name, value })
}

/// The fields of some lines.
pub(crate) fn fields_of(alloc: Global, lines: &[&str]) -> Mem<Fields> {
    let mut fields = Fields::new(alloc);
    for line in lines {
        add_field(alloc, &mut fields, line)?;
    }
    Ok(fields)
}

/// The preconditions among the fields of some lines.
fn read(alloc: Global, lines: &[&str]) -> Mem<Conditions> {
    read_conditions(alloc, &fields_of(alloc, lines)?)
}

/// The verdict on a resource that was changed at that second and has tags with these marks.
fn verdict(
    alloc: Global,
    conditions: &Conditions,
    method: Method,
    second: &str,
    marks: &str,
) -> Result<String, AllocError> {
    let mut tags = Vec::new(alloc);
    for mark in marks.as_bytes() {
        tags.push(zeros(*mark))?;
    }
    let current = Current {
        tags: tags.as_slice(),
        modified: Moment(number_of(second)),
    };
    format!(in alloc; "{:?}", judge(conditions, method, Some(&current)))
}

/// The verdict on the preconditions of some lines.
pub(crate) fn judged(
    alloc: Global,
    word: &str,
    second: &str,
    marks: &str,
    lines: &[&str],
) -> Result<String, AllocError> {
    let conditions = known(read(alloc, lines))?;
    if second == "none" {
        return format!(in alloc; "{:?}", judge(&conditions, method_of(word), None));
    }
    verdict(alloc, &conditions, method_of(word), second, marks)
}

/// Whether the preconditions of some lines need a reader.
pub(crate) fn needs_read(alloc: Global, lines: &[&str]) -> Result<String, AllocError> {
    let conditions = known(read(alloc, lines))?;
    format!(in alloc; "{}", conditions.needs_read())
}
