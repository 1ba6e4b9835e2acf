//! The bytes of a disk, as a field. `journal FORMAT EPOCH GATE` spells a head and a first gate, and
//! each `BODY GATE` after it a record and the gate that follows it. `cut LEN` before it cuts it to
//! that length. Any other field is the bytes as they are.

use case_words::{bytes, first_word, number_of};
use pod_base::Mem;
use std::alloc::Global;

/// Appends a record: the length of its body, and the body.
pub(crate) fn push_record(image: &mut Vec<u8>, body: &[u8]) -> Mem<()> {
    image.extend_from_slice(&(body.len() as u64).to_be_bytes())?;
    image.extend_from_slice(body)?;
    Ok(())
}

/// Appends gates and records, a word each and in turns.
fn push_records(image: &mut Vec<u8>, words: &str) -> Mem<()> {
    let mut is_gate = true;
    for word in words.split(' ') {
        if is_gate {
            image.push(word.parse::<u8>().unwrap_or(0))?;
        } else {
            push_record(image, word.as_bytes())?;
        }
        is_gate = !is_gate;
    }
    Ok(())
}

fn journal(alloc: Global, words: &str) -> Mem<Vec<u8>> {
    let (format, rest) = first_word(words);
    let (epoch, rest) = first_word(rest);
    let mut image = Vec::from_slice(alloc, b"PODJRNL")?;
    image.extend_from_slice(format.as_bytes())?;
    image.extend_from_slice(&number_of(epoch).to_be_bytes())?;
    push_records(&mut image, rest)?;
    Ok(image)
}

fn whole(alloc: Global, field: &str) -> Mem<Vec<u8>> {
    match field.strip_prefix("journal ") {
        Some(words) => journal(alloc, words),
        None => Ok(bytes(alloc, field)?),
    }
}

/// The bytes of a field.
pub(crate) fn image(alloc: Global, field: &str) -> Mem<Vec<u8>> {
    match field.strip_prefix("cut ") {
        Some(rest) => {
            let (len, rest) = first_word(rest);
            let mut image = whole(alloc, rest)?;
            image.truncate(number_of(len) as usize);
            Ok(image)
        }
        None => whole(alloc, field),
    }
}
