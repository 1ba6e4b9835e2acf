//! What a case of steps holds between two steps, and how a step changes it.

use crate::runs::{Run, Streams, run_with};
use crate::stores::{INIT, Store};
use case_words::{first_word, number_of, push_hex};
use pod_base::Mem;
use std::alloc::Global;

/// A store, the token table and the input of what is run next, frames that were shipped, and how
/// many bytes a read gives and a write takes.
#[derive(Drop)]
pub(crate) struct Held {
    pub(crate) store: Store,
    pub(crate) tokens: Vec<u8>,
    pub(crate) input: Vec<u8>,
    pub(crate) frames: Vec<u8>,
    read: usize,
    write: usize,
}

/// Adds a record after the last gate, which is the last byte: a gate 1, the length, the body, whose
/// pieces these are, and a gate 0.
pub(crate) fn add_record(alloc: Global, disk: &mut Vec<u8>, pieces: &str) -> Mem<()> {
    let mut body = Vec::new(alloc);
    for piece in pieces.split('|') {
        push_hex(&mut body, piece)?;
    }
    let _gate = disk.pop();
    disk.push(1)?;
    disk.extend_from_slice(&(body.len() as u64).to_be_bytes())?;
    disk.extend_from_slice(&body)?;
    disk.push(0)?;
    Ok(())
}

impl Held {
    /// Nothing, with these sizes.
    pub(crate) fn new(alloc: Global, read: usize, write: usize) -> Held {
        Held {
            store: Store::empty(alloc),
            tokens: Vec::new(alloc),
            input: Vec::new(alloc),
            frames: Vec::new(alloc),
            read,
            write,
        }
    }

    /// Runs `podctl` on an input, with a fault: `OBJECT N`, of which what follows says no more.
    pub(crate) fn run_on(&self, alloc: Global, words: &str, input: &[u8], fault: &str) -> Mem<Run> {
        let words = if words == "init" { INIT } else { words };
        let (object, rest) = first_word(fault);
        let (call, _words) = first_word(rest);
        let streams = Streams {
            read: self.read,
            write: self.write,
            object,
            call: number_of(call),
        };
        run_with(alloc, words, &self.store, &self.tokens, input, streams)
    }

    /// The disk of a word.
    fn side(&mut self, word: &str) -> &mut Vec<u8> {
        match word {
            "second" => &mut self.store.second,
            _ => &mut self.store.first,
        }
    }

    /// Changes a byte: `SIDE AT VALUE`.
    pub(crate) fn change(&mut self, words: &str) {
        let (side, rest) = first_word(words);
        let (at, value) = first_word(rest);
        let value = value.parse::<u8>().unwrap_or(0);
        if let Some(byte) = self.side(side).get_mut(number_of(at) as usize) {
            *byte = value;
        }
    }

    /// Cuts a disk: `SIDE LEN`.
    pub(crate) fn cut(&mut self, words: &str) {
        let (side, len) = first_word(words);
        self.side(side).truncate(number_of(len) as usize);
    }

    /// How many bytes a disk has.
    pub(crate) fn len(&mut self, word: &str) -> usize {
        self.side(word).len()
    }
}
