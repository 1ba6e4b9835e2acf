//! What a case holds between two steps.

use crate::link::{Action, Flags, ScriptLink};
use case_words::{first_word, number_of, numbers_of};
use pod_base::{List, Mem, NoMemory};
use pod_io::MemGate;
use std::alloc::Global;
use std::mem;
use std::sync::Arc;
use std::sync::atomic::AtomicU64;

/// A call that is to fail: the word of its object, and its number from 1.
#[derive(Drop)]
pub(crate) struct Fault {
    object: String,
    call: u64,
}

impl Fault {
    /// No fault.
    pub(crate) fn none(alloc: Global) -> Fault {
        Fault {
            object: String::new(alloc),
            call: 0,
        }
    }

    /// A fault `OBJECT N`.
    pub(crate) fn of(alloc: Global, words: &str) -> Mem<Fault> {
        let (object, call) = first_word(words);
        Ok(Fault {
            object: String::from_str(alloc, object)?,
            call: number_of(call),
        })
    }

    /// The numbers of the calls of an object that fail.
    pub(crate) fn calls(&self, alloc: Global, object: &str) -> Mem<Vec<u64>> {
        let mut numbers = Vec::new(alloc);
        if self.call > 0 && self.object.as_str() == object {
            numbers.push(self.call)?;
        }
        Ok(numbers)
    }
}

/// The bytes of two disks and of the token table, and the gates and connections of what is served
/// next.
#[derive(Drop)]
pub(crate) struct Held {
    pub(crate) first: Vec<u8>,
    pub(crate) second: Vec<u8>,
    pub(crate) tokens: Vec<u8>,
    pub(crate) fault: Fault,
    pub(crate) gates: List<MemGate<ScriptLink>>,
    links: List<ScriptLink>,
    flags: Flags,
}

/// The bit of a flag.
fn flag(word: &str) -> u64 {
    1 << (number_of(word) % 64)
}

/// The bits of flags, which are separated by spaces.
pub(crate) fn flags(words: &str) -> u64 {
    let mut bits: u64 = 0;
    for word in words.split(' ') {
        bits |= flag(word);
    }
    bits
}

impl Held {
    /// Two empty disks, an empty token table, no gates, and no flag that is raised.
    pub(crate) fn new(alloc: Global) -> Mem<Held> {
        Ok(Held {
            first: Vec::new(alloc),
            second: Vec::new(alloc),
            tokens: Vec::new(alloc),
            fault: Fault::none(alloc),
            gates: List::new(alloc),
            links: List::new(alloc),
            flags: Arc::new(alloc, AtomicU64::new(0))?,
        })
    }

    /// Changes a byte of the first disk: `AT VALUE`.
    pub(crate) fn damage(&mut self, words: &str) {
        let (at, value) = first_word(words);
        let value = value.parse::<u8>().unwrap_or(0);
        if let Some(byte) = self.first.get_mut(number_of(at) as usize) {
            *byte = value;
        }
    }

    /// Begins a connection of that name.
    pub(crate) fn add_link(&mut self, alloc: Global, name: &str) -> Mem<()> {
        let link = ScriptLink::new(alloc, name, &self.flags)?;
        match self.links.push(alloc, link) {
            Ok(()) => Ok(()),
            Err(_link) => Err(NoMemory),
        }
    }

    /// The connection that was begun last.
    pub(crate) fn last_link(&mut self) -> Option<&mut ScriptLink> {
        self.links.as_mut_slice().last_mut()
    }

    /// Adds an action to the last connection.
    pub(crate) fn act(&mut self, action: Action) -> Mem<()> {
        match self.last_link() {
            Some(link) => link.push(action),
            None => Ok(()),
        }
    }

    /// Makes a gate of the connections since the last one, of which the calls of these numbers
    /// fail.
    pub(crate) fn add_gate(&mut self, alloc: Global, calls: &str) -> Mem<()> {
        let calls = numbers_of(alloc, calls, ' ')?;
        let links = mem::replace(&mut self.links, List::new(alloc));
        let gate = MemGate::new(alloc, links, calls)?;
        match self.gates.push(alloc, gate) {
            Ok(()) => Ok(()),
            Err(_gate) => Err(NoMemory),
        }
    }
}
