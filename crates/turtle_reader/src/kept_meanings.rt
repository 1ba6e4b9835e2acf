//! [`KeptMeanings`]: what a reader keeps of the lexemes that it has read.

ghost use Rattle.std.specs.Prelude.{◌≡◌, ◌++◌, ◌∷◌, [], ℕ, List, IfSome, IfNone, OnOk};
ghost use Rattle.turtle_reader.specs.Kept.{AreKept, FindsIn, Has, DropsUnnamed, ShortensTo};
ghost use Rattle.turtle_reader.specs.Kept.{entries, is_referred_to, with_meaning};

use crate::meaning::Meaning;
use pod_base::Mem;
use std::alloc::Global;
use turtle_grammar::{Machine, Symbol};
use turtle_lex::TokenKind;

/// The meaning of the lexeme of an index.
#[derive(Debug, Drop)]
pub struct Kept {
    index: usize,
    meaning: Meaning,
}

/// How many are kept beyond those that stayed before the next are dropped, after a lexeme that
/// means nothing. After one that is kept itself it is twice that: a production may name it yet.
const SPARE: usize = 8;

/// The meanings of those lexemes to which a later production may refer, by increasing index: a
/// subject and a predicate for each open bracket and outside, a String with its datatype, and more
/// that wait to be dropped together. After a dot all of its statement are dropped.
#[derive(Drop)]
pub struct KeptMeanings {
    list: Vec<Kept>,
    /// How many may stay after a lexeme that means nothing.
    room: usize,
    /// From how many on some are dropped before the next lexeme.
    due: usize,
}

/// Whether a meaning is kept, since a production can refer to its lexeme.
fn is_referred_to(meaning: &Meaning) -> bool
    ensures { result ≡ is_referred_to meaning.now }
{
    !matches!(meaning, Meaning::Nothing | Meaning::Name(_))
}

/// From how many kept meanings on some are dropped before the lexeme after this one.
fn due(room: usize, symbol: Symbol, is_kept: bool) -> usize {
    match symbol {
        Symbol::Token(TokenKind::Dot) => 1,
        _ if is_kept => room.saturating_add(SPARE),
        _ => room,
    }
}

/// The kept meaning of the lexeme of this index, looked for from the last one on.
fn find(kept: &[Kept], index: usize) -> Option<&Meaning>
    ensures found { IfSome result (λ m. FindsIn kept.now index m.now) }
    ensures none { IfNone result (Has index kept.now → ⊥) }
{
    let mut left = kept;
    while let Some((last, rest)) = left.split_last() {
        if last.index == index {
            return Some(&last.meaning);
        }
        left = rest;
    }
    None
}

/// These, without those at the end that the machine doesn't name.
fn staying<'a>(kept: &'a [Kept], machine: &Machine) -> &'a [Kept]
    ensures { ShortensTo machine.now kept.now result.now }
{
    let mut left = kept;
    while let Some((last, rest)) = left.split_last() {
        if machine.names(last.index) {
            return left;
        }
        left = rest;
    }
    left
}

/// Drops the kept meanings at the end that the machine doesn't name.
fn shorten(list: &mut Vec<Kept>, machine: &Machine)
    ensures { ShortensTo machine.now list.old.items list.new.items }
{
    let count = staying(list.as_slice(), machine).len();
    list.truncate(count);
}

impl KeptMeanings {
    /// The kept meanings before the first lexeme.
    pub(crate) fn new(alloc: Global) -> KeptMeanings
        ensures { AreKept [] result }
    {
        KeptMeanings {
            list: Vec::new(alloc),
            room: SPARE,
            due: SPARE,
        }
    }

    /// The kept meaning of the lexeme of this index.
    pub(crate) fn meaning(&self, index: usize) -> Option<&Meaning>
        ensures found { IfSome result (λ m. FindsIn (entries self.now) index m.now) }
        ensures none { IfNone result (Has index (entries self.now) → ⊥) }
    {
        find(self.list.as_slice(), index)
    }

    /// Drops what no production after the last lexeme names, which the machine has read, where it is
    /// due.
    pub(crate) fn drop_unnamed(&mut self, machine: &Machine)
        ensures unnamed { DropsUnnamed machine.now self.old self.new }
        ensures kept { (all : List Meaning) → AreKept all self.old → AreKept all self.new }
    {
        if self.list.len() < self.due {
            return;
        }
        shorten(&mut self.list, machine);
        self.room = self.list.len().saturating_add(SPARE);
    }

    /// Keeps what the lexeme of this index means, if a production can refer to it.
    pub(crate) fn keep(&mut self, index: usize, symbol: Symbol, meaning: Meaning) -> Mem<()>
        ensures { OnOk result (entries self.new
            ≡ with_meaning (is_referred_to meaning) index meaning (entries self.old)) }
    {
        let is_kept = is_referred_to(&meaning);
        self.due = due(self.room, symbol, is_kept);
        if is_kept {
            self.list.push(Kept { index, meaning })?;
        }
        Ok(())
    }
}
