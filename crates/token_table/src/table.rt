//! [`Tokens`]: the table, and its reading.

ghost use Rattle.std.specs.Prelude.{◌≡◌, ◌+◌, ◌≤◌, ◌++◌, ◌∷◌, [], true, not, ◌||◌, nat_lt, length};
ghost use Rattle.std.specs.Prelude.{IfOk, IfErr};
ghost use Rattle.std.specs.Option.{option_copied, option_to_list};
ghost use Rattle.std.specs.BTreeMap.{get_by_text};
ghost use Rattle.token_table.specs.TableLines as spec;

use crate::fault::TokenFault;
use crate::table_line::{TokenEntry, is_skipped, read_entry, split_line};
use pod_base::{Mem, Text};
use std::alloc::Global;
use std::collections::BTreeMap;
use std::marker::Model;
use std::str;

/// The last byte at which a line may end.
pub const TABLE_LIMIT: usize = 1_048_576;

/// The table of tokens. Contracts see its entries, in the order of the text. A token is looked up
/// in a tree.
#[derive(Drop)]
pub struct Tokens {
    entries: Vec<TokenEntry>,
    places: BTreeMap<String, usize>,
}

impl Model for Tokens {
    ghost use Rattle.std.specs.Prelude.{List};
    ghost use Rattle.token_table.specs.declared.table_line.TokenEntry.{TokenEntry};
    ghost use Rattle.token_table.specs.Places.{AreFiled};

    ghost Value = { List TokenEntry };

    ghost view = { λ t. t.entries.items };

    ghost invariant = { λ t. AreFiled t.entries.items t.places };
}

/// The position of a token's entry in the table.
fn place(places: &BTreeMap<String, usize>, token: &str) -> Option<usize>
    ensures { result ≡ get_by_text places.now token.now }
{
    places.get(token).copied()
}

impl Tokens {
    /// The table without entries.
    fn new(alloc: Global) -> Tokens
        ensures { result ≡ [] }
    {
        Tokens {
            entries: Vec::new(alloc),
            places: BTreeMap::new(alloc),
        }
    }

    /// Appends an entry to the table, unless its token is there already.
    fn add(&mut self, alloc: Global, entry: TokenEntry) -> Mem<bool>
        ensures added { IfOk result (λ added. added ≡ not (spec.has_token self.old entry.token)) }
        ensures table { IfOk result (λ added. added ≡ true → self.new ≡ self.old ++ entry ∷ []) }
    {
        let token = String::from_str(alloc, entry.token.as_str())?;
        if place(&self.places, token.as_str()).is_some() {
            return Ok(false);
        }
        self.entries.reserve(1)?;
        self.places.insert(token, self.entries.len())?;
        self.entries.push_reserved(entry);
        Ok(true)
    }

    /// Takes the next line into the table: whether it is well-formed and repeats no token.
    fn take_line(&mut self, alloc: Global, line: &[u8]) -> Mem<bool>
        ensures good { IfOk result (λ good. good
            ≡ not (spec.is_malformed line.now || spec.repeats self.old line.now)) }
        ensures table { IfOk result (λ good. good ≡ true
            → self.new ≡ self.old ++ option_to_list (spec.line_entry line.now)) }
    {
        if is_skipped(line) {
            return Ok(true);
        }
        match read_entry(alloc, line)? {
            Some(entry) => self.add(alloc, entry),
            None => Ok(false),
        }
    }

    /// Takes the next line into the table, which begins at this byte: whether it isn't faulty.
    fn take_line_at(&mut self, alloc: Global, start: usize, line: &[u8]) -> Mem<bool>
        requires { start ≤ TABLE_LIMIT + 1 }
        ensures good { IfOk result (λ good. good
            ≡ not (spec.is_malformed line.now || (spec.repeats self.old line.now
            || nat_lt TABLE_LIMIT (start + length line.now)))) }
        ensures table { IfOk result (λ good. good ≡ true
            → self.new ≡ self.old ++ option_to_list (spec.line_entry line.now)) }
        ensures end { IfOk result (λ good. good ≡ true → start + length line.now ≤ TABLE_LIMIT) }
    {
        if start + line.len() > TABLE_LIMIT {
            return Ok(false);
        }
        self.take_line(alloc, line)
    }

    /// Reads a table of tokens.
    ///
    /// Its lines are ended by LF, that of the last one may be missing. Empty lines and lines that
    /// begin with `#` are skipped. Every other line is a token, one space and an absolute IRI. It
    /// fails with the number of the first line that is malformed, repeats the token of an earlier
    /// one, or whose last byte before its LF is past [`TABLE_LIMIT`].
    pub fn read(alloc: Global, bytes: &[u8]) -> Result<Tokens, TokenFault>
        ensures table { IfOk result (λ table. table ≡ spec.entries (spec.lines_of bytes.now)) }
        ensures sound { IfOk result (λ _. spec.AreSound (spec.lines_of bytes.now)) }
        ensures fault { IfErr result (spec.FailsAs (spec.lines_of bytes.now)) }
    {
        let mut tokens = Tokens::new(alloc);
        let mut start = 0;
        let mut number = 0;
        let mut rest = bytes;
        while let Some((line, after)) = split_line(rest) {
            number += 1;
            if !tokens.take_line_at(alloc, start, line)? {
                return Err(TokenFault::Line { line: number });
            }
            start += line.len() + 1;
            rest = after;
        }
        Ok(tokens)
    }

    /// The agent that the table has for a token.
    pub(crate) fn agent(&self, token: &[u8]) -> Option<&Text>
        ensures { option_copied result ≡ spec.agent_in self.now token.now }
    {
        let places = &self.places;
        let Ok(token) = str::from_utf8(token) else {
            return None;
        };
        match place(places, token) {
            Some(at) => Some(&self.entries[at].agent),
            None => None,
        }
    }
}
