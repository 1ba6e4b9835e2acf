//! Reads the token table.
ghost use Rattle.std.specs.Prelude.{◌≡◌, ◌≤◌, IfOk, IfErr};
ghost use Rattle.pod_pipe.specs.Streams.{AddsReads};
ghost use Rattle.token_table.specs.TableLines.{AreSound, entries, lines_of};
ghost use Rattle.pod_pipe.specs.Tables.{HasTableCause, IsFaultOf, IsTableRead, IsTable};
ghost use Rattle.pod_pipe.specs.Tables.{tokens_of};

use pod_io::Source;
use std::alloc::Global;
use token_table::{TokenFault, Tokens};

/// The most bytes that one read requests.
const PIECE_LIMIT: usize = 65_536;

/// The most reads of the table.
const READ_LIMIT: u64 = 1 << 40;

/// Why there is no table of tokens.
#[derive(Clone, Copy, Debug, PartialEq, Eq)]
pub enum TableFault {
    /// This line, from 1, is the first that is faulty.
    Line { line: u64 },
    /// A read failed.
    ReadFault,
    NoMemory,
    /// The limit on reads was reached.
    ReadLimit,
}

/// Reads the text of the token file to its end.
fn read_all<T: Source>(alloc: Global, source: &mut T) -> Result<Vec<u8>, TableFault>
    ensures text { IfOk result (λ text. IsTableRead text.items
        (tokens_of T.rest T.faults T.reads T.ends source.old source.new)) }
    ensures fault { IfErr result (λ fault. HasTableCause fault
        (tokens_of T.rest T.faults T.reads T.ends source.old source.new)) }
    ensures reads { AddsReads (T.reads source.old) (T.reads source.new) }
    ensures faults { T.faults source.old ≤ T.faults source.new }
{
    let mut text = Vec::new(alloc);
    let mut piece = [0u8; PIECE_LIMIT];
    'reads: for _ in 0..READ_LIMIT {
        let Ok(count) = source.read(&mut piece) else {
            return Err(TableFault::ReadFault);
        };
        if count == 0 {
            return Ok(text);
        }
        let Ok(()) = text.extend_from_slice(&piece[..count]) else {
            return Err(TableFault::NoMemory);
        };
    }
    Err(TableFault::ReadLimit)
}

/// The token table of the text of a token file.
fn table_of(alloc: Global, text: &[u8]) -> Result<Tokens, TableFault>
    ensures table { IfOk result (λ tokens. tokens ≡ entries (lines_of text.now)) }
    ensures sound { IfOk result (λ _. AreSound (lines_of text.now)) }
    ensures fault { IfErr result (λ fault. IsFaultOf fault (lines_of text.now)) }
{
    match Tokens::read(alloc, text) {
        Ok(tokens) => Ok(tokens),
        Err(TokenFault::Line { line }) => Err(TableFault::Line { line }),
        Err(TokenFault::NoMemory) => Err(TableFault::NoMemory),
    }
}

/// Reads the token table from its file, a source, to the end.
pub fn read_table<T: Source>(alloc: Global, source: &mut T) -> Result<Tokens, TableFault>
    ensures table { IfOk result (λ tokens. IsTable tokens
        (tokens_of T.rest T.faults T.reads T.ends source.old source.new)) }
    ensures fault { IfErr result (λ fault. HasTableCause fault
        (tokens_of T.rest T.faults T.reads T.ends source.old source.new)) }
    ensures reads { AddsReads (T.reads source.old) (T.reads source.new) }
    ensures faults { T.faults source.old ≤ T.faults source.new }
{
    match read_all(alloc, source) {
        Ok(text) => table_of(alloc, text.as_slice()),
        Err(fault) => Err(fault),
    }
}
