//! [`TokenEntry`]: a token and its agent, and the line of a table that they stand on.

ghost use Rattle.std.specs.Prelude.{◌≡◌, ◌<◌, ◌==◌, ◌∷◌, [], true, Some, None, IfOk, IfSome};
ghost use Rattle.std.specs.Prelude.{IfNone, length, if◌then◌else◌};
ghost use Rattle.std.specs.List.{before_first, after_first, position, list_all};
ghost use Rattle.token_table.specs.TableLines as spec;

use iri_ref::{Iri, IriFault};
use pod_base::{Mem, NoMemory, Text};
use std::alloc::Global;
use std::str;

/// The most bytes of a token.
pub const TOKEN_LIMIT: usize = 256;

/// A token, and the agent who has it.
#[derive(Debug, Drop)]
pub struct TokenEntry {
    /// One to [`TOKEN_LIMIT`] letters, digits or `-._~+/=`.
    pub token: Text,
    /// An absolute IRI.
    pub agent: Text,
}

/// Where the first byte of this value is, in a table's text or in one line of it.
fn find_byte(bytes: &[u8], wanted: u8) -> Option<usize>
    ensures { result ≡ position (λ b. b == wanted) bytes.now }
{
    bytes.iter().position(|byte| *byte == wanted)
}

/// What precedes the first byte of this value in a table's text or in one line of it, and what
/// follows it; all where it isn't there.
fn split_byte(bytes: &[u8], wanted: u8) -> (&[u8], &[u8])
    ensures before { result.0.now ≡ before_first (λ b. b == wanted) bytes.now }
    ensures after { result.1.now ≡ after_first (λ b. b == wanted) bytes.now }
{
    match find_byte(bytes, wanted) {
        Some(at) => (&bytes[..at], &bytes[at + 1..]),
        None => (bytes, b"".as_slice()),
    }
}

/// The first line of a table's text, without its LF, and what follows it; none where the text is
/// empty.
pub(crate) fn split_line(text: &[u8]) -> Option<(&[u8], &[u8])>
    ensures some { IfSome result (λ p. spec.lines_of text.now ≡ p.0.now ∷ spec.lines_of p.1.now) }
    ensures shorter { IfSome result (λ p. length p.1.now < length text.now) }
    ensures none { IfNone result (text.now ≡ []) }
{
    if text.is_empty() {
        return None;
    }
    let (line, rest) = split_byte(text, b'\n');
    Some((line, rest))
}

/// Whether a line of a table is skipped: it is empty, or a comment.
pub(crate) fn is_skipped(line: &[u8]) -> bool
    ensures { result ≡ spec.is_skipped line.now }
{
    match line.first() {
        Some(byte) => *byte == b'#',
        None => true,
    }
}

/// Whether a byte may be part of the token of a line.
fn is_token_character(byte: u8) -> bool
    ensures { result ≡ spec.is_token_character byte }
{
    byte.is_ascii_lowercase()
        || byte.is_ascii_uppercase()
        || byte.is_ascii_digit()
        || b"-._~+/=".contains(&byte)
}

/// Whether each byte may be part of the token of a line.
fn are_token_characters(bytes: &[u8]) -> bool
    ensures { result ≡ list_all spec.is_token_character bytes.now }
{
    bytes.iter().all(|byte| is_token_character(*byte))
}

/// Whether these bytes of a line are a token.
fn is_token(bytes: &[u8]) -> bool
    ensures { result ≡ spec.is_token bytes.now }
{
    !bytes.is_empty() && bytes.len() <= TOKEN_LIMIT && are_token_characters(bytes)
}

/// The agent that a line of a table names: the text of these bytes, where they are an absolute IRI.
fn read_agent(alloc: Global, bytes: &[u8]) -> Mem<Option<Text>>
    ensures { IfOk result
        (λ agent. agent ≡ (if spec.is_agent bytes.now then Some bytes.now else None)) }
{
    let Ok(text) = str::from_utf8(bytes) else {
        return Ok(None);
    };
    match Iri::read(alloc, text) {
        Ok(iri) => {
            let agent = Text::of(alloc, iri.as_str())?;
            Ok(Some(agent))
        }
        Err(IriFault::BadReference) => Ok(None),
        Err(IriFault::NoMemory) => Err(NoMemory),
    }
}

/// The text of the token in a line of the table.
fn token_text(alloc: Global, token: &[u8]) -> Mem<Text>
    requires { spec.is_token token.now ≡ true }
    ensures { IfOk result (λ text. text ≡ token.now) }
{
    Text::of(alloc, str::from_utf8(token).unwrap())
}

/// The entry of a line of a table; none where it is skipped or malformed.
pub(crate) fn read_entry(alloc: Global, line: &[u8]) -> Mem<Option<TokenEntry>>
    ensures { IfOk result (λ entry. entry ≡ spec.line_entry line.now) }
{
    let (token, agent) = split_byte(line, b' ');
    if !is_token(token) {
        return Ok(None);
    }
    match read_agent(alloc, agent)? {
        Some(agent) => {
            let token = token_text(alloc, token)?;
            Ok(Some(TokenEntry { token, agent }))
        }
        None => Ok(None),
    }
}
