//! Blanks and comments, which lie between tokens.

ghost use Rattle.std.specs.Prelude.{None, ◌≤◌, length, IfOk, IfErr};
ghost use Rattle.turtle_lex.specs.Pattern.{◌∘◌, Matches, MatchesOnly, HasNoFirstChar};
ghost use Rattle.turtle_lex.specs.Terminals.{comment, gap};
ghost use Rattle.turtle_lex.specs.Tokens.{gap_start};

use crate::char_runs::strip_run;
use crate::classes::{Class, strip_one};
use crate::escapes::strip_word;

/// What follows the blanks and comments at the start, or as an `Err` what follows a comment that no
/// end of its line ends.
pub(crate) fn strip_gap(text: &[u8]) -> Result<&[u8], &[u8]>
    ensures closed { IfOk result (λ rest. Matches gap text.now rest.now
        × MatchesOnly gap_start rest.now None) }
    ensures open { IfErr result (λ rest. Matches (gap ∘ comment) text.now rest.now
        × HasNoFirstChar rest.now) }
{
    let mut rest = text;
    loop {
        match strip_one(rest, Class::Blank) {
            Some(after) => rest = after,
            None => match strip_word(rest, b"#") {
                Some(line) => {
                    let end = strip_run(line, Class::InLine);
                    match strip_one(end, Class::LineEnd) {
                        Some(after) => rest = after,
                        None => return Err(end),
                    }
                }
                None => return Ok(rest),
            },
        }
    }
}
