//! Runs of the characters of a class, and LANGTAG.

ghost use Rattle.std.specs.Prelude.{◌≡◌, ◌<◌, ◌≤◌, None, length, IfSome, IfNone};
ghost use Rattle.std.specs.Option.{option_copied};
ghost use Rattle.turtle_lex.specs.ClassOf.{in_class};
ghost use Rattle.turtle_lex.specs.Pattern.{one, many, MatchesOnly, MatchesLongest};
ghost use Rattle.turtle_lex.specs.Terminals.{lang_tag};
ghost use Rattle.turtle_lex.specs.Runs.{IsRun, IsSomeRun, tag_part};

use crate::classes::{Class, strip_one};
use crate::escapes::strip_word;

/// What follows the run of characters of the class at the start of a text.
pub(crate) fn strip_run(text: &[u8], class: Class) -> &[u8]
    ensures run { IsRun (in_class class) text.now result.now }
    ensures no_longer { length result.now ≤ length text.now }
{
    let mut rest = text;
    loop {
        match strip_one(rest, class) {
            Some(after) => rest = after,
            None => return rest,
        }
    }
}

/// What follows the run of characters of the class, of which there is one at least.
pub(crate) fn strip_some(text: &[u8], class: Class) -> Option<&[u8]>
    ensures found { IfSome result (λ rest. IsSomeRun (in_class class) text.now rest.now) }
    ensures none { IfNone result (MatchesOnly (one (in_class class)) text.now None) }
    ensures shorter { IfSome result (λ rest. length rest.now < length text.now) }
{
    match strip_one(text, class) {
        Some(rest) => Some(strip_run(rest, class)),
        None => None,
    }
}

/// What follows the parts of a LANGTAG after its first, each a run of letters or digits.
pub(crate) fn strip_tag_parts(text: &[u8]) -> &[u8]
    ensures { MatchesLongest (many tag_part) text.now (Some result.now) }
{
    let mut rest = text;
    loop {
        match strip_word(rest, b"-") {
            Some(part) => match strip_some(part, Class::LetterOrDigit) {
                Some(after) => rest = after,
                None => return rest,
            },
            None => return rest,
        }
    }
}

/// What follows the longest LANGTAG, which is runs of letters and digits.
pub(crate) fn strip_lang_tag(text: &[u8]) -> Option<&[u8]>
    ensures { MatchesLongest lang_tag text.now (option_copied result) }
{
    match strip_word(text, b"@") {
        Some(letters) => match strip_some(letters, Class::Letter) {
            Some(rest) => Some(strip_tag_parts(rest)),
            None => None,
        },
        None => None,
    }
}
