//! [`Parts`]: the parts of a text between separators.

ghost use Rattle.std.specs.Prelude.{◌≡◌, ◌∷◌, [], ◌+◌, ◌<◌, IfSome, IfNone, take, drop, length};
ghost use Rattle.field_list.specs.Parts.{parts, parts_rest};

use crate::quoting::{Place, Quoting, next_place, separates};

/// The parts of a text between the separators that stand outside of quotes, one after another. A
/// text has one part more than such separators.
#[derive(Drop)]
pub struct Parts<'a> {
    quoting: Quoting,
    separator: u8,
    rest: Option<&'a [u8]>,
}

/// The position of the first separator between parts, outside of quotes.
fn first_separator(quoting: Quoting, separator: u8, text: &[u8]) -> Option<usize>
    ensures within { IfSome result (λ at. at < length text.now) }
    ensures some { IfSome result (λ at. parts quoting separator text.now
        ≡ take at text.now ∷ parts quoting separator (drop (at + 1) text.now)) }
    ensures none { IfNone result (parts quoting separator text.now ≡ text.now ∷ []) }
{
    let mut place = Place::Outside;
    for (at, byte) in text.iter().enumerate() {
        if separates(separator, place, *byte) {
            return Some(at);
        }
        place = next_place(quoting, place, *byte);
    }
    None
}

impl<'a> Parts<'a> {
    /// The parts of a text between its separators.
    pub fn of(quoting: Quoting, separator: u8, text: &'a [u8]) -> Parts<'a>
        ensures { parts_rest result ≡ parts quoting separator text.entry.now }
    {
        Parts {
            quoting,
            separator,
            rest: Some(text),
        }
    }
}

impl<'a> Iterator for Parts<'a> {
    ghost use Rattle.std.specs.Iterator.{YieldsFirstRef, item_count};
    ghost use Rattle.field_list.specs.Parts.{parts_rest};

    type Item = &'a [u8];

    ghost next_gives = { YieldsFirstRef parts_rest };

    ghost remaining = { item_count parts_rest };

    fn next(&mut self) -> Option<&'a [u8]> {
        let text = self.rest?;
        match first_separator(self.quoting, self.separator, text) {
            Some(at) => {
                self.rest = Some(&text[at + 1..]);
                Some(&text[..at])
            }
            None => {
                self.rest = None;
                Some(text)
            }
        }
    }
}
