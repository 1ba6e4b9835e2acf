//! [`Elements`]: the elements of a list in a field's value.

ghost use Rattle.std.specs.Prelude.{◌≡◌};
ghost use Rattle.field_list.specs.Elements.{elements, elements_rest};

use crate::blanks::trim;
use crate::quoting::Quoting;
use crate::separated_parts::Parts;

/// The elements of a list that commas separate, one after another, without the blanks around them.
/// Empty elements are skipped (RFC 9110, section 5.6.1).
#[derive(Drop)]
pub struct Elements<'a> {
    parts: Parts<'a>,
}

impl<'a> Elements<'a> {
    /// The elements of the list in a field's value.
    pub fn of(quoting: Quoting, value: &'a [u8]) -> Elements<'a>
        ensures { elements_rest result ≡ elements quoting value.entry.now }
    {
        Elements {
            parts: Parts::of(quoting, b',', value),
        }
    }
}

impl<'a> Iterator for Elements<'a> {
    ghost use Rattle.std.specs.Iterator.{YieldsFirstRef, item_count};
    ghost use Rattle.field_list.specs.Elements.{elements_rest};

    type Item = &'a [u8];

    ghost next_gives = { YieldsFirstRef elements_rest };

    ghost remaining = { item_count elements_rest };

    fn next(&mut self) -> Option<&'a [u8]> {
        while let Some(part) = self.parts.next() {
            let element = trim(part);
            if !element.is_empty() {
                return Some(element);
            }
        }
        None
    }
}
