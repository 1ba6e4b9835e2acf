//! Texts of two parts: a type and a subtype, a parameter's name and value.

ghost use Rattle.std.specs.Prelude.{◌≡◌, IfSome, IfNone, Some, None};
ghost use Rattle.field_list.specs.Pairs as spec;

use crate::quoting::Quoting;
use crate::separated_parts::Parts;

/// The pair of texts around the one separator outside of quotes; none where there is none or
/// several.
pub fn split_pair<'a>(
    quoting: Quoting,
    separator: u8,
    text: &'a [u8],
) -> Option<(&'a [u8], &'a [u8])>
    ensures some { IfSome result (λ p. spec.split_pair quoting separator text.entry.now
        ≡ Some (spec.pair p.0.now p.1.now)) }
    ensures none { IfNone result (spec.split_pair quoting separator text.entry.now ≡ None) }
{
    let mut parts = Parts::of(quoting, separator, text);
    let first = parts.next()?;
    let second = parts.next()?;
    match parts.next() {
        None => Some((first, second)),
        Some(_) => None,
    }
}
