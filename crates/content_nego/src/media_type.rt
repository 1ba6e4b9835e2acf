//! Media types, and how specific a range is for one (RFC 9110, sections 8.3.1 and 12.5.1).

ghost use Rattle.std.specs.Prelude.{◌≡◌, ◌≤◌, ◌&&◌, IfSome, IfNone, Some, None, codes, bytes_eq};
ghost use Rattle.content_nego.specs.MediaTypes as spec;
ghost use Rattle.content_nego.specs.Views.{media_view, offer_view};

use field_list::{Quoting, split_pair};
use httparse::is_token;

/// A type and a subtype; in a range either may be `*`.
#[derive(Clone, Copy)]
pub(crate) struct MediaType<'a> {
    pub(crate) kind: &'a [u8],
    pub(crate) subtype: &'a [u8],
}

/// The media type of an offer or a range: two tokens around a slash.
pub(crate) fn media_type<'a>(text: &'a [u8]) -> Option<MediaType<'a>>
    ensures value { offer_view result ≡ spec.media_type text.entry.now }
    ensures some { IfSome result (λ m. spec.media_type text.entry.now ≡ Some (media_view m)) }
    ensures none { IfNone result (spec.media_type text.entry.now ≡ None) }
{
    match split_pair(Quoting::Strings, b'/', text) {
        Some((kind, subtype)) => {
            if is_token(kind) && is_token(subtype) {
                Some(MediaType { kind, subtype })
            } else {
                None
            }
        }
        None => None,
    }
}

/// Whether a media type has `*` as its type or subtype.
fn is_wildcard(bytes: &[u8]) -> bool
    ensures { result ≡ bytes_eq bytes.now (codes "*") }
{
    bytes == b"*".as_slice()
}

/// How specific a range of Accept is for a media type: 3 where it is the type, 2 where it has its
/// type and any subtype, 1 where it is `*/*`, and 0 where it isn't a range of it.
fn specificity_for(offer: &MediaType, range: &MediaType) -> u8
    ensures { result ≡ spec.specificity_for (media_view offer.now) (media_view range.now) }
{
    if range.kind.eq_ignore_ascii_case(offer.kind) {
        if range.subtype.eq_ignore_ascii_case(offer.subtype) {
            return 3;
        }
        if is_wildcard(range.subtype) {
            return 2;
        }
    }
    if is_wildcard(range.kind) && is_wildcard(range.subtype) {
        1
    } else {
        0
    }
}

/// How specific a range of Accept is for an offer that may be no media type: it has no range then.
pub(crate) fn specificity(offer: &Option<MediaType>, range: &MediaType) -> u8
    ensures value { result ≡ spec.specificity (offer_view offer.now) (media_view range.now) }
    ensures bound { result ≤ 3 }
{
    match offer {
        Some(offer) => specificity_for(offer, range),
        None => 0,
    }
}
