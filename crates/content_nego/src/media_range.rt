//! The media ranges of an Accept field.

ghost use Rattle.std.specs.Prelude.{◌≡◌, IfSome, IfNone, Some, None};
ghost use Rattle.content_nego.specs.MediaRanges as spec;
ghost use Rattle.content_nego.specs.Views.{media_view, range_view};

use crate::accept_parameters::{are_parameters, quality};
use crate::media_type::{MediaType, media_type};
use field_list::{Parts, Quoting, trim};

/// A media range and its quality, in thousandths.
#[derive(Clone, Copy)]
pub(crate) struct MediaRange<'a> {
    pub(crate) media: MediaType<'a>,
    pub(crate) quality: u16,
}

/// The media type that a range of Accept has, without its parameters.
fn element_type<'a>(element: &'a [u8]) -> Option<MediaType<'a>>
    ensures some { IfSome result (λ m. spec.element_type element.entry.now ≡ Some (media_view m)) }
    ensures none { IfNone result (spec.element_type element.entry.now ≡ None) }
{
    let mut parts = Parts::of(Quoting::Strings, b';', element);
    match parts.next() {
        Some(part) => media_type(trim(part)),
        None => None,
    }
}

/// The media range that an element of Accept is; none where it is malformed.
pub(crate) fn media_range<'a>(element: &'a [u8]) -> Option<MediaRange<'a>>
    ensures some { IfSome result (λ r. spec.media_range element.entry.now ≡ Some (range_view r)) }
    ensures none { IfNone result (spec.media_range element.entry.now ≡ None) }
{
    if !are_parameters(element) {
        return None;
    }
    match element_type(element) {
        Some(media) => match quality(element) {
            Some(quality) => Some(MediaRange { media, quality }),
            None => None,
        },
        None => None,
    }
}
