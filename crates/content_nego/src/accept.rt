//! The choice by an Accept field.

ghost use Rattle.std.specs.Prelude.{◌≡◌};
ghost use Rattle.std.specs.List.{fold};
ghost use Rattle.std.specs.Option.{option_copied};
ghost use Rattle.field_list.specs.Elements.{elements};
ghost use Rattle.field_list.specs.declared.quoting.Quoting.TheVariants.{Strings};
ghost use Rattle.content_nego.specs.MediaRanges as spec;
ghost use Rattle.content_nego.specs.MediaTypes.{media_type};
ghost use Rattle.content_nego.specs.Choices as choices;
ghost use Rattle.content_nego.specs.Tallies as tallies;
ghost use Rattle.content_nego.specs.Views.{offer_view, range_view};

use crate::media_range::{MediaRange, media_range};
use crate::media_type::{MediaType, media_type, specificity};
use crate::quality_number::FULL_QUALITY;
use field_list::{Elements, Quoting};

/// The most specific range of an offer so far: how specific it is, and its quality in thousandths.
#[derive(Clone, Copy)]
pub(crate) struct Best {
    specificity: u8,
    quality: u16,
}

/// Whether there was a range, and the best one for each of the two offers.
#[derive(Clone, Copy)]
pub(crate) struct Tally {
    any: bool,
    first: Best,
    second: Best,
}

/// The more specific one of the best range of Accept for an offer so far and another range, the
/// first of equals.
fn better(best: Best, offer: &Option<MediaType>, range: &MediaRange) -> Best
    ensures { result ≡ tallies.better (offer_view offer.now) best (range_view range.now) }
{
    let specificity = specificity(offer, &range.media);
    if best.specificity < specificity {
        Best {
            specificity,
            quality: range.quality,
        }
    } else {
        best
    }
}

/// The tally of an Accept field with one more range.
fn with_range(
    tally: Tally,
    first: &Option<MediaType>,
    second: &Option<MediaType>,
    range: &MediaRange,
) -> Tally
    ensures { result ≡ tallies.with_range (offer_view first.now) (offer_view second.now)
        tally (range_view range.now) }
{
    Tally {
        any: true,
        first: better(tally.first, first, range),
        second: better(tally.second, second, range),
    }
}

/// The tally of an Accept field with one more element, which counts where it is well-formed.
fn with_element(
    tally: Tally,
    first: &Option<MediaType>,
    second: &Option<MediaType>,
    element: &[u8],
) -> Tally
    ensures { result ≡ tallies.with_found (offer_view first.now) (offer_view second.now)
        tally (spec.media_range element.now) }
{
    match media_range(element) {
        Some(range) => with_range(tally, first, second, &range),
        None => tally,
    }
}

/// The tally of all elements of an Accept field.
fn tally_of(accept: &[u8], first: &Option<MediaType>, second: &Option<MediaType>) -> Tally
    ensures { result ≡ fold (tallies.with_range (offer_view first.now) (offer_view second.now))
        tallies.start (spec.ranges accept.now) }
{
    let none = Best {
        specificity: 0,
        quality: 0,
    };
    let mut tally = Tally {
        any: false,
        first: none,
        second: none,
    };
    let mut elements = Elements::of(Quoting::Strings, accept);
    while let Some(element) = elements.next() {
        tally = with_element(tally, first, second, element);
    }
    tally
}

/// The offer of the greater quality by Accept, the first of equals; none where both are 0.
fn greater(first: u16, second: u16) -> Option<usize>
    ensures { result ≡ choices.greater first second }
{
    if first == 0 && second == 0 {
        return None;
    }
    if second <= first { Some(0) } else { Some(1) }
}

/// The choice between the offers by the tally of an Accept field.
fn chosen(tally: Tally) -> Option<usize>
    ensures { result ≡ tallies.chosen tally }
{
    if tally.any {
        greater(tally.first.quality, tally.second.quality)
    } else {
        Some(0)
    }
}

/// Chooses between two offers by the value of an Accept field: 0 for the first, 1 for the second.
///
/// The offers are media types without parameters, as `text/turtle`. Malformed elements of the field
/// are dropped. Where none is left, or there is no field, both offers have the greatest quality.
/// Parameters other than `q` don't matter. It is `None` exactly where both have quality 0.
pub fn choose(accept: Option<&[u8]>, first: &str, second: &str) -> Option<usize>
    ensures { result ≡ choices.choice (option_copied accept.entry) first.now second.now }
{
    let Some(accept) = accept else {
        return Some(0);
    };
    let first = media_type(first.as_bytes());
    let second = media_type(second.as_bytes());
    chosen(tally_of(accept, &first, &second))
}
