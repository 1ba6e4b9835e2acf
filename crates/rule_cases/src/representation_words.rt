//! Cases of what a row is shown as.

use crate::field_words::fields_of;
use crate::response_text::response_text;
use case_words::shown_whole;
use pod_base::{Bytes, Fields, Mem, Method, Response};
use pod_command::Row;
use pod_representations::{Media, Shown, chosen, offers, represent, show};
use pod_rows::PodState;
use std::alloc::Global;

fn media_name(media: Media) -> &'static str {
    match media {
        Media::Turtle => "turtle",
        Media::JsonLd => "json-ld",
        Media::Stored => "stored",
    }
}

pub(crate) fn media_of(word: &str) -> Media {
    match word {
        "turtle" => Media::Turtle,
        "json-ld" => Media::JsonLd,
        _ => Media::Stored,
    }
}

/// The types in which a row is offered, with a space between them.
pub(crate) fn offers_text(alloc: Global, row: &Row) -> Mem<String> {
    let mut text = String::new(alloc);
    for media in offers(row) {
        if !text.is_empty() {
            text.push(' ')?;
        }
        text.push_str(media_name(*media))?;
    }
    Ok(text)
}

/// The type that the fields of a request choose.
pub(crate) fn chosen_text(alloc: Global, row: &Row, fields: &str) -> Mem<String> {
    let fields = fields_of(alloc, fields)?;
    let name = match chosen(alloc, row, &fields)? {
        Some(media) => media_name(media),
        None => "none",
    };
    Ok(String::from_str(alloc, name)?)
}

fn representation_text(alloc: Global, shown: &Shown) -> Mem<String> {
    let tag = shown_whole(alloc, &shown.tag.0)?;
    let moment = shown.modified.0;
    let parts = if shown.ranges { " ranges" } else { "" };
    let body = shown_whole(alloc, shown.body.as_slice())?;
    Ok(format!(in alloc; "{} {tag} {moment}{parts}: {body}", shown.ctype.as_str())?)
}

/// The representation of a row in a type.
pub(crate) fn represented_text<S: PodState>(
    alloc: Global,
    state: &S,
    row: &Row,
    media: &str,
) -> Mem<String> {
    let shown = represent(alloc, state, row, media_of(media))?;
    representation_text(alloc, &shown)
}

/// The response to a read of a row in a type.
fn response_in<S: PodState>(
    alloc: Global,
    state: &S,
    row: &Row,
    media: Media,
    method: Method,
    fields: &Fields,
) -> Mem<Response> {
    let shown = represent(alloc, state, row, media)?;
    let granted = Bytes::from_static(b"user=\"read\",public=\"\"");
    show(
        alloc,
        state.base(),
        &row.path,
        &shown,
        granted,
        method,
        fields,
    )
}

/// The response to a read of a row, in the type that its fields choose.
pub(crate) fn response<S: PodState>(
    alloc: Global,
    state: &S,
    row: &Row,
    method: Method,
    fields: &str,
    names: &str,
) -> Mem<String> {
    let fields = fields_of(alloc, fields)?;
    match chosen(alloc, row, &fields)? {
        Some(media) => {
            let response = response_in(alloc, state, row, media, method, &fields)?;
            response_text(alloc, &response, names)
        }
        None => Ok(String::from_str(alloc, "none")?),
    }
}
