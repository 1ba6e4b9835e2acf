//! [`Media`]: the types in which a row is offered, and the choice among them.

ghost use Rattle.std.specs.Prelude.{◌≡◌, IfOk};
ghost use Rattle.std.specs.Option.{option_map};
ghost use Rattle.content_nego.specs.Choices.{choice};
ghost use Rattle.pod_representations.specs.Offers as spec;

use content_nego::choose;
use field_list::joined_value;
use pod_base::{Bytes, Fields, Mem};
use pod_command::{Content, Row};
use std::alloc::Global;

/// A type in which a row is offered.
#[derive(Clone, Copy, Debug, PartialEq, Eq)]
pub enum Media {
    /// `text/turtle`, of a graph.
    Turtle,
    /// `application/ld+json`, of a graph.
    JsonLd,
    /// The type that bytes are stored with.
    Stored,
}

/// The types in which a row is offered: a graph as Turtle or as JSON-LD, bytes as they are stored.
pub fn offers(row: &Row) -> &'static [Media]
    ensures { result.now ≡ spec.offers row.now }
{
    match &row.content {
        Content::Graph(_graph) => &[Media::Turtle, Media::JsonLd],
        Content::Bytes { ctype: _, bytes: _ } => &[Media::Stored],
    }
}

/// The offered type of a graph that has this index.
fn graph_offer(index: Option<usize>) -> Option<Media>
    ensures { result ≡ option_map spec.graph_offer index }
{
    match index {
        Some(0) => Some(Media::Turtle),
        Some(_) => Some(Media::JsonLd),
        None => None,
    }
}

/// The offered type of a graph that the value of Accept chooses.
fn chosen_by(accept: &Option<Bytes>) -> Option<Media>
    ensures { result ≡ option_map spec.graph_offer
        (choice accept.now spec.turtle_type spec.json_ld_type) }
{
    match accept {
        Some(accept) => graph_offer(choose(
            Some(accept.as_slice()),
            "text/turtle",
            "application/ld+json",
        )),
        None => graph_offer(choose(None, "text/turtle", "application/ld+json")),
    }
}

/// The offered type of a graph that the fields of a request choose.
fn chosen_of_graph(alloc: Global, fields: &Fields) -> Mem<Option<Media>>
    ensures { IfOk result (λ media. media ≡ option_map spec.graph_offer
        (choice (spec.accepted fields.now) spec.turtle_type spec.json_ld_type)) }
{
    let accept = joined_value(alloc, fields, "accept")?;
    Ok(chosen_by(&accept))
}

/// The offered type of a row that the Accept fields of a request choose. It is `None` exactly where
/// the row shows a graph and neither of its types is acceptable (406). Bytes are shown whatever is
/// accepted.
#[tactic(auto, unfolding(crate::specs::Offers::chosen))]
pub fn chosen(alloc: Global, row: &Row, fields: &Fields) -> Mem<Option<Media>>
    ensures { IfOk result (λ media. media ≡ spec.chosen row.now fields.now) }
{
    match &row.content {
        Content::Graph(_graph) => chosen_of_graph(alloc, fields),
        Content::Bytes { ctype: _, bytes: _ } => Ok(Some(Media::Stored)),
    }
}
