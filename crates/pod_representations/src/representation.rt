//! [`Shown`]: the representation of a row.

ghost use Rattle.std.specs.Prelude.{◌≡◌, IfOk, true, false};
ghost use Rattle.stored_bytes.specs.Digests.{digest_of};
ghost use Rattle.pod_command.specs.GraphTexts.{IsTextOf, text_in, type_name};
ghost use Rattle.pod_rows.specs.WellFormed.{is_container_kind};
ghost use Rattle.pod_representations.specs.Representations as spec;

use crate::row_offers::Media;
use conditional_req::{Tag, tag_of};
use pod_base::{Bytes, Mem, Moment, Text};
use pod_command::{Content, GraphText, GraphType, Kind, Row, StoredBytes, StoredGraph};
use pod_rows::{PodState, container_view};
use rdf_graph::Graph;
use std::alloc::Global;
use stored_bytes::digest_of;

/// A representation of a row.
#[derive(Debug, Drop)]
pub struct Shown {
    /// Its content type.
    pub ctype: Text,
    /// Its bytes. Stored bytes are shared.
    pub body: Bytes,
    /// Its entity tag.
    pub tag: Tag,
    /// When the row was last changed.
    pub modified: Moment,
    /// Whether parts of it may be requested.
    pub ranges: bool,
}

/// Whether a row of that kind is a container, whose representation is its view.
pub(crate) fn is_container(kind: Kind) -> bool
    ensures { result ≡ is_container_kind kind }
{
    match kind {
        Kind::Container => true,
        Kind::Graph | Kind::Acl | Kind::Bytes | Kind::Meta => false,
    }
}

/// The type in which a graph is shown: JSON-LD where that is asked for, else Turtle.
fn graph_type(media: Media) -> GraphType
    ensures { type_name result ≡ spec.graph_type media }
{
    match media {
        Media::JsonLd => GraphType::JsonLd,
        Media::Turtle | Media::Stored => GraphType::Turtle,
    }
}

/// The text of a graph in a type.
#[tactic(auto, unfolding(pod_command::specs::GraphTexts::text_in))]
fn written(alloc: Global, graph: &Graph, media: GraphType) -> Mem<Bytes>
    ensures { IfOk result (λ text. text ≡ text_in media graph.now) }
{
    match media {
        GraphType::Turtle => turtle_text::write(alloc, graph),
        GraphType::JsonLd => jsonld_expanded::write(alloc, graph),
    }
}

/// The text in a type of what is shown of a stored graph, with its digest. They are made once.
fn text_of(alloc: Global, stored: &StoredGraph, graph: &Graph, media: GraphType) -> Mem<GraphText>
    ensures { IfOk result (IsTextOf media graph.now) }
{
    if let Some(shown) = stored.kept_text(alloc, media, graph) {
        return Ok(shown);
    }
    let text = written(alloc, graph, media)?;
    let digest = digest_of(media.name(), text.as_slice());
    let shown = GraphText { text, digest };
    stored.keep_text(alloc, media, graph, &shown);
    Ok(shown)
}

/// The entity tag of a graph's representation in a type, by its digest and a mark.
#[tactic(auto, unfolding(crate::specs::Representations::tag))]
fn tag_by_digest(shown: &GraphText, media: GraphType, mark: u8) -> Tag
    requires { shown.now.digest ≡ digest_of (type_name media) shown.now.text }
    ensures { result ≡ spec.tag (type_name media) shown.now.text mark }
{
    tag_of(&shown.digest, mark)
}

/// The body of a graph's representation in a type, and its entity tag with a mark.
fn marked_parts(
    alloc: Global,
    stored: &StoredGraph,
    graph: &Graph,
    media: GraphType,
    mark: u8,
) -> Mem<(Bytes, Tag)>
    ensures body { IfOk result (λ parts. parts.0 ≡ text_in media graph.now) }
    ensures tag { IfOk result (λ parts. parts.1
        ≡ spec.tag (type_name media) (text_in media graph.now) mark) }
{
    let shown = text_of(alloc, stored, graph, media)?;
    let tag = tag_by_digest(&shown, media, mark);
    Ok((shown.text, tag))
}

/// The body and the entity tag of a graph's representation in a type: Turtle where that isn't
/// JSON-LD. They are kept with the stored graph.
#[tactic(auto, unfolding(crate::specs::Representations::graph_body, pod_command::specs::GraphTexts::text_in))]
fn graph_parts(
    alloc: Global,
    stored: &StoredGraph,
    graph: &Graph,
    media: Media,
) -> Mem<(Bytes, Tag)>
    ensures body { IfOk result (λ parts. parts.0 ≡ spec.graph_body media graph.now) }
    ensures tag { IfOk result (λ parts. parts.1 ≡ spec.graph_tag media graph.now) }
{
    match media {
        Media::JsonLd => marked_parts(alloc, stored, graph, GraphType::JsonLd, b'j'),
        Media::Turtle | Media::Stored => {
            marked_parts(alloc, stored, graph, GraphType::Turtle, b't')
        }
    }
}

/// The entity tag of a graph's representation in a type.
pub(crate) fn graph_tag(
    alloc: Global,
    stored: &StoredGraph,
    graph: &Graph,
    media: Media,
) -> Mem<Tag>
    ensures { IfOk result (λ tag. tag ≡ spec.graph_tag media graph.now) }
{
    let (_body, tag) = graph_parts(alloc, stored, graph, media)?;
    Ok(tag)
}

/// The entity tag of the representation of stored bytes. Their digest is made once.
#[tactic(auto, unfolding(crate::specs::Representations::tag))]
pub(crate) fn bytes_tag(alloc: Global, ctype: &Text, bytes: &StoredBytes) -> Tag
    ensures { result ≡ spec.bytes_tag ctype.now bytes.now }
{
    tag_of(&bytes.digest(alloc, ctype), b'b')
}

/// The representation of a graph in a type.
fn graph_as(
    alloc: Global,
    stored: &StoredGraph,
    graph: &Graph,
    media: Media,
    modified: Moment,
) -> Mem<Shown>
    ensures { IfOk result (λ shown. shown ≡ spec.graph_as media graph.now modified) }
{
    let (body, tag) = graph_parts(alloc, stored, graph, media)?;
    let ctype = Text::of(alloc, graph_type(media).name())?;
    Ok(Shown {
        ctype,
        body,
        tag,
        modified,
        ranges: false,
    })
}

/// The representation of bytes as they are stored.
fn bytes_as(alloc: Global, ctype: &Text, bytes: &StoredBytes, modified: Moment) -> Mem<Shown>
    ensures { IfOk result (λ shown. shown ≡ spec.bytes_as ctype.now bytes.now modified) }
{
    let tag = bytes_tag(alloc, ctype, bytes);
    let ctype = ctype.copy(alloc)?;
    let body = bytes.bytes().copy(alloc)?;
    Ok(Shown {
        ctype,
        body,
        tag,
        modified,
        ranges: true,
    })
}

/// The representation of a row of a pod in a type.
///
/// A container shows its view, every other graph its own triples. A graph is shown as Turtle
/// where the type isn't JSON-LD, and bytes as they are stored, whatever the type. Stored bytes
/// are shared, and so is a text of a graph that was made before.
pub fn represent<S: PodState>(alloc: Global, state: &S, row: &Row, media: Media) -> Mem<Shown>
    ensures { IfOk result (λ shown. shown ≡ spec.represented (S.pod state.now) row.now media) }
{
    match &row.content {
        Content::Graph(stored) => {
            if is_container(row.kind) {
                let view = container_view(alloc, state, &row.path)?;
                graph_as(alloc, stored, &view, media, row.modified)
            } else {
                graph_as(alloc, stored, stored.graph(), media, row.modified)
            }
        }
        Content::Bytes { ctype, bytes } => bytes_as(alloc, ctype, bytes, row.modified),
    }
}
