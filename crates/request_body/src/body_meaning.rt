//! The reading of a body.

ghost use Rattle.std.specs.Prelude.{◌≡◌, IfOk};
ghost use Rattle.pod_command.specs.declared.row.Content.TheVariants as contents;
ghost use Rattle.request_body.specs.Bodies as spec;
ghost use Rattle.request_body.specs.declared.body.RequestBody.TheVariants as meanings;

use crate::body::RequestBody;
use crate::fault::BodyFault;
use crate::syntax_choice::{BodySyntax, body_syntax};
use iri_ref::Iri;
use jsonld_expanded::JsonLdFault;
use n3_patch::{N3Fault, PatchRule};
use pod_base::{Fields, Mem, NoMemory, Request, Text};
use pod_command::{Content, StoredBytes, StoredGraph};
use pod_path::Path;
use rdf_graph::Graph;
use request_fields::content_type;
use sparql_patch::SparqlFault;
use std::alloc::Global;
use turtle_text::TurtleFault;

/// What a body means, or its fault.
type Outcome = Result<RequestBody, BodyFault>;

/// The content type of a body that means bytes, which are any bytes without one.
fn opaque_type<'a>(fields: &'a Fields) -> &'a str
    ensures { result.now ≡ spec.opaque_type fields.entry.now }
{
    match content_type(fields) {
        Some(ctype) => ctype,
        None => "application/octet-stream",
    }
}

/// What a body of any other type means: its bytes, whose memory it shares.
fn read_opaque(alloc: Global, request: &Request) -> Mem<Outcome>
    ensures { IfOk result (spec.IsOpaqueBody request.now) }
{
    let ctype = Text::of(alloc, opaque_type(&request.fields))?;
    let bytes = StoredBytes::new(alloc, request.body.copy(alloc)?);
    Ok(Ok(RequestBody::Content(Content::Bytes { ctype, bytes })))
}

/// What a body means that is a graph.
fn graph_meaning(alloc: Global, graph: Graph) -> RequestBody
    ensures { result ≡ meanings.Content (contents.Graph graph) }
{
    RequestBody::Content(Content::Graph(StoredGraph::new(alloc, graph)))
}

/// What a body of Turtle means: the graph of the document.
fn read_turtle(alloc: Global, base: &Iri, bytes: &[u8]) -> Mem<Outcome>
    ensures { IfOk result (spec.IsTurtleBody base.now bytes.now) }
{
    match turtle_text::read(alloc, base, bytes) {
        Ok(graph) => Ok(Ok(graph_meaning(alloc, graph))),
        Err(TurtleFault::Bad { at, .. }) => Ok(Err(BodyFault::Syntax { at })),
        Err(TurtleFault::TooLarge { .. }) => Ok(Err(BodyFault::GraphSize)),
        Err(TurtleFault::NoMemory) => Err(NoMemory),
    }
}

/// What a body of expanded JSON-LD means: the graph of the document.
fn read_json_ld(alloc: Global, base: &Iri, bytes: &[u8]) -> Mem<Outcome>
    ensures { IfOk result (spec.IsJsonLdBody base.now bytes.now) }
{
    match jsonld_expanded::read(alloc, base, bytes) {
        Ok(graph) => Ok(Ok(graph_meaning(alloc, graph))),
        Err(JsonLdFault::NotJson) => Ok(Err(BodyFault::Json)),
        Err(JsonLdFault::OutOfProfile) => Ok(Err(BodyFault::Json)),
        Err(JsonLdFault::TooLarge) => Ok(Err(BodyFault::GraphSize)),
        Err(JsonLdFault::NoMemory) => Err(NoMemory),
    }
}

/// What a body of N3 Patch means: the patch.
fn read_patch(alloc: Global, base: &Iri, bytes: &[u8]) -> Mem<Outcome>
    ensures means { IfOk result (spec.IsPatchBody base.now bytes.now) }
    ensures bound { IfOk result spec.IsBoundOutcome }
{
    match n3_patch::read(alloc, base, bytes) {
        Ok(patch) => Ok(Ok(RequestBody::Patch(patch))),
        Err(N3Fault::Syntax { at }) => Ok(Err(BodyFault::Syntax { at })),
        Err(N3Fault::Constraint(rule)) => Ok(Err(BodyFault::Rule(rule))),
        Err(N3Fault::TooLarge) => Ok(Err(BodyFault::GraphSize)),
        Err(N3Fault::NoMemory) => Err(NoMemory),
    }
}

/// What a body of SPARQL's data updates means: the triples that it names. A blank node in it breaks
/// a rule of patches.
fn read_update(alloc: Global, base: &Iri, bytes: &[u8]) -> Mem<Outcome>
    ensures means { IfOk result (spec.IsUpdateBody base.now bytes.now) }
    ensures bound { IfOk result spec.IsBoundOutcome }
{
    match sparql_patch::read(alloc, base, bytes) {
        Ok(named) => Ok(Ok(RequestBody::Update(named))),
        Err(SparqlFault::Syntax { at }) => Ok(Err(BodyFault::Syntax { at })),
        Err(SparqlFault::Blank) => Ok(Err(BodyFault::Rule(PatchRule::BlankNode))),
        Err(SparqlFault::TooLarge) => Ok(Err(BodyFault::GraphSize)),
        Err(SparqlFault::NoMemory) => Err(NoMemory),
    }
}

/// What a body in that syntax means.
fn read_in(alloc: Global, base: &Iri, syntax: BodySyntax, request: &Request) -> Mem<Outcome>
    ensures means { IfOk result (spec.MeansBy syntax base.now request.now) }
    ensures bound { IfOk result spec.IsBoundOutcome }
{
    match syntax {
        BodySyntax::Ignored => Ok(Ok(RequestBody::Nothing)),
        BodySyntax::Opaque => read_opaque(alloc, request),
        BodySyntax::Turtle => read_turtle(alloc, base, request.body.as_slice()),
        BodySyntax::JsonLd => read_json_ld(alloc, base, request.body.as_slice()),
        BodySyntax::N3Patch => read_patch(alloc, base, request.body.as_slice()),
        BodySyntax::SparqlUpdate => read_update(alloc, base, request.body.as_slice()),
    }
}

/// What the body of a request to the path means, where relative references are resolved against the
/// base: the URI of the path or, for POST, of the member. A body that is kept shares its memory
/// with the request.
///
/// # Errors
///
/// The first level is out of memory, the second a [`BodyFault`]: of the type, and else of the
/// syntax in which the body is read.
#[tactic(auto, unfolding(crate::specs::Bodies::Means))]
pub fn read_body(
    alloc: Global,
    base: &Iri,
    path: &Path,
    request: &Request,
) -> Mem<Result<RequestBody, BodyFault>>
    ensures means { IfOk result (spec.Means base.now path.now request.now) }
    ensures bound { IfOk result spec.IsBoundOutcome }
{
    match body_syntax(path, request) {
        Ok(syntax) => read_in(alloc, base, syntax, request),
        Err(fault) => Ok(Err(fault)),
    }
}
