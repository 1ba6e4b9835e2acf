//! The syntax of a body, by method, target and content type.

ghost use Rattle.std.specs.Prelude.{◌≡◌};
ghost use Rattle.std.specs.Option.{option_copied};
ghost use Rattle.request_fields.specs.ContentTypes.{content_type};
ghost use Rattle.request_body.specs.Syntaxes as spec;

use crate::fault::BodyFault;
use pod_base::{Fields, Method, Request};
use pod_path::Path;
use request_fields::{MediaType, content_type, links_to_container, media_type};

/// The syntax in which the body of a request is read.
#[derive(Clone, Copy, Debug, PartialEq, Eq)]
pub enum BodySyntax {
    /// It isn't read: the method takes no body.
    Ignored,
    /// Bytes, which are kept as they are.
    Opaque,
    /// A document of Turtle: a graph.
    Turtle,
    /// A document of expanded JSON-LD: a graph.
    JsonLd,
    /// A document of N3 Patch.
    N3Patch,
    /// An update of SPARQL data.
    SparqlUpdate,
}

/// Whether a body at the path is read in the syntax of a graph, since a container, an ACL or a
/// description holds one.
fn holds_graph(path: &Path) -> bool
    ensures { result ≡ spec.holds_graph path.now }
{
    path.is_container() || path.is_acl() || path.is_meta()
}

/// The type by which the syntax of an empty body without Content-Type is chosen.
fn assumed_type(graph: bool) -> &'static str
    ensures { result.now ≡ spec.assumed_type graph }
{
    if graph {
        "text/turtle"
    } else {
        "application/octet-stream"
    }
}

/// Whether a request has no Content-Type field to choose the syntax of its body by.
fn is_untyped(fields: &Fields) -> bool
    ensures { result ≡ spec.is_untyped fields.now }
{
    fields.count("content-type") == 0
}

/// The content type by which the syntax of the body of a PUT or a POST is chosen, where a graph is
/// made or anything.
pub(crate) fn put_type<'a>(graph: bool, request: &'a Request) -> Option<&'a str>
    ensures { option_copied result
        ≡ spec.put_type graph request.entry.now.fields request.entry.now.body }
{
    if is_untyped(&request.fields) && request.body.is_empty() {
        Some(assumed_type(graph))
    } else {
        content_type(&request.fields)
    }
}

/// The syntax that is chosen for the body of a PUT or a POST, by its media type.
fn put_syntax(graph: bool, media: MediaType) -> Result<BodySyntax, BodyFault>
    ensures { result ≡ spec.put_syntax graph media }
{
    match media {
        MediaType::Turtle => Ok(BodySyntax::Turtle),
        MediaType::JsonLd => Ok(BodySyntax::JsonLd),
        _ => if graph {
            Err(BodyFault::UnsupportedType)
        } else {
            Ok(BodySyntax::Opaque)
        },
    }
}

/// The syntax that is chosen for the body of a PATCH, by its media type.
fn patch_syntax(media: MediaType) -> Result<BodySyntax, BodyFault>
    ensures { result ≡ spec.patch_syntax media }
{
    match media {
        MediaType::N3 => Ok(BodySyntax::N3Patch),
        MediaType::SparqlUpdate => Ok(BodySyntax::SparqlUpdate),
        _ => Err(BodyFault::UnsupportedType),
    }
}

/// The syntax that is chosen for the body of a PUT or a POST.
fn content_syntax(graph: bool, request: &Request) -> Result<BodySyntax, BodyFault>
    ensures { result ≡ spec.typed_syntax (spec.put_syntax graph)
        (spec.put_type graph request.now.fields request.now.body) }
{
    match put_type(graph, request) {
        Some(ctype) => put_syntax(graph, media_type(ctype.as_bytes())),
        None => Err(BodyFault::NoType),
    }
}

/// The syntax that is chosen for the body of a PATCH.
fn change_syntax(request: &Request) -> Result<BodySyntax, BodyFault>
    ensures { result
        ≡ spec.typed_syntax spec.patch_syntax (content_type request.now.fields) }
{
    match content_type(&request.fields) {
        Some(ctype) => patch_syntax(media_type(ctype.as_bytes())),
        None => Err(BodyFault::NoType),
    }
}

/// The syntax in which the body of a request to the path is read.
///
/// A PUT and a POST take graphs in Turtle and JSON-LD, and anything else as bytes; only a graph
/// where a container, an access list or a description is made. That is decided by the path for PUT,
/// and by a Link to a type of containers for POST. An empty body needs no type there. A PATCH takes
/// N3 Patch and SPARQL's DATA updates.
///
/// # Errors
///
/// `NoType`, and then `UnsupportedType`.
pub fn body_syntax(path: &Path, request: &Request) -> Result<BodySyntax, BodyFault>
    ensures { result ≡ spec.body_syntax path.now request.now }
{
    match request.method {
        Method::Put => content_syntax(holds_graph(path), request),
        Method::Post => content_syntax(links_to_container(&request.fields), request),
        Method::Patch => change_syntax(request),
        _ => Ok(BodySyntax::Ignored),
    }
}
