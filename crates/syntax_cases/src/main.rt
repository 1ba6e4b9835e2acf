//! Cases of the languages of a pod: references, paths, graphs, the tokens and the grammar of Turtle,
//! documents, patches, updates, and the bodies of requests. It reads one case from each line of
//! standard input, and prints the line with what the libraries answer as one more field. `stdin` has
//! the cases, and `stdout` what is expected of them, worked out by hand from RFC 3986, RDF 1.1, RDF
//! 1.1 Turtle, JSON-LD 1.1, SPARQL 1.1 Update, RFC 9110 and the Solid Protocol.
//!
//! The first field names the kind of the case, and mostly the second the call.
//!
//! | Fields | Answer |
//! |---|---|
//! | `reference` CALL FIELD.. | what `iri_ref` returns |
//! | `path` CALL FIELD.. | what `pod_path` returns |
//! | `graph` CALL FIELD.. | what `rdf_graph` or `graph_patch` returns; see [`graphs`] |
//! | `token` CALL FIELD.. | the tokens of a text |
//! | `grammar` CALL START SYMBOLS | what symbols produce; [`letters`] has their letters |
//! | `turtle term` BASE PREFIXES TEXT | the term of the first token |
//! | `turtle language` or `variable`, TEXT | the language, or the name, of the first token |
//! | `turtle unnamed` NUMBERS TEXT | the labels of unnamed nodes of a document |
//! | `turtle write` GRAPH | the text of a graph, and its length |
//! | `turtle read` or `size`, BASE TEXT | the graph of a document, or its size, or its fault |
//! | `json-ld read` or `write`, BASE TEXT | the graph of a document, or the text of that graph |
//! | `patch read` or `update read`, BASE TEXT | the patch, or what an update names, or the fault |
//! | `patch judge` TRIPLES | the patch of the triples of a document, or the first broken rule |
//! | `patch outcome` KIND GRAPH PARTS | what a patch makes of a row of that kind |
//! | `update spelled` NAMINGS GRAPH | the patch that an update spells at a graph |
//! | `update outcome` KIND GRAPH NAMINGS | what an update makes of a row of that kind |
//! | `body` BASE METHOD PATH BODY FIELD.. | what a body means, or the status and word of its fault |
//! | `refused` METHOD PATH BODY FIELD.. | the response to a body's fault |
#![tactic(auto)]

mod bodies;
mod derivations;
mod documents;
mod graph_patches;
mod graphs;
mod json_ld;
mod judged_triples;
mod named_triples;
mod nodes;
mod outcomes;
mod patches;
mod paths;
mod print;
mod references;
mod refusals;
mod requests;
mod symbol_letters;
mod token_meanings;
mod tokens;
mod turtle;
mod unnamed_labels;
mod written_graphs;

use pod_base::{Mem, NoMemory};
use std::alloc::{AllocError, Global};
use std::io;

/// The answer, or that the call was out of memory, as it is past a limit on what it makes.
fn told(alloc: Global, answer: Mem<String>) -> Result<String, AllocError> {
    match answer {
        Ok(text) => Ok(text),
        Err(NoMemory) => String::from_str(alloc, "out of memory"),
    }
}

/// What the libraries return for the fields of a case.
fn answer(alloc: Global, fields: &[&str]) -> Result<String, AllocError> {
    match fields {
        [kind, case @ ..] => answer_kind(alloc, kind, case),
        [] => String::from_str(alloc, "no case"),
    }
}

/// What the libraries return for a case of that kind.
fn answer_kind(alloc: Global, kind: &str, case: &[&str]) -> Result<String, AllocError> {
    match kind {
        "reference" => references::answer(alloc, case),
        "path" => paths::answer(alloc, case),
        "graph" => told(alloc, graphs::call(alloc, case)),
        "token" => tokens::answer(alloc, case),
        "grammar" => derivations::answer(alloc, case),
        "turtle" => told(alloc, turtle::call(alloc, case)),
        "json-ld" => told(alloc, documents::call(alloc, kind, case)),
        "patch" => told(alloc, patches::call(alloc, case)),
        "update" => told(alloc, patches::update(alloc, case)),
        "body" => told(alloc, bodies::call(alloc, case)),
        "refused" => told(alloc, refusals::call(alloc, case)),
        _ => String::from_str(alloc, "no case"),
    }
}

fn main(rt: HostRuntime) -> io::Result<()> {
    case_words::run(&rt, answer)
}
