//! Requests and entries as the words of a case write them.

use case_words::{bytes, iri_of, known, method_of, number_of, text};
use pod_base::{Agent, Bytes, Fields, List, Moment, Request, Text};
use pod_command::{Basis, Edit, Entry, Who};
use pod_path::Path;
use rdf_graph::Term;
use rdf_graph::vocabulary::XSD_STRING;
use std::alloc::{AllocError, Global};

fn text_of(alloc: Global, word: &str) -> Result<Text, AllocError> {
    let text = text(alloc, word)?;
    known(Text::of(alloc, text.as_str()))
}

pub(crate) fn agent_of(alloc: Global, word: &str) -> Result<Agent, AllocError> {
    if word == "public" {
        return Ok(Agent::Public);
    }
    let iri = text_of(alloc, word)?;
    Ok(Agent::Known(iri))
}

/// A request with that method and target, and nothing else.
pub(crate) fn request_of(alloc: Global, method: &str, target: &str) -> Result<Request, AllocError> {
    let target = bytes(alloc, target)?;
    let target = known(Bytes::of(alloc, target.as_slice()))?;
    let body = known(Bytes::of(alloc, b""))?;
    Ok(Request {
        method: method_of(method),
        target,
        minor: 1,
        fields: Fields::new(alloc),
        body,
    })
}

/// The node of a rule.
fn node_of(alloc: Global, form: &str, word: &str) -> Result<Option<Term>, AllocError> {
    match form {
        "iri" => match known(iri_of(alloc, word))? {
            Some(iri) => Ok(Some(Term::Iri(iri))),
            None => Ok(None),
        },
        "blank" => {
            let label = text_of(alloc, word)?;
            Ok(Some(Term::Blank(label)))
        }
        "text" => {
            let lexical = text_of(alloc, word)?;
            match known(iri_of(alloc, XSD_STRING))? {
                Some(datatype) => Ok(Some(Term::Literal { lexical, datatype })),
                None => Ok(None),
            }
        }
        _ => {
            let lexical = text_of(alloc, word)?;
            let lang = text_of(alloc, form)?;
            Ok(Some(Term::Tagged { lexical, lang }))
        }
    }
}

fn who_of(alloc: Global, word: &str) -> Result<Who, AllocError> {
    match word {
        "agent" => Ok(Who::Agent),
        "everyone" => Ok(Who::Everyone),
        "authenticated" => Ok(Who::Authenticated),
        _ => {
            let iri = text_of(alloc, word)?;
            Ok(Who::Group(iri))
        }
    }
}

/// The path that a word is.
fn path_of(alloc: Global, word: &str) -> Result<Option<Path>, AllocError> {
    known(Path::of_text(alloc, word))
}

/// The basis that four words are.
fn basis_of(alloc: Global, words: &str) -> Result<Option<Basis>, AllocError> {
    let parts: Vec<&str> = words.split(' ').collect(alloc)?;
    let [acl, form, node, who] = parts.as_slice() else {
        return Ok(None);
    };
    let Some(acl) = path_of(alloc, acl)? else {
        return Ok(None);
    };
    let Some(rule) = node_of(alloc, form, node)? else {
        return Ok(None);
    };
    let who = who_of(alloc, who)?;
    Ok(Some(Basis { acl, rule, who }))
}

/// The bases that some words are.
fn bases_of(alloc: Global, words: &[&str]) -> Result<List<Basis>, AllocError> {
    let mut bases = Vec::new(alloc);
    for word in words {
        if let Some(basis) = basis_of(alloc, word)? {
            bases.push(basis)?;
        }
    }
    Ok(List::from_vec(bases))
}

/// So many edits of a path.
fn edits_of(alloc: Global, path: &Path, count: u64) -> Result<List<Edit>, AllocError> {
    let mut edits = Vec::new(alloc);
    for _ in 0..count {
        let path = known(path.copy(alloc))?;
        edits.push(Edit::Remove { path })?;
    }
    Ok(List::from_vec(edits))
}

/// The entry that some words are.
pub(crate) fn entry_of(alloc: Global, words: &[&str]) -> Result<Option<Entry>, AllocError> {
    let [
        seq,
        moment,
        agent,
        method,
        path,
        conn,
        number,
        edits,
        bases @ ..,
    ] = words
    else {
        return Ok(None);
    };
    let Some(path) = path_of(alloc, path)? else {
        return Ok(None);
    };
    let agent = agent_of(alloc, agent)?;
    let edits = edits_of(alloc, &path, number_of(edits))?;
    let bases = bases_of(alloc, bases)?;
    Ok(Some(Entry {
        seq: number_of(seq),
        conn: number_of(conn),
        number: number_of(number),
        agent,
        moment: Moment(number_of(moment)),
        method: method_of(method),
        path,
        edits,
        bases,
    }))
}
