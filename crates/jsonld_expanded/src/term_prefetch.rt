//! Terms that are read ahead of their use.
//!
//! The terms of a large graph are more than the processor's caches hold, and a node object's text
//! takes too long for the processor to fetch the terms of the next one meanwhile. Terms that are
//! read one right after another are fetched together.

ghost use Rattle.std.specs.Prelude.{◌≤◌, length};

use rdf_graph::{Term, Triple};

/// How many triples are read at a time.
const RUN_LIMIT: usize = 32;

/// Reads a text ahead of its use: where it is, how long it is and its first byte, and returns the
/// sum of the last two.
fn read_text(text: &str) -> u64 {
    let len = text.len() as u64;
    match text.as_bytes().first() {
        Some(byte) => len.saturating_add(u64::from(*byte)),
        None => len,
    }
}

/// Reads the texts of the term ahead of their use.
fn read_term(term: &Term) -> u64 {
    match term {
        Term::Iri(iri) => read_text(iri.as_str()),
        Term::Blank(label) => read_text(label.as_str()),
        Term::Literal { lexical, datatype } => {
            read_text(lexical.as_str()).saturating_add(read_text(datatype.as_str()))
        }
        Term::Tagged { lexical, lang } => {
            read_text(lexical.as_str()).saturating_add(read_text(lang.as_str()))
        }
    }
}

/// Reads the terms of the triple ahead of their use.
fn read_triple(triple: &Triple) -> u64 {
    let ends = read_term(&triple.s).saturating_add(read_term(&triple.o));
    ends.saturating_add(read_term(&triple.p))
}

/// Reads the terms of the triples ahead of their use.
fn read_triples(triples: &[Triple]) -> u64 {
    let mut sum = 0u64;
    for triple in triples {
        sum = sum.saturating_add(read_triple(triple));
    }
    sum
}

/// Reads the terms of triples ahead of their use, and returns up to which position they were read.
/// Those before `ahead` were read already, and those at `at` are wanted next: more are read if
/// these aren't among them. Nothing depends on it but how long the terms are waited for.
pub(crate) fn read_ahead(triples: &[Triple], at: usize, ahead: usize) -> usize
    requires { at ≤ length triples.now }
{
    if at < ahead {
        return ahead;
    }
    let rest = &triples[at..];
    let count = rest.len().min(RUN_LIMIT);
    // The sum is used so that the compiler keeps the reading of it: it can't be that high.
    if read_triples(&rest[..count]) == u64::MAX {
        return at;
    }
    at.saturating_add(count)
}
