//! The length of a graph's text, without writing it.

ghost use Rattle.std.specs.Prelude.{◌≡◌, ℕ, ◌+◌, length};
ghost use Rattle.rdf_graph.specs.Graph.{graph_text};
ghost use Rattle.rdf_graph.specs.Size.{saturated};
ghost use Rattle.rdf_graph.specs.Term.{datatype_text, escaped, text};
ghost use Rattle.rdf_graph.specs.Triple.{line};
ghost use Rattle.std.specs.List.{flat_map};
ghost use Rattle.turtle_text.specs.HasEscape.{has_escape};

use rdf_graph::vocabulary::XSD_STRING;
use rdf_graph::{Graph, Term, Triple};

/// The number as a length of a graph's Turtle text.
#[tactic(auto, unfolding(rdf_graph::specs::Size::saturated))]
fn len_of(number: usize) -> u64
    ensures { result ≡ saturated number }
{
    number as u64
}

/// The sum of two lengths of a graph's Turtle text, at most 2^64 - 1.
fn sum(first: u64, second: u64) -> u64
    ensures { (m : ℕ) (n : ℕ) → first ≡ saturated m → second ≡ saturated n → result ≡ saturated (m + n) }
{
    first.saturating_add(second)
}

/// Whether a literal's byte is written as two in a graph's text, with its escape.
fn has_escape(byte: u8) -> bool
    ensures { result ≡ has_escape byte }
{
    matches!(byte, b'\\' | b'"' | b'\n' | b'\r')
}

/// The length of a literal's lexical form in a graph's text, with its escapes.
fn escaped_len(lexical: &[u8]) -> u64
    ensures { result ≡ saturated (length (escaped lexical.now)) }
{
    let escapes = lexical.iter().filter(|byte| has_escape(**byte)).count();
    sum(len_of(lexical.len()), len_of(escapes))
}

/// The length in a graph's text of an IRI or a label between two delimiters, which have so many
/// bytes together.
fn delimited_len(delimiters: usize, text: &str) -> u64
    ensures { result ≡ saturated (delimiters + length text.now) }
{
    sum(len_of(delimiters), len_of(text.len()))
}

/// The length of what follows a literal's closing quote in a graph's text, with that datatype.
fn datatype_len(datatype: &str) -> u64
    ensures { result ≡ saturated (length (datatype_text datatype.now)) }
{
    if datatype == XSD_STRING {
        return len_of(0);
    }
    delimited_len(4, datatype)
}

/// The length of a literal's lexical form in a graph's text, with its escapes and between quotes.
fn quoted_len(lexical: &str) -> u64
    ensures { result ≡ saturated (2 + length (escaped lexical.now)) }
{
    sum(len_of(2), escaped_len(lexical.as_bytes()))
}

/// The length of a term in a graph's text, at most 2^64 - 1.
#[tactic(auto, unfolding(rdf_graph::specs::Term::text))]
pub fn term_len(term: &Term) -> u64
    ensures { result ≡ saturated (length (text term.now)) }
{
    match term {
        Term::Iri(iri) => delimited_len(2, iri.as_str()),
        Term::Blank(label) => delimited_len(2, label.as_str()),
        Term::Literal { lexical, datatype } => {
            sum(
                quoted_len(lexical.as_str()),
                datatype_len(datatype.as_str()),
            )
        }
        Term::Tagged { lexical, lang } => {
            sum(
                quoted_len(lexical.as_str()),
                delimited_len(1, lang.as_str()),
            )
        }
    }
}

/// The length of a triple's line in a graph's text.
fn line_len(triple: &Triple) -> u64
    ensures { result ≡ saturated (length (line triple.now)) }
{
    let rest = sum(term_len(&triple.o), len_of(5));
    sum(term_len(&triple.s), sum(term_len(&triple.p), rest))
}

/// The length of the lines of triples in a graph's text.
pub(crate) fn lines_len(triples: &[Triple]) -> u64
    ensures { result ≡ saturated (length (flat_map line triples.now)) }
{
    let mut len = len_of(0);
    for triple in triples {
        len = sum(len, line_len(triple));
    }
    len
}

/// The length of the graph's text in bytes, as [`write`](crate::write()) returns it, at most 2^64 -
/// 1.
pub fn len(graph: &Graph) -> u64
    ensures { result ≡ saturated (length (graph_text graph.now)) }
{
    lines_len(graph.as_slice())
}
