//! The encoded size of terms, triples, graphs and changes, without encoding them.
ghost use Rattle.std.specs.Prelude.{◌≡◌, ◌+◌, ℕ, length};
ghost use Rattle.rdf_graph.specs.Size.{change_size, graph_size, saturated, term_size, text_size};
ghost use Rattle.rdf_graph.specs.Size.{triple_size, triples_size};

use crate::change::Change;
use crate::graph::Graph;
use crate::term::Term;
use crate::triple::Triple;

/// The most bytes that the triples of a document may have in their stored form, repeats included.
pub const TRIPLES_LIMIT: u64 = 8_388_608;

impl Term {
    /// The encoded size of the term, the bytes of its stored form: one for its kind, and for each
    /// of its texts eight and its bytes. At most 2^64 - 1.
    pub fn encoded_size(&self) -> u64
        ensures { result ≡ saturated (term_size self.now) }
    {
        match self {
            Term::Iri(iri) => saturating_sum(size_of(1), text_size(iri.as_str())),
            Term::Blank(label) => saturating_sum(size_of(1), text_size(label.as_str())),
            Term::Literal { lexical, datatype } => {
                let texts = saturating_sum(
                    text_size(lexical.as_str()),
                    text_size(datatype.as_str()),
                );
                saturating_sum(size_of(1), texts)
            }
            Term::Tagged { lexical, lang } => {
                let texts = saturating_sum(text_size(lexical.as_str()), text_size(lang.as_str()));
                saturating_sum(size_of(1), texts)
            }
        }
    }
}

impl Triple {
    /// The encoded size of the triple, the bytes of its stored form: those of its terms. At most
    /// 2^64 - 1.
    pub fn encoded_size(&self) -> u64
        ensures { result ≡ saturated (triple_size self.now) }
    {
        parts_size(&self.s, &self.p, &self.o)
    }
}

impl Graph {
    /// The encoded size of the graph, the bytes of its stored form: eight for its count, and those
    /// of its triples. At most 2^64 - 1.
    pub fn encoded_size(&self) -> u64
        ensures { result ≡ saturated (graph_size self.now) }
    {
        saturating_sum(size_of(8), sum_of_sizes(self.as_slice()))
    }
}

impl Change {
    /// The encoded size of the change, the bytes of the stored forms of both its graphs. At most
    /// 2^64 - 1.
    pub fn encoded_size(&self) -> u64
        ensures { result ≡ saturated (change_size self.now.removed self.now.added) }
    {
        saturating_sum(self.removed.encoded_size(), self.added.encoded_size())
    }
}

/// The encoded size of the triple of these terms.
pub(crate) fn parts_size(s: &Term, p: &Term, o: &Term) -> u64
    ensures { result ≡ saturated (term_size s.now + (term_size p.now + term_size o.now)) }
{
    let rest = saturating_sum(p.encoded_size(), o.encoded_size());
    saturating_sum(s.encoded_size(), rest)
}

/// The sum of the triples' encoded sizes.
fn sum_of_sizes(triples: &[Triple]) -> u64
    ensures { result ≡ saturated (triples_size triples.now) }
{
    let mut size = size_of(0);
    for triple in triples {
        size = saturating_sum(size, triple.encoded_size());
    }
    size
}

/// The encoded size of a text: eight bytes for its length, and its bytes.
fn text_size(text: &str) -> u64
    ensures { result ≡ saturated (text_size text.now) }
{
    saturating_sum(size_of(8), size_of(text.len()))
}

/// The number as an encoded size.
#[tactic(auto, unfolding(crate::specs::Size::saturated))]
pub fn size_of(number: usize) -> u64
    ensures { result ≡ saturated number }
{
    number as u64
}

/// The sum of two encoded sizes, at most 2^64 - 1.
pub fn saturating_sum(first: u64, second: u64) -> u64
    ensures { (m : ℕ) (n : ℕ) → first ≡ saturated m → second ≡ saturated n
        → result ≡ saturated (m + n) }
{
    first.saturating_add(second)
}
