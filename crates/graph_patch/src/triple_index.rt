//! Indexes: the triples of a graph in the order of one of their terms, and then of another.
ghost use Rattle.std.specs.Prelude.{◌≡◌, List, IfOk, map};
ghost use Rattle.std.specs.Option.{option_copied};
ghost use Rattle.rdf_graph.specs.Graph.{IsOrdered};
ghost use Rattle.graph_patch.specs.Lookup.{IsIndex, IsKeyRange, first_text, key, key_cmp, key_order};
ghost use Rattle.graph_patch.specs.Lookup.{kind, parts_cmp, second_text};
ghost use Rattle.rdf_graph.specs.declared.triple.Triple.{Triple};

use pod_base::Mem;
use rdf_graph::{Term, Triple};
use std::alloc::Global;
use std::cmp::Ordering;

/// By which terms an index orders its triples.
#[derive(Clone, Copy)]
pub(crate) enum KeyOrder {
    /// By their predicates, and those with the same one by their objects.
    PredicateObject,
    /// By their objects, and those with the same one by their subjects.
    ObjectSubject,
}

/// The first term of the triple's key in an index.
fn first_of(order: KeyOrder, triple: &Triple) -> &Term
    ensures { result.now ≡ (key order triple.now).0 }
{
    match order {
        KeyOrder::PredicateObject => &triple.p,
        KeyOrder::ObjectSubject => &triple.o,
    }
}

/// The second term of the triple's key in an index.
fn second_of(order: KeyOrder, triple: &Triple) -> &Term
    ensures { result.now ≡ (key order triple.now).1 }
{
    match order {
        KeyOrder::PredicateObject => &triple.o,
        KeyOrder::ObjectSubject => &triple.s,
    }
}

/// The number of the term's kind, by which an index orders terms first.
fn kind(term: &Term) -> u8
    ensures { result ≡ kind term.now }
{
    match term {
        Term::Iri(_) => 0,
        Term::Blank(_) => 1,
        Term::Literal { .. } => 2,
        Term::Tagged { .. } => 3,
    }
}

/// The first of the term's texts, by which an index orders terms.
fn first_text(term: &Term) -> &[u8]
    ensures { result.now ≡ first_text term.now }
{
    match term {
        Term::Iri(iri) => iri.as_str().as_bytes(),
        Term::Blank(label) => label.as_str().as_bytes(),
        Term::Literal { lexical, .. } | Term::Tagged { lexical, .. } => {
            lexical.as_str().as_bytes()
        }
    }
}

/// The second of the term's texts, by which an index orders terms, if it has two.
fn second_text(term: &Term) -> &[u8]
    ensures { result.now ≡ second_text term.now }
{
    match term {
        Term::Iri(_) | Term::Blank(_) => &[],
        Term::Literal { datatype, .. } => datatype.as_str().as_bytes(),
        Term::Tagged { lang, .. } => lang.as_str().as_bytes(),
    }
}

/// The order of an index's terms, which compares whole texts and no line byte by byte.
#[tactic(auto, unfolding(crate::specs::Lookup::parts_cmp))]
fn cmp_parts(a: &Term, b: &Term) -> Ordering
    ensures { result ≡ parts_cmp a.now b.now }
{
    match kind(a).cmp(&kind(b)) {
        Ordering::Equal => match first_text(a).cmp(first_text(b)) {
            Ordering::Equal => second_text(a).cmp(second_text(b)),
            unequal => unequal,
        },
        unequal => unequal,
    }
}

/// How a triple's key in an index compares with these two terms.
#[tactic(auto, unfolding(crate::specs::Lookup::key_cmp))]
fn cmp_with(order: KeyOrder, triple: &Triple, first: &Term, second: &Term) -> Ordering
    ensures { result ≡ key_cmp (key order triple.now) (first.now, second.now) }
{
    match cmp_parts(first_of(order, triple), first) {
        Ordering::Equal => cmp_parts(second_of(order, triple), second),
        unequal => unequal,
    }
}

/// How the keys of two triples in an index compare.
fn cmp_keys(order: KeyOrder, a: &Triple, b: &Triple) -> Ordering
    ensures { result ≡ key_cmp (key order a.now) (key order b.now) }
{
    cmp_with(order, a, first_of(order, b), second_of(order, b))
}

/// How a triple's key in an index compares with those that have this first term, and this second
/// one where it is given.
#[tactic(auto, unfolding(crate::specs::Lookup::key_order))]
fn cmp_key(order: KeyOrder, triple: &Triple, first: &Term, second: Option<&Term>) -> Ordering
    ensures { result ≡ key_order (option_copied second.entry) first.now (key order triple.now) }
{
    match second {
        None => cmp_parts(first_of(order, triple), first),
        Some(second) => cmp_with(order, triple, first, second),
    }
}

/// The range of an index with this first term, and this second one where it is given.
pub(crate) fn range_of<'a>(
    order: KeyOrder,
    index: &'a [&'a Triple],
    first: &Term,
    second: Option<&Term>,
) -> &'a [&'a Triple]
    ensures { (triples : List Triple) → IsOrdered triples → IsIndex order triples index.now
        → IsKeyRange order first.now (option_copied second.entry) triples
        (map (λ r. r.now) result.now) }
{
    let low = index.partition_point(|triple| cmp_key(order, triple, first, second).is_lt());
    let rest = &index[low..];
    let count = rest.partition_point(|triple| cmp_key(order, triple, first, second).is_le());
    &rest[..count]
}

/// The index of a graph's triples, in the order of their keys.
pub(crate) fn index_of<'a>(
    alloc: Global,
    order: KeyOrder,
    triples: &'a [Triple],
) -> Mem<Vec<&'a Triple>>
    ensures { IfOk result (λ index. IsIndex order triples.now index.items) }
{
    let mut index: Vec<&Triple> = triples.iter().collect(alloc)?;
    index.sort_unstable_by(|a, b| cmp_keys(order, a, b));
    Ok(index)
}
