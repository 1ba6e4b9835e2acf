//! The triples of a subject in the byte order of their keys.

ghost use Rattle.std.specs.Prelude.{◌≡◌, ◌<◌, ◌≤◌, ◌∷◌, length, map, take, drop, slice_index_or};
ghost use Rattle.std.specs.Prelude.{◌-◌, IfOk};
ghost use Rattle.rdf_graph.specs.Triple.{bytes_cmp};
ghost use Rattle.rdf_graph.specs.declared.triple.Triple.{Triple};
ghost use Rattle.jsonld_expanded.specs.Document.{key_below, key_of};
ghost use Rattle.jsonld_expanded.specs.Runs.{runs};
ghost use Rattle.jsonld_expanded.specs.Sorted.{sorted};
ghost use Rattle.jsonld_expanded.specs.Written.{same_key_by_ref};
ghost use denote.Ref.{Bor};

use crate::value_writing::key_of;
use pod_base::Mem;
use rdf_graph::Triple;
use std::alloc::Global;
use std::cmp::Ordering;

/// The byte order of the keys that two triples have in a node object.
fn cmp_keys(first: &Triple, second: &Triple) -> Ordering
    ensures { result ≡ bytes_cmp (key_of first.now) (key_of second.now) }
{
    key_of(first).cmp(key_of(second))
}

/// A subject's triples in the order of their keys; those under one key keep their order.
pub(crate) fn by_key<'a>(alloc: Global, triples: &'a [Triple]) -> Mem<Vec<&'a Triple>>
    ensures { IfOk result (λ refs. map (λ r. r.now) refs.items ≡ sorted key_below triples.now) }
{
    let mut refs: Vec<&Triple> = triples.iter().collect(alloc)?;
    refs.sort_by(|first, second| cmp_keys(first, second))?;
    Ok(refs)
}

/// Whether in the order of keys the triple at this position has the key of the one before it.
fn has_same_key(triples: &[&Triple], at: usize) -> bool
    requires some { 0 < at }
    requires within { at < length triples.now }
    ensures { (d : Bor Triple) → result ≡ same_key_by_ref
        (slice_index_or triples.now (at - 1) d) (slice_index_or triples.now at d) }
{
    key_of(triples[at - 1]) == key_of(triples[at])
}

/// How many triples in the order of their keys, from the first on, have the key of the first.
pub(crate) fn key_run(triples: &[&Triple]) -> usize
    requires { 0 < length triples.now }
    ensures some { 0 < result }
    ensures within { result ≤ length triples.now }
    ensures run { runs same_key_by_ref triples.now
        ≡ take result triples.now ∷ runs same_key_by_ref (drop result triples.now) }
{
    let mut len = 1;
    while len < triples.len() {
        if !has_same_key(triples, len) {
            return len;
        }
        len += 1;
    }
    len
}
