//! Triples by references to their terms, such as the instances of patterns before they are copied.
ghost use Rattle.std.specs.Prelude.{◌≡◌, ◌↔◌, IfOk, IsTrue};
ghost use Rattle.rdf_graph.specs.Size.{saturated, triple_size};
ghost use Rattle.rdf_graph.specs.Triple.{IsRdf};
ghost use Rattle.rdf_graph.specs.TripleRef.{triple_of};

use crate::size::parts_size;
use crate::term::Term;
use crate::triple::Triple;
use pod_base::Mem;
use std::alloc::Global;

/// A triple by references to its terms.
#[derive(Clone, Copy)]
pub struct TripleRef<'a> {
    pub s: &'a Term,
    pub p: &'a Term,
    pub o: &'a Term,
}

impl Triple {
    /// The triple as a `TripleRef`, by references to its terms.
    pub fn parts(&self) -> TripleRef<'_>
        ensures { triple_of result ≡ self.now }
    {
        TripleRef {
            s: &self.s,
            p: &self.p,
            o: &self.o,
        }
    }
}

/// The triple of copies of the terms that a `TripleRef` refers to.
pub fn copy_parts(alloc: Global, triple: &TripleRef<'_>) -> Mem<Triple>
    ensures { IfOk result (λ copy. copy ≡ triple_of triple.now) }
{
    let s = triple.s.copy(alloc)?;
    let p = triple.p.copy(alloc)?;
    let o = triple.o.copy(alloc)?;
    Ok(Triple { s, p, o })
}

/// Whether the terms that a `TripleRef` refers to are a triple of RDF.
pub fn are_rdf_parts(triple: &TripleRef<'_>) -> bool
    ensures { IsTrue result ↔ IsRdf (triple_of triple.now) }
{
    triple.p.is_iri() && !triple.s.is_literal()
}

/// The encoded size of the triple whose terms a `TripleRef` refers to.
pub fn size_of_parts(triple: &TripleRef<'_>) -> u64
    ensures { result ≡ saturated (triple_size (triple_of triple.now)) }
{
    parts_size(triple.s, triple.p, triple.o)
}
