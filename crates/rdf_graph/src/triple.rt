//! Triples and their order.
ghost use Rattle.std.specs.Prelude.{◌≡◌, IsTrue, IfOk, ◌↔◌};
ghost use Rattle.rdf_graph.specs.Triple.{IsRdf};

use crate::term::Term;
use pod_base::Mem;
use std::alloc::Global;

/// A triple: subject, predicate and object.
#[derive(Debug, Drop)]
pub struct Triple {
    pub s: Term,
    pub p: Term,
    pub o: Term,
}

impl Triple {
    /// A copy of the triple.
    pub fn copy(&self, alloc: Global) -> Mem<Triple>
        ensures { IfOk result (λ copy. copy ≡ self.now) }
    {
        let s = self.s.copy(alloc)?;
        let p = self.p.copy(alloc)?;
        let o = self.o.copy(alloc)?;
        Ok(Triple { s, p, o })
    }

    /// Whether RDF has such a triple: its subject is no literal, and its predicate is an IRI (RDF
    /// 1.1, section 3.1).
    pub fn is_rdf(&self) -> bool
        ensures { IsTrue result ↔ IsRdf self.now }
    {
        self.p.is_iri() && !self.s.is_literal()
    }
}
