//! Bases: which rules of which access lists granted a change.
ghost use Rattle.std.specs.Prelude.{◌≡◌, IfOk};

use pod_base::{Mem, Text};
use pod_path::Path;
use rdf_graph::Term;
use std::alloc::Global;

/// Whom the subject of a rule covers.
#[derive(Debug, Drop)]
pub enum Who {
    /// The agent that it names.
    Agent,
    /// Everyone.
    Everyone,
    /// Every agent that is authenticated.
    Authenticated,
    /// The members of the group with this IRI.
    Group(Text),
}

/// What granted one of the needs of a change: the access list, the node of its rule, and whom that
/// rule covers.
#[derive(Debug, Drop)]
pub struct Basis {
    pub acl: Path,
    pub rule: Term,
    pub who: Who,
}

impl Who {
    /// A copy of whom a basis's rule covers.
    pub fn copy(&self, alloc: Global) -> Mem<Who>
        ensures { IfOk result (λ copy. copy ≡ self.now) }
    {
        match self {
            Who::Agent => Ok(Who::Agent),
            Who::Everyone => Ok(Who::Everyone),
            Who::Authenticated => Ok(Who::Authenticated),
            Who::Group(iri) => {
                let iri = iri.copy(alloc)?;
                Ok(Who::Group(iri))
            }
        }
    }
}

impl Basis {
    /// A copy of the basis.
    pub fn copy(&self, alloc: Global) -> Mem<Basis>
        ensures { IfOk result (λ copy. copy ≡ self.now) }
    {
        let acl = self.acl.copy(alloc)?;
        let rule = self.rule.copy(alloc)?;
        let who = self.who.copy(alloc)?;
        Ok(Basis { acl, rule, who })
    }
}
