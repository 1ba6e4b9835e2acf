//! Agents, and the modes in which they may use a resource.
ghost use Rattle.std.specs.Prelude.{◌≡◌, IfOk};

use crate::memory::Mem;
use crate::text::Text;
use std::alloc::Global;

/// Who makes a request: anybody, or the agent with this IRI.
#[derive(Debug, Drop, PartialEq, Eq, PartialOrd, Ord, Hash)]
pub enum Agent {
    Public,
    Known(Text),
}

/// A mode of access to a resource, as Web Access Control names them.
#[derive(Clone, Copy, Debug, PartialEq, Eq, Hash)]
pub enum Mode {
    Read,
    Append,
    Write,
    Control,
}

impl Agent {
    /// An equal agent.
    pub fn copy(&self, alloc: Global) -> Mem<Agent>
        ensures { IfOk result (λ copy. copy ≡ self.now) }
    {
        match self {
            Agent::Public => Ok(Agent::Public),
            Agent::Known(iri) => {
                let iri = iri.copy(alloc)?;
                Ok(Agent::Known(iri))
            }
        }
    }
}
