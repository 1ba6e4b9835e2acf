//! [`Scope`]: the prefixes that are declared.

ghost use Rattle.std.specs.Prelude.{◌≡◌, OnOk, OnErr};
ghost use Rattle.std.specs.Option.{option_copied};
ghost use Rattle.std.specs.FinMap as map;

use iri_ref::Iri;
use pod_base::Mem;
use std::alloc::Global;
use std::collections::BTreeMap;
use std::marker::Model;

/// The declared prefixes and their IRIs. Contracts see a finite map.
#[derive(Drop)]
pub struct Scope {
    iris: BTreeMap<String, Iri>,
}

impl Model for Scope {
    ghost use Rattle.std.specs.Prelude.{map as each};
    ghost use Rattle.std.specs.Coded.{coded_list, coded_ℕ};
    ghost use Rattle.std.specs.String.{string_bytes};
    ghost use Rattle.std.specs.FinMap as map;
    ghost use Rattle.turtle_terms.specs.Prefixes.{Prefixes};

    ghost Value = { Prefixes };

    ghost coded = { map.code (coded_list coded_ℕ) (coded_list coded_ℕ) };

    ghost view = { λ s. map.from_entries (each (λ e. (string_bytes e.0, e.1)) s.iris.entries) };
}

impl Scope {
    /// No prefixes; they are kept in memory of `alloc`. It takes none.
    pub fn new(alloc: Global) -> Scope
        ensures { result ≡ map.empty }
    {
        Scope {
            iris: BTreeMap::new(alloc),
        }
    }

    /// Declares a prefix, without its `:`. It replaces an earlier declaration. Out of memory,
    /// nothing changes.
    pub fn declare(&mut self, alloc: Global, prefix: &str, iri: Iri) -> Mem<()>
        ensures declared { OnOk result (self.new ≡ map.insert self.old prefix.now iri) }
        ensures unchanged { OnErr result (self.new ≡ self.old) }
    {
        let prefix = String::from_str(alloc, prefix)?;
        self.iris.insert(prefix, iri)?;
        Ok(())
    }

    /// The IRI of a prefix, without its `:`.
    pub fn iri(&self, prefix: &str) -> Option<&Iri>
        ensures { option_copied result ≡ map.get self.now prefix.now }
    {
        self.iris.get(prefix)
    }
}
