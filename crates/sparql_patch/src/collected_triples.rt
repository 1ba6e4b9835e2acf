//! What an update names, as it is read.

ghost use Rattle.std.specs.Prelude.{◌≡◌, ◌++◌, ◌∷◌, [], List as ListOf, IfOk, OnOk};
ghost use Rattle.sparql_patch.specs.declared.named.Named.{Named as NamedTriple};
ghost use Rattle.sparql_patch.specs.UpdateSpells.{is_insert};
ghost use Rattle.sparql_patch.specs.Reading.{IsTermOrBlank, naming_from, IsNamingOrBlank};
ghost use Rattle.sparql_patch.specs.Reading.{IsCounted, IsCollected};

use crate::named::Named;
use pod_base::{List, Mem, NoMemory};
use rdf_graph::{TRIPLES_LIMIT, Term, Triple, saturating_sum};
use std::alloc::Global;
use turtle_grammar::{Start, Within};
use turtle_reader::{Language, Referent, ResolvedTriple};

/// What an update names so far. Past the limit on size nothing more is kept, and past a blank node
/// nothing is known of the rest.
#[derive(Drop)]
pub(crate) struct Collected {
    /// The triples that are named, as long as they keep the limit.
    pub(crate) named: List<Named>,
    /// Their encoded size, repeats included, at most 2^64 - 1.
    pub(crate) size: u64,
    /// Whether there was a blank node, in a triple that isn't counted then.
    pub(crate) has_blank: bool,
}

/// The term of an update's triple, unless it is a blank node.
fn unless_blank(term: Term) -> Option<Term>
    ensures { IsTermOrBlank (Referent.Term term) result }
{
    match term {
        Term::Blank(_) => None,
        _ => Some(term),
    }
}

/// The term that a node of an update's triple refers to, unless that is a blank node. An update has
/// neither variables nor formulas in formulas.
fn term_of(referent: Referent) -> Mem<Option<Term>>
    ensures { IfOk result (IsTermOrBlank referent) }
{
    match referent {
        Referent::Term(term) => Ok(unless_blank(term)),
        Referent::Unnamed(_) => Ok(None),
        Referent::Variable(_) => Err(NoMemory),
        Referent::Formula(_) => Err(NoMemory),
    }
}

/// The naming of these terms' triple in an update, with or without the word INSERT.
fn naming_from(s: Option<Term>, p: Option<Term>, o: Option<Term>, insert: bool) -> Option<Named>
    ensures { result ≡ naming_from s p o insert }
{
    match (s, p, o) {
        (Some(s), Some(p), Some(o)) => Some(Named {
            triple: Triple { s, p, o },
            insert,
        }),
        _ => None,
    }
}

/// Whether the word before the formula of an update's triple is INSERT.
fn is_insert(within: Within) -> bool
    ensures { result ≡ is_insert within }
{
    matches!(within, Within::Insert)
}

/// The naming of a triple in an update, unless it has a blank node.
fn naming_of(resolved: ResolvedTriple) -> Mem<Option<Named>>
    ensures { IfOk result (IsNamingOrBlank resolved) }
{
    let insert = is_insert(resolved.within);
    let s = term_of(resolved.subject)?;
    let p = term_of(resolved.predicate)?;
    let o = term_of(resolved.object)?;
    Ok(naming_from(s, p, o, insert))
}

/// Appends a naming to those that are collected from an update.
fn push(alloc: Global, named: &mut List<Named>, naming: Named) -> Mem<()>
    ensures { OnOk result (named.new.items ≡ named.old.items ++ naming ∷ []) }
{
    match named.push(alloc, naming) {
        Ok(()) => Ok(()),
        Err(_) => Err(NoMemory),
    }
}

impl Collected {
    /// The namings of an update of which none are collected yet.
    pub(crate) fn new(alloc: Global) -> Collected
        ensures { IsCollected [] result }
    {
        Collected {
            named: List::new(alloc),
            size: 0,
            has_blank: false,
        }
    }

    /// Counts a naming that is collected from an update, and appends it as long as all keep the
    /// limit.
    fn add(&mut self, alloc: Global, naming: Named) -> Mem<()>
        ensures counted { OnOk result ((all : ListOf NamedTriple) → IsCounted all self.old
            → IsCounted (all ++ naming ∷ []) self.new) }
        ensures has_blank { OnOk result (self.new.has_blank ≡ self.old.has_blank) }
    {
        self.size = saturating_sum(self.size, naming.triple.encoded_size());
        if self.size > TRIPLES_LIMIT {
            return Ok(());
        }
        push(alloc, &mut self.named, naming)?;
        Ok(())
    }
}

impl Language for Collected {
    ghost use Rattle.turtle_grammar.specs.declared.symbol.Start.TheVariants.{Update};
    ghost use Rattle.turtle_reader.specs.FirstFaults.{NeverLarge};

    ghost symbol = { Update };

    ghost is_sound = { λ bytes collected. Unit {0} };

    ghost is_kept = { λ bytes handed collected. IsCollected handed collected };

    ghost is_large = { λ base bytes. NeverLarge };

    fn start() -> Start {
        Start::Update
    }

    fn keep(&mut self, alloc: Global, _bytes: &[u8], triple: ResolvedTriple) -> Mem<()> {
        match naming_of(triple)? {
            Some(naming) => self.add(alloc, naming),
            None => {
                self.has_blank = true;
                Ok(())
            }
        }
    }

    fn judge(
        &mut self,
        _alloc: Global,
        _bytes: &[u8],
        _waiting: Option<ResolvedTriple>,
    ) -> Mem<bool> {
        Ok(false)
    }
}
