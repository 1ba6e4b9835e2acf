//! The rule that gives the owner every mode on the root and on what is below it.
ghost use Rattle.std.specs.Prelude.{◌≡◌, ◌++◌, ◌∷◌, [], IfOk, OnOk};
ghost use Rattle.acl_rules.specs.Statements.{statement};
ghost use Rattle.acl_rules.specs.Vocabulary.{acl_mode, acl_control, acl_read, acl_write};
ghost use Rattle.rdf_graph.specs.declared.term.Term.TheVariants.{Iri as IriTerm};
ghost use Rattle.pod_rows.specs.FirstPods.{rule_iri, subject_triples, mode_triples};
ghost use Rattle.pod_rows.specs.FirstPods.{owner_triples};

use acl_rules::vocabulary::{
    ACL_ACCESS_TO, ACL_AGENT, ACL_AUTHORIZATION, ACL_CONTROL, ACL_DEFAULT, ACL_MODE, ACL_READ,
    ACL_WRITE,
};
use iri_ref::Iri;
use pod_base::{List, Mem, NoMemory};
use rdf_graph::vocabulary::RDF_TYPE;
use rdf_graph::{Graph, Term, Triple};
use std::alloc::Global;

/// The name of the rule, after the URI of the root.
const RULE_NAME: &str = ".acl#owner";

/// The IRI that a text is, for the owner's rule.
fn iri_of(alloc: Global, text: &str) -> Mem<Iri>
    ensures { IfOk result (λ iri. iri ≡ text.now) }
{
    match Iri::read(alloc, text) {
        Ok(iri) => Ok(iri),
        Err(_) => Err(NoMemory),
    }
}

/// The IRI of the owner's rule.
fn rule_of(alloc: Global, base: &Iri) -> Mem<Iri>
    ensures { IfOk result (λ iri. iri ≡ rule_iri base.now) }
{
    match base.appended(alloc, RULE_NAME) {
        Ok(iri) => Ok(iri),
        Err(_) => Err(NoMemory),
    }
}

/// The triple of a node, a property and a value, for the owner's rule.
fn statement(alloc: Global, node: &Iri, property: &str, value: &str) -> Mem<Triple>
    ensures { IfOk result (λ triple. triple ≡ statement (IriTerm node.now) property.now value.now) }
{
    let s = iri_of(alloc, node.as_str())?;
    let p = iri_of(alloc, property)?;
    let o = iri_of(alloc, value)?;
    Ok(Triple {
        s: Term::Iri(s),
        p: Term::Iri(p),
        o: Term::Iri(o),
    })
}

/// Appends the triple of a node, a property and a value to the owner's rule.
fn append(
    alloc: Global,
    triples: &mut Vec<Triple>,
    node: &Iri,
    property: &str,
    value: &str,
) -> Mem<()>
    ensures { OnOk result (triples.new.items
        ≡ triples.old.items ++ statement (IriTerm node.now) property.now value.now ∷ []) }
{
    let triple = statement(alloc, node, property, value)?;
    triples.push(triple)?;
    Ok(())
}

/// The triples that say what the owner's rule is about, and whom it covers.
fn subject_triples(alloc: Global, base: &Iri, owner: &Iri, rule: &Iri) -> Mem<Vec<Triple>>
    ensures { IfOk result (λ triples. triples.items ≡ subject_triples base.now owner.now rule.now) }
{
    let mut triples = Vec::new(alloc);
    append(alloc, &mut triples, rule, RDF_TYPE, ACL_AUTHORIZATION)?;
    append(alloc, &mut triples, rule, ACL_ACCESS_TO, base.as_str())?;
    append(alloc, &mut triples, rule, ACL_AGENT, owner.as_str())?;
    append(alloc, &mut triples, rule, ACL_DEFAULT, base.as_str())?;
    Ok(triples)
}

/// Appends the modes that the owner's rule grants.
fn append_modes(alloc: Global, triples: &mut Vec<Triple>, rule: &Iri) -> Mem<()>
    ensures { OnOk result (triples.new.items ≡ triples.old.items ++ mode_triples rule.now) }
{
    append(alloc, triples, rule, ACL_MODE, ACL_CONTROL)?;
    append(alloc, triples, rule, ACL_MODE, ACL_READ)?;
    append(alloc, triples, rule, ACL_MODE, ACL_WRITE)?;
    Ok(())
}

/// The triples of the owner's rule, in the order of graphs.
fn owner_triples(alloc: Global, base: &Iri, owner: &Iri) -> Mem<Vec<Triple>>
    ensures { IfOk result (λ triples. triples.items ≡ owner_triples base.now owner.now) }
{
    let rule = rule_of(alloc, base)?;
    let mut triples = subject_triples(alloc, base, owner, &rule)?;
    append_modes(alloc, &mut triples, &rule)?;
    Ok(triples)
}

/// The graph of the owner's rule.
pub(crate) fn owner_graph(alloc: Global, base: &Iri, owner: &Iri) -> Mem<Graph>
    ensures { IfOk result (λ graph. graph ≡ owner_triples base.now owner.now) }
{
    let triples = owner_triples(alloc, base, owner)?;
    Ok(Graph::in_order(List::from_vec(triples)))
}
