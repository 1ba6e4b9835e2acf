//! What the triples of a rule give: paths, modes and subjects.
ghost use Rattle.std.specs.Prelude.{◌≡◌, IfOk, Option, None, Some};
ghost use Rattle.std.specs.List.{list_any};
ghost use Rattle.iri_ref.specs.Characters.{is_hash};
ghost use Rattle.acl_rules.specs.Documents.{document_of, resource_of};
ghost use Rattle.acl_rules.specs.Rules.{is_rule_statement, mode_of, class_of, place_of};
ghost use Rattle.acl_rules.specs.Rules.{granted_mode, subject_of};
ghost use Rattle.acl_rules.specs.declared.rule.Subject.TheVariants.{Agent as AgentSubject};
ghost use Rattle.acl_rules.specs.declared.rule.Subject.TheVariants.{Group as GroupSubject};

use crate::rule::Subject;
use crate::vocabulary::{
    ACL_AGENT, ACL_AGENT_CLASS, ACL_AGENT_GROUP, ACL_APPEND, ACL_AUTHENTICATED_AGENT,
    ACL_AUTHORIZATION, ACL_CONTROL, ACL_MODE, ACL_READ, ACL_WRITE, FOAF_AGENT, is_iri,
};
use iri_ref::Iri;
use pod_base::{Mem, Mode, Text};
use pod_path::Path;
use rdf_graph::vocabulary::RDF_TYPE;
use rdf_graph::{Term, Triple};
use std::alloc::Global;

/// Whether a statement (a triple) says that its subject is a rule.
pub(crate) fn is_rule_statement(triple: &Triple) -> bool
    ensures { result ≡ is_rule_statement triple.now }
{
    is_iri(&triple.p, RDF_TYPE) && is_iri(&triple.o, ACL_AUTHORIZATION)
}

/// The path of the document that an IRI in a rule's statement names, without its fragment.
fn document_of(alloc: Global, base: &Iri, iri: &str) -> Mem<Option<Path>>
    ensures { IfOk result (λ found. found ≡ document_of base.now iri.now) }
{
    Path::of_uri(alloc, base, iri)
}

/// The path of the resource that an IRI in a rule's statement names. One with a fragment names
/// none.
fn resource_of(alloc: Global, base: &Iri, iri: &str) -> Mem<Option<Path>>
    ensures { IfOk result (λ found. found ≡ resource_of base.now iri.now) }
{
    if has_fragment(iri) {
        return Ok(None);
    }
    document_of(alloc, base, iri)
}

/// Whether an IRI in a rule's statement has a fragment.
fn has_fragment(iri: &str) -> bool
    ensures { result ≡ list_any is_hash iri.now }
{
    iri.as_bytes().iter().any(|byte| *byte == b'#')
}

/// The path that a statement of a rule gives, where it is one of this property.
pub(crate) fn place_of(
    alloc: Global,
    base: &Iri,
    property: &str,
    triple: &Triple,
) -> Mem<Option<Path>>
    ensures { IfOk result (λ found. found ≡ place_of base.now property.now triple.now) }
{
    if !is_iri(&triple.p, property) {
        return Ok(None);
    }
    match &triple.o {
        Term::Iri(iri) => resource_of(alloc, base, iri.as_str()),
        _ => Ok(None),
    }
}

/// The mode that an IRI in a rule's statement names.
fn mode_of(iri: &str) -> Option<Mode>
    ensures { result ≡ mode_of iri.now }
{
    if iri == ACL_READ {
        Some(Mode::Read)
    } else if iri == ACL_APPEND {
        Some(Mode::Append)
    } else if iri == ACL_WRITE {
        Some(Mode::Write)
    } else if iri == ACL_CONTROL {
        Some(Mode::Control)
    } else {
        None
    }
}

/// The mode that a statement of a rule grants.
pub(crate) fn granted_mode(triple: &Triple) -> Option<Mode>
    ensures { result ≡ granted_mode triple.now }
{
    if !is_iri(&triple.p, ACL_MODE) {
        return None;
    }
    match &triple.o {
        Term::Iri(iri) => mode_of(iri.as_str()),
        _ => None,
    }
}

/// The class of agents that an IRI in a rule's statement names.
fn class_of(iri: &str) -> Option<Subject>
    ensures { result ≡ class_of iri.now }
{
    if iri == FOAF_AGENT {
        Some(Subject::Everyone)
    } else if iri == ACL_AUTHENTICATED_AGENT {
        Some(Subject::Authenticated)
    } else {
        None
    }
}

/// The agent that an IRI in a rule's statement names.
fn agent_of(alloc: Global, iri: &str) -> Mem<Option<Subject>>
    ensures { IfOk result (λ found. found ≡ Some (AgentSubject iri.now)) }
{
    let iri = Text::of(alloc, iri)?;
    Ok(Some(Subject::Agent(iri)))
}

/// The group that an IRI in a rule's statement names.
fn group_of(alloc: Global, base: &Iri, iri: &str) -> Mem<Option<Subject>>
    ensures { IfOk result (λ found. found
        ≡ Some (GroupSubject (document_of base.now iri.now) iri.now)) }
{
    let doc = document_of(alloc, base, iri)?;
    let iri = Text::of(alloc, iri)?;
    Ok(Some(Subject::Group { doc, iri }))
}

/// The subject that a statement of a rule gives: whom the rule covers.
pub(crate) fn subject_of(alloc: Global, base: &Iri, triple: &Triple) -> Mem<Option<Subject>>
    ensures { IfOk result (λ found. found ≡ subject_of base.now triple.now) }
{
    let Term::Iri(iri) = &triple.o else {
        return Ok(None);
    };
    if is_iri(&triple.p, ACL_AGENT) {
        agent_of(alloc, iri.as_str())
    } else if is_iri(&triple.p, ACL_AGENT_CLASS) {
        Ok(class_of(iri.as_str()))
    } else if is_iri(&triple.p, ACL_AGENT_GROUP) {
        group_of(alloc, base, iri.as_str())
    } else {
        Ok(None)
    }
}
