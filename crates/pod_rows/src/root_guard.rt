//! The guard of the root's access list.
ghost use Rattle.std.specs.Prelude.{◌≡◌, ◌&&◌, true};
ghost use Rattle.std.specs.List.{list_any};
ghost use Rattle.acl_rules.specs.Rules.{is_rule_statement};
ghost use Rattle.acl_rules.specs.Statements.{statement};
ghost use Rattle.pod_rows.specs.GraphSets.{triple_eq};
ghost use Rattle.pod_rows.specs.Guard.{guards, gives_control, has_value, is_guard};
ghost use Rattle.pod_rows.specs.SubjectOrder.{after_subject, are_by_subject, is_by_next};
ghost use Rattle.pod_rows.specs.SubjectOrder.{of_subject};

use acl_rules::vocabulary::{
    ACL_ACCESS_TO, ACL_AGENT, ACL_AUTHORIZATION, ACL_CONTROL, ACL_MODE, is_iri,
};
use rdf_graph::vocabulary::RDF_TYPE;
use rdf_graph::{Term, Triple};

/// Whether triples pass the guard of the root's access list, by a node of type `acl:Authorization`
/// that gives the owner control of the root, whose URI is the base. Of triples in the order of
/// their subjects, as those of a graph, it compares each with the next, and then looks at the
/// triples of one subject at a time. Of others it looks at all triples for each such node.
pub fn guards(base: &str, owner: &str, triples: &[Triple]) -> bool
    ensures { result ≡ guards base.now owner.now triples.now }
{
    if are_by_subject(triples) {
        guards_by_subject(base, owner, triples)
    } else {
        guards_anyhow(base, owner, triples)
    }
}

/// Whether the subject of a guard's triple isn't after that of the next, if there is one.
fn is_by_next(triple: &Triple, more: &[Triple]) -> bool
    ensures { result ≡ is_by_next triple.now more.now }
{
    match more.split_first() {
        Some((next, _)) => triple.s.cmp(&next.s).is_le(),
        None => true,
    }
}

/// Whether the triples for the guard are in the order of their subjects.
fn are_by_subject(triples: &[Triple]) -> bool
    ensures { result ≡ are_by_subject triples.now }
{
    let mut rest = triples;
    while let Some((triple, more)) = rest.split_first() {
        if !is_by_next(triple, more) {
            return false;
        }
        rest = more;
    }
    true
}

/// The triples for the guard from the first that has another subject.
fn after_subject<'a>(triples: &'a [Triple], node: &Term) -> &'a [Triple]
    ensures { result.now ≡ after_subject node.now triples.entry.now }
{
    let mut rest = triples;
    while let Some((triple, more)) = rest.split_first() {
        if triple.s != *node {
            return rest;
        }
        rest = more;
    }
    rest
}

/// The triples for the guard before the first that has another subject, and those from it on.
fn split_subject<'a>(triples: &'a [Triple], node: &Term) -> (&'a [Triple], &'a [Triple])
    ensures own { result.0.now ≡ of_subject node.now triples.entry.now }
    ensures more { result.1.now ≡ after_subject node.now triples.entry.now }
{
    let more = after_subject(triples, node);
    let (own, _) = triples.split_at(triples.len() - more.len());
    (own, more)
}

/// Whether triples in the order of their subjects pass the guard.
fn guards_by_subject(base: &str, owner: &str, triples: &[Triple]) -> bool
    requires { are_by_subject triples.now ≡ true }
    ensures { result ≡ guards base.now owner.now triples.now }
{
    let mut rest = triples;
    while let Some((first, _)) = rest.split_first() {
        let (own, more) = split_subject(rest, &first.s);
        if guards_anyhow(base, owner, own) {
            return true;
        }
        rest = more;
    }
    false
}

/// Whether triples in any order pass the guard.
fn guards_anyhow(base: &str, owner: &str, triples: &[Triple]) -> bool
    ensures { result ≡ guards base.now owner.now triples.now }
{
    triples
        .iter()
        .any(|triple| is_guard(base, owner, triples, triple))
}

/// Whether the triple's node passes the guard, since the triple gives it the type of
/// authorizations, and the node gives control.
fn is_guard(base: &str, owner: &str, triples: &[Triple], triple: &Triple) -> bool
    ensures { result ≡ is_guard base.now owner.now triples.now triple.now }
{
    is_rule_statement(triple) && gives_control(base, owner, triples, &triple.s)
}

/// Whether the triple says that its subject is an authorization, which may pass the guard.
fn is_rule_statement(triple: &Triple) -> bool
    ensures { result ≡ is_rule_statement triple.now }
{
    is_iri(&triple.p, RDF_TYPE) && is_iri(&triple.o, ACL_AUTHORIZATION)
}

/// Whether the node gives the owner control of the root, as the guard has to.
fn gives_control(base: &str, owner: &str, triples: &[Triple], node: &Term) -> bool
    ensures { result ≡ gives_control base.now owner.now triples.now node.now }
{
    let about_root = has_value(triples, node, ACL_ACCESS_TO, base);
    let control = has_value(triples, node, ACL_MODE, ACL_CONTROL);
    let to_owner = has_value(triples, node, ACL_AGENT, owner);
    are_all(about_root, control, to_owner)
}

/// Whether all three conditions of the guard hold.
fn are_all(first: bool, second: bool, third: bool) -> bool
    ensures { result ≡ (first && (second && third)) }
{
    first && second && third
}

/// Whether the triples for the guard give the node that IRI as a value of the property.
fn has_value(triples: &[Triple], node: &Term, property: &str, iri: &str) -> bool
    ensures { result ≡ has_value triples.now node.now property.now iri.now }
{
    triples
        .iter()
        .any(|triple| is_statement(triple, node, property, iri))
}

/// Whether the triple for the guard is that of a node, a property and an IRI.
fn is_statement(triple: &Triple, node: &Term, property: &str, iri: &str) -> bool
    ensures { result ≡ triple_eq triple.now (statement node.now property.now iri.now) }
{
    triple.s == *node && is_iri(&triple.p, property) && is_iri(&triple.o, iri)
}
