//! Rules: what they are about, which modes they grant, and whom they cover.
ghost use Rattle.std.specs.Prelude.{◌≡◌, IfOk};

use crate::items::Items;
use pod_base::{Mem, Mode, Text};
use pod_path::Path;
use rdf_graph::Term;
use std::alloc::Global;

/// Whom a rule covers.
#[derive(Debug, Drop)]
pub enum Subject {
    /// The agent with this IRI (`acl:agent`).
    Agent(Text),
    /// Everyone (`foaf:Agent`).
    Everyone,
    /// Every known agent (`acl:AuthenticatedAgent`).
    Authenticated,
    /// The members of a group (`acl:agentGroup`), and the path of the document that lists them,
    /// if it is one of this pod.
    Group { doc: Option<Path>, iri: Text },
}

/// A rule: a node of type `acl:Authorization` with its values, in the order of its triples.
#[derive(Debug, Drop)]
pub struct Rule {
    pub node: Term,
    /// The resources that it is about (`acl:accessTo`).
    pub access_to: Items<Path>,
    /// The containers whose members it is about (`acl:default`).
    pub defaults: Items<Path>,
    pub modes: Items<Mode>,
    pub subjects: Items<Subject>,
}

/// The rules of an access list, in the order of their nodes.
#[derive(Debug, Drop)]
pub struct Rules {
    pub list: Items<Rule>,
}

/// How an access list applies to a resource: as its own, or as that of a container above it.
#[derive(Clone, Copy, Debug, PartialEq, Eq)]
pub enum How {
    Own,
    Inherited,
}

impl Rules {
    /// Equal rules of an access list, which share their texts.
    pub fn copy(&self, alloc: Global) -> Mem<Rules>
        ensures { IfOk result (λ copy. copy ≡ self.now) }
    {
        let rules = self.list.as_slice();
        let mut list = Vec::with_capacity(alloc, rules.len())?;
        for rule in rules {
            let copy = rule.copy(alloc)?;
            list.push(copy)?;
        }
        let list = Items::from_vec(list);
        Ok(Rules { list })
    }
}

impl Rule {
    /// An equal rule of an access list, which shares its texts.
    pub fn copy(&self, alloc: Global) -> Mem<Rule>
        ensures { IfOk result (λ copy. copy ≡ self.now) }
    {
        let node = self.node.copy(alloc)?;
        let access_to = copy_paths(alloc, &self.access_to)?;
        let defaults = copy_paths(alloc, &self.defaults)?;
        let modes = copy_modes(alloc, &self.modes)?;
        let subjects = copy_subjects(alloc, &self.subjects)?;
        Ok(Rule {
            node,
            access_to,
            defaults,
            modes,
            subjects,
        })
    }
}

impl Subject {
    /// An equal subject of a rule, which shares its texts.
    pub fn copy(&self, alloc: Global) -> Mem<Subject>
        ensures { IfOk result (λ copy. copy ≡ self.now) }
    {
        match self {
            Subject::Agent(iri) => {
                let iri = iri.copy(alloc)?;
                Ok(Subject::Agent(iri))
            }
            Subject::Everyone => Ok(Subject::Everyone),
            Subject::Authenticated => Ok(Subject::Authenticated),
            Subject::Group { doc, iri } => {
                let doc = copy_document(alloc, doc)?;
                let iri = iri.copy(alloc)?;
                Ok(Subject::Group { doc, iri })
            }
        }
    }
}

/// Copies the path of the document of a rule's group, if there is one.
fn copy_document(alloc: Global, doc: &Option<Path>) -> Mem<Option<Path>>
    ensures { IfOk result (λ copy. copy ≡ doc.now) }
{
    match doc {
        Some(path) => {
            let path = path.copy(alloc)?;
            Ok(Some(path))
        }
        None => Ok(None),
    }
}

/// Copies the paths of a rule.
fn copy_paths(alloc: Global, paths: &Items<Path>) -> Mem<Items<Path>>
    ensures { IfOk result (λ copies. copies ≡ paths.now) }
{
    let paths = paths.as_slice();
    let mut copies = Vec::with_capacity(alloc, paths.len())?;
    for path in paths {
        let copy = path.copy(alloc)?;
        copies.push(copy)?;
    }
    Ok(Items::from_vec(copies))
}

/// Copies the modes of a rule.
fn copy_modes(alloc: Global, modes: &Items<Mode>) -> Mem<Items<Mode>>
    ensures { IfOk result (λ copies. copies ≡ modes.now) }
{
    let copies = Vec::from_slice(alloc, modes.as_slice())?;
    Ok(Items::from_vec(copies))
}

/// Copies the subjects of a rule.
fn copy_subjects(alloc: Global, subjects: &Items<Subject>) -> Mem<Items<Subject>>
    ensures { IfOk result (λ copies. copies ≡ subjects.now) }
{
    let subjects = subjects.as_slice();
    let mut copies = Vec::with_capacity(alloc, subjects.len())?;
    for subject in subjects {
        let copy = subject.copy(alloc)?;
        copies.push(copy)?;
    }
    Ok(Items::from_vec(copies))
}
