//! Nodes: those that a document names, and those that it leaves unnamed.

ghost use Rattle.std.specs.Prelude.{◌≡◌, ℕ, List, codes, string_bytes, IfOk, IfSome, IfNone};
ghost use Rattle.std.specs.Prelude.{IsErrOf, OnOk};
ghost use Rattle.std.specs.BTreeSet.{contains_text};
ghost use Rattle.rdf_graph.specs.Term.{IsLiteral};
ghost use Rattle.rdf_graph.specs.declared.term.Term.{Term};
ghost use Rattle.serde_json.specs.Find.{get};
ghost use Rattle.serde_json.specs.View.{view};
ghost use Rattle.jsonld_expanded.specs.Nodes.{IsLabelled, IsNamed, IsNextFree, unnamed_label};
ghost use Rattle.jsonld_expanded.specs.Expands.{IsNodeBy, IsUnnamed};
ghost use Rattle.jsonld_expanded.specs.Walks.{Advances, Refuses, scope_view};
ghost use Rattle.jsonld_expanded.specs.declared.fault.Refusal.TheVariants as Refusal;

use crate::fault::{Refusal, refusal_of};
use crate::used_labels::after_mark;
use crate::walk_scope::Scope;
use crate::walk_state::Walk;
use iri_ref::iri_of_reference;
use pod_base::{Mem, NoMemory, Text};
use rdf_graph::Term;
use serde_json::Value;
use std::alloc::Global;
use turtle_lex::is_label;

/// The label of a node that a text names as `_:` and a label.
fn label_of(text: &str) -> Option<&str>
    ensures some { IfSome result (λ l. IsLabelled text.now l.now) }
    ensures none { IfNone result ((l : List ℕ) → IsLabelled text.now l → ⊥) }
{
    match after_mark(text) {
        None => None,
        Some(label) => if is_label(label) { Some(label) } else { None },
    }
}

/// The label of the document's unnamed node with this number.
fn unnamed_label(alloc: Global, number: u64) -> Mem<String>
    ensures { IfOk result (λ label. string_bytes label ≡ unnamed_label number) }
{
    Ok(format!(in alloc; "g{number}")?)
}

impl<'a> Scope<'a> {
    /// The node that an `@id` or a `@type` of the document names.
    pub(crate) fn named(&self, text: &str) -> Result<Term, Refusal>
        ensures named { IfOk result (IsNamed self.now.base.now text.now) }
        ensures out { IsErrOf result Refusal.OutOfProfile
            → (t : Term) → IsNamed self.now.base.now text.now t → ⊥ }
    {
        match label_of(text) {
            Some(label) => {
                let label = Text::of(self.alloc, label)?;
                Ok(Term::Blank(label))
            }
            None => match iri_of_reference(self.alloc, self.base, text) {
                Ok(iri) => Ok(Term::Iri(iri)),
                Err(fault) => Err(refusal_of(fault)),
            },
        }
    }

    /// The first number from `from` on whose label the document doesn't have, and that label, for
    /// an unnamed node.
    fn next_free(&self, from: u64) -> Mem<(u64, String)>
        ensures free { IfOk result (λ r. IsNextFree (contains_text self.now.labels) from r.0) }
        ensures label { IfOk result (λ r. string_bytes r.1 ≡ unnamed_label r.0) }
    {
        let mut number = from;
        loop {
            let label = unnamed_label(self.alloc, number)?;
            if !self.labels.contains(label.as_str()) {
                return Ok((number, label));
            }
            match number.checked_add(1) {
                Some(next) => number = next,
                None => return Err(NoMemory),
            }
        }
    }

    /// The document's next unnamed node.
    pub(crate) fn unnamed(&self, walk: &mut Walk) -> Mem<Term>
        ensures node { IfOk result (λ node.
            Advances (IsUnnamed (scope_view self.now) node) walk.old walk.new) }
        ensures literal { IfOk result (λ node. ¬ IsLiteral node) }
    {
        let (number, label) = self.next_free(walk.next)?;
        let label = Text::from_string(self.alloc, label)?;
        match number.checked_add(1) {
            Some(next) => walk.next = next,
            None => return Err(NoMemory),
        }
        Ok(Term::Blank(label))
    }

    /// The node of an object of the document, which it names or leaves unnamed.
    pub(crate) fn node(&self, walk: &mut Walk, object: &Value) -> Result<Term, Refusal>
        ensures node { IfOk result (λ node. Advances
            (IsNodeBy (scope_view self.now) (get (codes "@id") (view object.now)) node)
            walk.old walk.new) }
        ensures literal { IfOk result (λ node. ¬ IsLiteral node) }
        ensures out { IsErrOf result Refusal.OutOfProfile → (node : Term)
            → Refuses (IsNodeBy (scope_view self.now) (get (codes "@id") (view object.now)) node)
            walk.old }
    {
        match object.get("@id") {
            None => Ok(self.unnamed(walk)?),
            Some(Value::String(text)) => self.named(text.as_str()),
            Some(_) => Err(Refusal::OutOfProfile),
        }
    }
}
