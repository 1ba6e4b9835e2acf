//! The walk over the values of a document.

ghost use Rattle.std.specs.Prelude.{◌≡◌, OnOk, IfOk, IsErrOf};
ghost use Rattle.rdf_graph.specs.Term.{IsLiteral};
ghost use Rattle.rdf_graph.specs.declared.term.Term.TheVariants.{Iri as IriTerm};
ghost use Rattle.serde_json.specs.Data.{object as object_of};
ghost use Rattle.serde_json.specs.View.{view, items_view, members_view};
ghost use Rattle.jsonld_expanded.specs.Expands.{WalksType, WalksEachType, WalksTypes, WalksLiteral};
ghost use Rattle.jsonld_expanded.specs.Expands.{WalksValue, WalksList, WalksArray, WalksCells};
ghost use Rattle.jsonld_expanded.specs.Expands.{WalksNode};
ghost use Rattle.jsonld_expanded.specs.Expands.{WalksMembers, WalksMember, WalksValues};
ghost use Rattle.jsonld_expanded.specs.Expands.{IsUnnamed, Says, Then, WalksEachValue};
ghost use Rattle.jsonld_expanded.specs.Vocabulary.{rdf_nil};
ghost use Rattle.jsonld_expanded.specs.Walks.{Advances, Refuses, scope_view};
ghost use Rattle.jsonld_expanded.specs.declared.fault.Refusal.TheVariants as Refusal;

use crate::fault::{Refusal, refusal_of};
use crate::value_literals::has_key;
use crate::walk_scope::Scope;
use crate::walk_state::Walk;
use iri_ref::Iri;
use pod_base::Mem;
use rdf_graph::{Term, copy_iri};
use serde_json::{Map, Value};

impl<'a> Scope<'a> {
    /// Walks over a value that is a type of the node.
    fn one_type(&self, walk: &mut Walk, node: &Term, value: &Value) -> Result<(), Refusal>
        requires { ¬ IsLiteral node.now }
        ensures ok { OnOk result (Advances
            (WalksType (scope_view self.now) node.now (view value.now)) walk.old walk.new) }
        ensures out { IsErrOf result Refusal.OutOfProfile → Refuses
            (WalksType (scope_view self.now) node.now (view value.now)) walk.old }
    {
        match value {
            Value::String(text) => {
                let kind = self.named(text.as_str())?;
                walk.say(self.alloc, node, &self.words.kind, kind)?;
                Ok(())
            }
            _ => Err(Refusal::OutOfProfile),
        }
    }

    /// Walks over the types in an array.
    fn each_type(&self, walk: &mut Walk, node: &Term, items: &[Value]) -> Result<(), Refusal>
        requires { ¬ IsLiteral node.now }
        ensures ok { OnOk result (Advances
            (WalksEachType (scope_view self.now) node.now (items_view items.now))
            walk.old walk.new) }
        ensures out { IsErrOf result Refusal.OutOfProfile → Refuses
            (WalksEachType (scope_view self.now) node.now (items_view items.now)) walk.old }
    {
        for item in items {
            self.one_type(walk, node, item)?;
        }
        Ok(())
    }

    /// Walks over the value of a `@type`.
    fn types(&self, walk: &mut Walk, node: &Term, value: &Value) -> Result<(), Refusal>
        requires { ¬ IsLiteral node.now }
        ensures ok { OnOk result (Advances
            (WalksTypes (scope_view self.now) node.now (view value.now)) walk.old walk.new) }
        ensures out { IsErrOf result Refusal.OutOfProfile → Refuses
            (WalksTypes (scope_view self.now) node.now (view value.now)) walk.old }
    {
        match value {
            Value::Array(items) => self.each_type(walk, node, items),
            Value::String(_text) => self.one_type(walk, node, value),
            _ => Err(Refusal::OutOfProfile),
        }
    }

    /// Walks over a value object.
    fn literal_value(
        &self,
        walk: &mut Walk,
        s: &Term,
        p: &Iri,
        object: &Value,
        members: &Map<String, Value>,
    ) -> Result<(), Refusal>
        requires literal { ¬ IsLiteral s.now }
        requires members { view object.now ≡ object_of (members_view members.now.entries) }
        ensures ok { OnOk result (Advances
            (WalksLiteral s.now p.now (members_view members.now.entries)) walk.old walk.new) }
        ensures out { IsErrOf result Refusal.OutOfProfile → Refuses
            (WalksLiteral s.now p.now (members_view members.now.entries)) walk.old }
    {
        let literal = self.literal(object, members)?;
        walk.say(self.alloc, s, p, literal)?;
        Ok(())
    }

    /// Walks over a value of the predicate p of the node s.
    #[cycle(walk)]
    fn value(&self, walk: &mut Walk, s: &Term, p: &Iri, value: &Value) -> Result<(), Refusal>
        requires { ¬ IsLiteral s.now }
        ensures ok { OnOk result (Advances
            (WalksValue (scope_view self.now) s.now p.now (view value.now)) walk.old walk.new) }
        ensures out { IsErrOf result Refusal.OutOfProfile → Refuses
            (WalksValue (scope_view self.now) s.now p.now (view value.now)) walk.old }
    {
        match value {
            Value::Object(members) => {
                let is_literal = has_key(value, "@value");
                if is_literal {
                    return self.literal_value(walk, s, p, value, members);
                }
                let is_list = has_key(value, "@list");
                if is_list {
                    return self.list_value(walk, s, p, members);
                }
                self.node_value(walk, s, p, members, value)
            }
            _ => Err(Refusal::OutOfProfile),
        }
    }

    /// Walks over a value that is a list object: `@list` alone.
    #[cycle(walk)]
    fn list_value(
        &self,
        walk: &mut Walk,
        s: &Term,
        p: &Iri,
        members: &Map<String, Value>,
    ) -> Result<(), Refusal>
        requires { ¬ IsLiteral s.now }
        ensures ok { OnOk result (Advances
            (WalksList (scope_view self.now) s.now p.now (members_view members.now.entries))
            walk.old walk.new) }
        ensures out { IsErrOf result Refusal.OutOfProfile → Refuses
            (WalksList (scope_view self.now) s.now p.now (members_view members.now.entries))
            walk.old }
    {
        if members.len() != 1 {
            return Err(Refusal::OutOfProfile);
        }
        match members.iter().next() {
            Some((_key, value)) => self.array_value(walk, s, p, value),
            None => Err(Refusal::OutOfProfile),
        }
    }

    /// Walks over the value of `@list`: an array.
    #[cycle(walk)]
    fn array_value(&self, walk: &mut Walk, s: &Term, p: &Iri, value: &Value) -> Result<(), Refusal>
        requires { ¬ IsLiteral s.now }
        ensures ok { OnOk result (Advances
            (WalksArray (scope_view self.now) s.now p.now (view value.now)) walk.old walk.new) }
        ensures out { IsErrOf result Refusal.OutOfProfile → Refuses
            (WalksArray (scope_view self.now) s.now p.now (view value.now)) walk.old }
    {
        match value {
            Value::Array(items) => self.cells(walk, s, p, items),
            _ => Err(Refusal::OutOfProfile),
        }
    }

    /// Walks over the values of a list's cells, of which the first is the object of p.
    #[cycle(walk)]
    fn cells(&self, walk: &mut Walk, s: &Term, p: &Iri, items: &[Value]) -> Result<(), Refusal>
        requires { ¬ IsLiteral s.now }
        ensures ok { OnOk result (Advances
            (WalksCells (scope_view self.now) s.now p.now (items_view items.now))
            walk.old walk.new) }
        ensures out { IsErrOf result Refusal.OutOfProfile → Refuses
            (WalksCells (scope_view self.now) s.now p.now (items_view items.now)) walk.old }
    {
        let mut last = s.copy(self.alloc)?;
        let mut link = copy_iri(self.alloc, p)?;
        for item in items {
            let cell = self.cell(walk, &last, &link)?;
            self.value(walk, &cell, &self.words.first, item)?;
            let next = copy_iri(self.alloc, &self.words.rest)?;
            last = cell;
            link = next;
        }
        self.nil(walk, &last, &link)
    }

    /// Adds a cell of a list value to the walk, as the object of p.
    fn cell(&self, walk: &mut Walk, s: &Term, p: &Iri) -> Mem<Term>
        requires { ¬ IsLiteral s.now }
        ensures cell { IfOk result (λ cell. Advances
            (Then (IsUnnamed (scope_view self.now) cell) (Says s.now p.now cell))
            walk.old walk.new) }
        ensures literal { IfOk result (λ cell. ¬ IsLiteral cell) }
    {
        let cell = self.unnamed(walk)?;
        let object = cell.copy(self.alloc)?;
        walk.say(self.alloc, s, p, object)?;
        Ok(cell)
    }

    /// Adds the end of a list value to the walk, as the object of p.
    fn nil(&self, walk: &mut Walk, s: &Term, p: &Iri) -> Result<(), Refusal>
        requires { ¬ IsLiteral s.now }
        ensures ok { OnOk result (Advances (Says s.now p.now (IriTerm rdf_nil)) walk.old walk.new) }
        ensures out { IsErrOf result Refusal.OutOfProfile → ⊥ }
    {
        let nil = copy_iri(self.alloc, &self.words.nil)?;
        walk.say(self.alloc, s, p, Term::Iri(nil))?;
        Ok(())
    }

    /// Walks over a value that is a node object.
    #[cycle(walk)]
    fn node_value(
        &self,
        walk: &mut Walk,
        s: &Term,
        p: &Iri,
        members: &Map<String, Value>,
        object: &Value,
    ) -> Result<(), Refusal>
        requires literal { ¬ IsLiteral s.now }
        requires members { view object.now ≡ object_of (members_view members.now.entries) }
        ensures ok { OnOk result (Advances
            (WalksNode (scope_view self.now) s.now p.now (members_view members.now.entries))
            walk.old walk.new) }
        ensures out { IsErrOf result Refusal.OutOfProfile → Refuses
            (WalksNode (scope_view self.now) s.now p.now (members_view members.now.entries))
            walk.old }
    {
        let node = self.node(walk, object)?;
        let value = node.copy(self.alloc)?;
        walk.say(self.alloc, s, p, value)?;
        self.properties(walk, &node, members)
    }

    /// Walks over the values of a node object's members.
    #[cycle(walk)]
    pub(crate) fn properties(
        &self,
        walk: &mut Walk,
        node: &Term,
        members: &Map<String, Value>,
    ) -> Result<(), Refusal>
        requires { ¬ IsLiteral node.now }
        ensures ok { OnOk result (Advances
            (WalksMembers (scope_view self.now) node.now (members_view members.now.entries))
            walk.old walk.new) }
        ensures out { IsErrOf result Refusal.OutOfProfile → Refuses
            (WalksMembers (scope_view self.now) node.now (members_view members.now.entries))
            walk.old }
    {
        for (key, value) in members {
            self.property(walk, node, key.as_str(), value)?;
        }
        Ok(())
    }

    /// Walks over the value of one member of a node object.
    #[cycle(walk)]
    fn property(
        &self,
        walk: &mut Walk,
        node: &Term,
        key: &str,
        value: &Value,
    ) -> Result<(), Refusal>
        requires { ¬ IsLiteral node.now }
        ensures ok { OnOk result (Advances
            (WalksMember (scope_view self.now) node.now key.now (view value.now))
            walk.old walk.new) }
        ensures out { IsErrOf result Refusal.OutOfProfile → Refuses
            (WalksMember (scope_view self.now) node.now key.now (view value.now)) walk.old }
    {
        let is_id = key == "@id";
        if is_id {
            return Ok(());
        }
        let is_type = key == "@type";
        if is_type {
            return self.types(walk, node, value);
        }
        match Iri::read(self.alloc, key) {
            Ok(p) => self.values(walk, node, &p, value),
            Err(fault) => Err(refusal_of(fault)),
        }
    }

    /// Walks over a value, or an array of them.
    #[cycle(walk)]
    fn values(&self, walk: &mut Walk, s: &Term, p: &Iri, value: &Value) -> Result<(), Refusal>
        requires { ¬ IsLiteral s.now }
        ensures ok { OnOk result (Advances
            (WalksValues (scope_view self.now) s.now p.now (view value.now)) walk.old walk.new) }
        ensures out { IsErrOf result Refusal.OutOfProfile → Refuses
            (WalksValues (scope_view self.now) s.now p.now (view value.now)) walk.old }
    {
        match value {
            Value::Array(items) => self.each_value(walk, s, p, items),
            Value::Object(_members) => self.value(walk, s, p, value),
            _ => Err(Refusal::OutOfProfile),
        }
    }

    /// Walks over the values in an array.
    #[cycle(walk)]
    fn each_value(&self, walk: &mut Walk, s: &Term, p: &Iri, items: &[Value]) -> Result<(), Refusal>
        requires { ¬ IsLiteral s.now }
        ensures ok { OnOk result (Advances
            (WalksEachValue (scope_view self.now) s.now p.now (items_view items.now))
            walk.old walk.new) }
        ensures out { IsErrOf result Refusal.OutOfProfile → Refuses
            (WalksEachValue (scope_view self.now) s.now p.now (items_view items.now)) walk.old }
    {
        for item in items {
            self.value(walk, s, p, item)?;
        }
        Ok(())
    }
}
