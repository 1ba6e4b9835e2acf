//! The walk over a document.

ghost use Rattle.std.specs.Prelude.{◌≡◌, OnOk, IsErrOf};
ghost use Rattle.serde_json.specs.Data.{object as object_of};
ghost use Rattle.serde_json.specs.View.{view, items_view, members_view};
ghost use Rattle.jsonld_expanded.specs.Expands.{WalksDocument, WalksEachNodeObject};
ghost use Rattle.jsonld_expanded.specs.Expands.{WalksNodeObject};
ghost use Rattle.jsonld_expanded.specs.Walks.{Advances, Refuses, scope_view};
ghost use Rattle.jsonld_expanded.specs.declared.fault.Refusal.TheVariants as Refusal;

use crate::fault::Refusal;
use crate::walk_scope::Scope;
use crate::walk_state::Walk;
use serde_json::{Map, Value};

impl<'a> Scope<'a> {
    /// Walks over a top-level object of the document, with these members.
    fn lone_object(
        &self,
        walk: &mut Walk,
        object: &Value,
        members: &Map<String, Value>,
    ) -> Result<(), Refusal>
        requires { view object.now ≡ object_of (members_view members.now.entries) }
        ensures ok { OnOk result (Advances (WalksNodeObject (scope_view self.now)
            (object_of (members_view members.now.entries))) walk.old walk.new) }
        ensures out { IsErrOf result Refusal.OutOfProfile → Refuses (WalksNodeObject
            (scope_view self.now) (object_of (members_view members.now.entries))) walk.old }
    {
        let node = self.node(walk, object)?;
        walk.count_made(&node)?;
        self.properties(walk, &node, members)
    }

    /// Walks over a top-level node object of the document.
    fn node_object(&self, walk: &mut Walk, value: &Value) -> Result<(), Refusal>
        ensures ok { OnOk result (Advances
            (WalksNodeObject (scope_view self.now) (view value.now)) walk.old walk.new) }
        ensures out { IsErrOf result Refusal.OutOfProfile → Refuses
            (WalksNodeObject (scope_view self.now) (view value.now)) walk.old }
    {
        match value {
            Value::Object(members) => self.lone_object(walk, value, members),
            _ => Err(Refusal::OutOfProfile),
        }
    }

    /// Walks over the top-level node objects of the document's array.
    fn each_node_object(&self, walk: &mut Walk, items: &[Value]) -> Result<(), Refusal>
        ensures ok { OnOk result (Advances
            (WalksEachNodeObject (scope_view self.now) (items_view items.now))
            walk.old walk.new) }
        ensures out { IsErrOf result Refusal.OutOfProfile → Refuses
            (WalksEachNodeObject (scope_view self.now) (items_view items.now)) walk.old }
    {
        for item in items {
            self.node_object(walk, item)?;
        }
        Ok(())
    }

    /// Walks over a document: an array of node objects, or one node object.
    pub(crate) fn document(&self, walk: &mut Walk, value: &Value) -> Result<(), Refusal>
        ensures ok { OnOk result (Advances
            (WalksDocument (scope_view self.now) (view value.now)) walk.old walk.new) }
        ensures out { IsErrOf result Refusal.OutOfProfile → Refuses
            (WalksDocument (scope_view self.now) (view value.now)) walk.old }
    {
        match value {
            Value::Array(items) => self.each_node_object(walk, items),
            Value::Object(_members) => self.node_object(walk, value),
            _ => Err(Refusal::OutOfProfile),
        }
    }
}
