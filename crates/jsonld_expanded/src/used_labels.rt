//! The labels of a document, which its unnamed nodes don't get.

ghost use Rattle.std.specs.Prelude.{◌≡◌, ◌||◌, ◌++◌, ℕ, List, codes, IfSome, IfNone, OnOk};
ghost use Rattle.std.specs.BTreeSet.{contains_text};
ghost use Rattle.serde_json.specs.View.{view, items_view, members_view};
ghost use Rattle.jsonld_expanded.specs.Nodes.{has_label, labels_in, labels_in_items};
ghost use Rattle.jsonld_expanded.specs.Nodes.{labels_in_members, labels_of_text, names_nodes};

use pod_base::Mem;
use serde_json::{Map, Value};
use std::alloc::Global;
use std::collections::BTreeSet;

/// Labels of a document.
pub(crate) type Labels = BTreeSet<String>;

/// What a text of the document has after `_:`, which is a label that it uses, if it begins so.
pub(crate) fn after_mark(text: &str) -> Option<&str>
    ensures some { IfSome result (λ l. text.now ≡ codes "_:" ++ l.now) }
    ensures none { IfNone result ((l : List ℕ) → text.now ≡ codes "_:" ++ l → ⊥) }
{
    text.strip_prefix("_:")
}

/// Inserts into the used labels of the document what a text has after `_:`, if it begins so.
fn insert_text(alloc: Global, labels: &mut Labels, text: &str) -> Mem<()>
    ensures { OnOk result ((l : List ℕ) → contains_text labels.new l
        ≡ (contains_text labels.old l || has_label (labels_of_text text.now) l)) }
{
    match after_mark(text) {
        None => Ok(()),
        Some(label) => {
            let label = String::from_str(alloc, label)?;
            let _ = labels.insert(label)?;
            Ok(())
        }
    }
}

/// Whether the strings at the key name nodes, so that their labels are used.
fn names_nodes(key: &str) -> bool
    ensures { result ≡ names_nodes key.now }
{
    key == "@id" || key == "@type"
}

/// Inserts the labels that a value of the document uses, whose strings name nodes or don't.
#[cycle(labels)]
pub(crate) fn insert_labels(
    alloc: Global,
    labels: &mut Labels,
    named: bool,
    value: &Value,
) -> Mem<()>
    ensures { OnOk result ((l : List ℕ) → contains_text labels.new l
        ≡ (contains_text labels.old l || has_label (labels_in named (view value.now)) l)) }
{
    match value {
        Value::String(text) if named => insert_text(alloc, labels, text.as_str()),
        Value::Array(items) => insert_item_labels(alloc, labels, named, items),
        Value::Object(members) => insert_member_labels(alloc, labels, members),
        _ => Ok(()),
    }
}

/// Inserts the labels that the items of an array use.
#[cycle(labels)]
fn insert_item_labels(
    alloc: Global,
    labels: &mut Labels,
    named: bool,
    items: &Vec<Value>,
) -> Mem<()>
    ensures { OnOk result ((l : List ℕ) → contains_text labels.new l
        ≡ (contains_text labels.old l
        || has_label (labels_in_items named (items_view items.now.items)) l)) }
{
    for item in items {
        insert_labels(alloc, labels, named, item)?;
    }
    Ok(())
}

/// Inserts the labels that the members of an object use.
#[cycle(labels)]
fn insert_member_labels(alloc: Global, labels: &mut Labels, members: &Map<String, Value>) -> Mem<()>
    ensures { OnOk result ((l : List ℕ) → contains_text labels.new l
        ≡ (contains_text labels.old l
        || has_label (labels_in_members (members_view members.now.entries)) l)) }
{
    for (key, member) in members {
        insert_labels(alloc, labels, names_nodes(key.as_str()), member)?;
    }
    Ok(())
}
