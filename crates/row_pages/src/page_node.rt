//! [`Node`]: a page of items, or a book of pages.
ghost use Rattle.std.specs.Prelude.{◌≡◌, ◌+◌, ◌<◌, ◌≤◌, ◌++◌, length, refl, IfNone, IfOk, IfSome, OnOk};
ghost use Rattle.std.specs.Arc.{arc_value};
ghost use Rattle.std.specs.List.{flat_map};
ghost use Rattle.row_pages.specs.Borders.{first_path};
ghost use Rattle.row_pages.specs.Items.{AreItemsInOrder, put_item};
ghost use Rattle.row_pages.specs.Nodes.{IsNode, HaveItems};
ghost use Rattle.row_pages.specs.Parts.{items_of_both};

use crate::item::Item;
use crate::keyed::Keyed;
use crate::limits::PAGE_LIMIT;
use crate::part::{Grown, Listed, Part};
use crate::part_list::{
    below_in, find_in, first_from_in, into_with_in, put_in, replace_in, share_all, without_in,
};
use crate::prefix_listing::list_parts;
use crate::search_steps::Steps;
use crate::sought_path::Sought;
use pod_base::{Mem, NoMemory};
use std::alloc::Global;
use std::marker::Model;
use std::mem;
use std::sync::Arc;
use std::sync::ledger::Ledger;

/// From one part to [`PAGE_LIMIT`] parts, which versions share.
#[derive(Drop)]
pub(crate) struct Node<T: Part> {
    parts: Arc<Vec<T>>,
}

impl<T: Part> Model for Node<T> {
    ghost use Rattle.std.specs.Prelude.{List};
    ghost use Rattle.std.specs.Arc.{arc_value};
    ghost use Rattle.std.specs.Coded.{coded_list};
    ghost use Rattle.row_pages.specs.Nodes.{IsNode};

    ghost Value = { List T };

    ghost coded = { coded_list T.code };

    ghost view = { λ node. (arc_value node.parts).items };

    ghost invariant = { λ node. IsNode T.items (arc_value node.parts).items };
}

impl<T: Part> Node<T> {
    /// The node of these parts.
    fn of(alloc: Global, parts: Vec<T>) -> Mem<Node<T>>
        requires { IsNode T.items parts.items }
        ensures { IfOk result (λ node. node ≡ parts.items) }
    {
        match Arc::new(alloc, parts) {
            Ok(parts) => Ok(Node { parts }),
            Err(_) => Err(NoMemory),
        }
    }

    /// The node of copies of these parts.
    fn of_slice(alloc: Global, parts: &[T]) -> Mem<Node<T>>
        requires { IsNode T.items parts.now }
        ensures { IfOk result (λ node. node ≡ parts.now) }
    {
        let mut all = Vec::with_capacity(alloc, parts.len())?;
        share_all(parts, &mut all)?;
        Node::of(alloc, all)
    }

    /// The parts of the node.
    fn parts(&self) -> &[T]
        ensures parts { result.now ≡ self.now }
        ensures node { IsNode T.items self.now }
    {
        self.parts.as_slice()
    }
}

/// The parts of a node that lie in some memory: taken out where nobody shares it, and else copied.
fn taken_out<T: Part>(alloc: Global, memory: &mut Arc<Vec<T>>) -> Mem<Vec<T>>
    ensures { IfOk result (λ parts. parts.items ≡ (arc_value memory.old).items) }
{
    match Arc::get_mut(memory) {
        Some(parts) => Ok(mem::replace(parts, Vec::new(alloc))),
        None => {
            let mut copies = Vec::with_capacity(alloc, memory.len().saturating_add(1))?;
            share_all(memory.as_slice(), &mut copies)?;
            Ok(copies)
        }
    }
}

/// Puts an item in place of the one at its path, among the parts of a node that lie in some memory.
/// It is given back where there is none, and where this memory or some further in is shared.
fn replace_at<T: Part>(memory: &mut Arc<Vec<T>>, item: Item) -> Option<Item>
    requires { AreItemsInOrder (flat_map T.items (arc_value memory.old).items) }
    ensures put { IfNone result (flat_map T.items (arc_value memory.new).items
        ≡ put_item (flat_map T.items (arc_value memory.old).items) item) }
    ensures count { length (flat_map T.items (arc_value memory.new).items)
        ≡ length (flat_map T.items (arc_value memory.old).items) }
    ensures kept { IfSome result (λ _. (arc_value memory.new).items
        ≡ (arc_value memory.old).items) }
    ensures back { IfSome result (λ other. other ≡ item) }
    ensures node { IsNode T.items (arc_value memory.old).items
        → IsNode T.items (arc_value memory.new).items }
{
    match Arc::get_mut(memory) {
        Some(parts) => replace_in(parts, item),
        None => Some(item),
    }
}

/// The node of these parts, in memory that other parts had, where nobody shares it.
fn node_in<T: Part>(alloc: Global, memory: Arc<Vec<T>>, parts: Vec<T>) -> Mem<Node<T>>
    requires { IsNode T.items parts.items }
    ensures { IfOk result (λ node. node ≡ parts.items) }
{
    let mut memory = memory;
    match Arc::get_mut(&mut memory) {
        Some(place) => {
            *place = parts;
            Ok(Node { parts: memory })
        }
        None => Node::of(alloc, parts),
    }
}

/// Half as many parts as a node has at most, and the others. The first half keeps the room that a
/// node needs before it is halved.
fn halved<T: Part>(parts: Vec<T>) -> Mem<(Vec<T>, Vec<T>)>
    requires { 32 ≤ length parts.items }
    ensures whole { IfOk result (λ halves. parts.items ≡ halves.0.items ++ halves.1.items) }
    ensures first { IfOk result (λ halves. length halves.0.items ≡ 32) }
    ensures second { IfOk result (λ halves. length halves.1.items + 32 ≡ length parts.items) }
{
    let mut first = parts;
    let second = first.split_off(PAGE_LIMIT / 2)?;
    first.shrink_to(PAGE_LIMIT + 2);
    Ok((first, second))
}

/// The node of these parts, or two nodes, where they are too many for one.
fn grown<T: Part>(alloc: Global, parts: Vec<T>) -> Mem<Grown<Node<T>>>
    requires some { 0 < length parts.items }
    requires few { length parts.items ≤ 65 }
    requires each { HaveItems T.items parts.items }
    ensures { IfOk result (λ grown. items_of_both (flat_map T.items) grown.part grown.more
        ≡ flat_map T.items parts.items) }
{
    if parts.len() <= PAGE_LIMIT {
        let part = Node::of(alloc, parts)?;
        return Ok(Grown { part, more: None });
    }
    let (first, second) = halved(parts)?;
    let part = Node::of(alloc, first)?;
    let more = Node::of(alloc, second)?;
    Ok(Grown {
        part,
        more: Some(more),
    })
}

/// The node of these parts, or two, in memory that other parts had, where nobody shares it and one
/// node is enough.
fn grown_in<T: Part>(alloc: Global, memory: Arc<Vec<T>>, parts: Vec<T>) -> Mem<Grown<Node<T>>>
    requires some { 0 < length parts.items }
    requires few { length parts.items ≤ 65 }
    requires each { HaveItems T.items parts.items }
    ensures { IfOk result (λ grown. items_of_both (flat_map T.items) grown.part grown.more
        ≡ flat_map T.items parts.items) }
{
    if parts.len() > PAGE_LIMIT {
        return grown(alloc, parts);
    }
    let part = node_in(alloc, memory, parts)?;
    Ok(Grown { part, more: None })
}

/// Appends the nodes of parts: each but the last is full.
pub(crate) fn push_nodes<T: Part>(alloc: Global, parts: &[T], nodes: &mut Vec<Node<T>>) -> Mem<()>
    requires each { HaveItems T.items parts.now }
    ensures items { OnOk result (flat_map (flat_map T.items) nodes.new.items
        ≡ flat_map (flat_map T.items) nodes.old.items ++ flat_map T.items parts.now) }
    ensures nodes { OnOk result (HaveItems (flat_map T.items) nodes.old.items
        → HaveItems (flat_map T.items) nodes.new.items) }
{
    if parts.is_empty() {
        return Ok(());
    }
    let (first, rest) = parts.split_at(parts.len().min(PAGE_LIMIT));
    let node = Node::of_slice(alloc, first)?;
    node.has_items();
    nodes.push(node)?;
    push_nodes(alloc, rest, nodes)
}

impl<T: Part> Keyed for Node<T> {
    ghost key = { λ node. first_path (flat_map T.items node) };

    fn key<L: Ledger>(&self, steps: &mut Steps<L>) -> &[u8] {
        match self.parts().first() {
            Some(part) => part.key(steps),
            None => unreachable!(),
        }
    }
}

impl<T: Part> Part for Node<T> {
    ghost items = { λ node. flat_map T.items node };

    ghost cost = { 7 + T.cost };

    ghost keyed = { λ _. refl };

    fn single(alloc: Global, item: &Item) -> Mem<Node<T>> {
        let mut parts = Vec::with_capacity(alloc, 1)?;
        let part = T::single(alloc, item)?;
        part.has_items();
        parts.push(part)?;
        Node::of(alloc, parts)
    }

    fn share(&self) -> Mem<Node<T>> {
        match Arc::try_clone(&self.parts) {
            Ok(parts) => Ok(Node { parts }),
            Err(_) => Err(NoMemory),
        }
    }

    fn has_items(&self) {
        let _parts = self.parts();
    }

    fn find<P: Sought<L>, L: Ledger>(&self, path: &P, steps: &mut Steps<L>) -> Option<&Item> {
        find_in(self.parts(), path, steps)
    }

    fn put(&self, alloc: Global, item: &Item) -> Mem<Grown<Node<T>>> {
        let parts = put_in(alloc, self.parts(), item)?;
        grown(alloc, parts)
    }

    fn into_with(self, alloc: Global, item: Item) -> Mem<Grown<Node<T>>> {
        let mut memory = self.parts;
        let parts = taken_out(alloc, &mut memory)?;
        let all = into_with_in(alloc, parts, item)?;
        grown_in(alloc, memory, all)
    }

    fn replace(&mut self, item: Item) -> Option<Item> {
        replace_at(&mut self.parts, item)
    }

    fn without(&self, alloc: Global, path: &[u8]) -> Mem<Option<Node<T>>> {
        let parts = without_in(alloc, self.parts(), path)?;
        if parts.is_empty() {
            return Ok(None);
        }
        let node = Node::of(alloc, parts)?;
        Ok(Some(node))
    }
}

impl<T: Listed> Listed for Node<T> {
    fn first_item(&self) -> &Item {
        match self.parts().first() {
            Some(part) => part.first_item(),
            None => unreachable!(),
        }
    }

    fn begins_below(&self, prefix: &[u8]) -> bool {
        match self.parts().first() {
            Some(part) => part.begins_below(prefix),
            None => unreachable!(),
        }
    }

    fn first_from(&self, text: &[u8]) -> Option<&Item> {
        first_from_in(self.parts(), text)
    }

    fn below(&self, prefix: &[u8], into: &mut Vec<Item>) -> Mem<()> {
        below_in(self.parts(), prefix, into)
    }

    fn list(&self, prefix: &[u8], from: &mut Vec<u8>, into: &mut Vec<Item>) -> Mem<()> {
        list_parts(self.parts(), prefix, from, into)
    }
}
