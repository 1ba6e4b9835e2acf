//! Parts in their order: to which of them a path belongs, and what a change makes of them.
ghost use Rattle.std.specs.Prelude.{◌≡◌, ◌+◌, ◌-◌, ◌<◌, ◌≤◌, ◌^◌, ◌++◌, ◌∷◌, [], ℕ, List, false};
ghost use Rattle.std.specs.Prelude.{IfOk, OnOk, IfSome, IfNone, IsTrue, length, option_copied};
ghost use Rattle.std.specs.Prelude.{take, drop};
ghost use Rattle.std.specs.List.{flat_map};
ghost use Rattle.std.specs.Option.{option_to_list};
ghost use Rattle.row_pages.specs.Borders.{first_at, starts_by, starts_after};
ghost use Rattle.row_pages.specs.Borders.{AreBefore, AreAfter};
ghost use Rattle.row_pages.specs.Items.{AreItemsInOrder, first_of, item_at};
ghost use Rattle.row_pages.specs.Items.{put_item, remove_item, items_below, first_from};
ghost use Rattle.row_pages.specs.Items.{first_item};
ghost use Rattle.row_pages.specs.Nodes.{HaveItems};

use crate::item::Item;
use crate::part::{Listed, Part};
use crate::search_steps::Steps;
use crate::sought_path::{PathText, Sought, text_is_before};
use pod_base::Mem;
use std::alloc::Global;
use std::marker::Brand;
use std::sync::ledger::{Blank, Ledger};

/// Whether the path is before the key of a part of the list.
fn is_before_part<T: Part, P: Sought<L>, L: Ledger>(
    path: &P,
    part: &T,
    steps: &mut Steps<L>,
) -> bool
    ensures after { IsTrue result
        → IsTrue (starts_after (P.text path.now) (first_of (T.items part.now))) }
    ensures by { result ≡ false
        → IsTrue (starts_by (P.text path.now) (first_of (T.items part.now))) }
    ensures cost { steps.new ≡ steps.old + 1 }
{
    part.has_items();
    path.is_before(part, steps)
}

/// How many of the list's parts begin at the path or before it. The first `low` parts do, and those
/// from `high` on don't. It halves what is between.
fn place_between<T: Part, P: Sought<L>, L: Ledger>(
    parts: &[T],
    low: usize,
    high: usize,
    path: &P,
    steps: &mut Steps<L>,
) -> usize
    requires range { low ≤ high }
    requires within { high ≤ length parts.now }
    requires before { 0 < low
        → IsTrue (starts_by (P.text path.now) (first_at T.items parts.now (low - 1))) }
    requires after { high < length parts.now
        → IsTrue (starts_after (P.text path.now) (first_at T.items parts.now high)) }
    ensures within { result ≤ length parts.now }
    ensures before { 0 < result
        → IsTrue (starts_by (P.text path.now) (first_at T.items parts.now (result - 1))) }
    ensures after { result < length parts.now
        → IsTrue (starts_after (P.text path.now) (first_at T.items parts.now result)) }
    ensures cost { (b : ℕ) → high - low < 2 ^ b → steps.new ≤ steps.old + b }
{
    if low == high {
        return low;
    }
    let middle = low + (high - low) / 2;
    if is_before_part(path, &parts[middle], steps) {
        place_between(parts, low, middle, path, steps)
    } else {
        place_between(parts, middle + 1, high, path, steps)
    }
}

/// A part, and those before and after it.
#[derive(Drop)]
pub(crate) struct Around<'a, T> {
    pub before: &'a [T],
    pub part: &'a T,
    pub after: &'a [T],
}

/// The part of a list of parts to which a path belongs, with a count of the keys that are read: all
/// items before the part are before the path, and all after the part are after it. None where there
/// are no parts.
pub(crate) fn around_counted<'a, T: Part, P: Sought<L>, L: Ledger>(
    parts: &'a [T],
    path: &P,
    steps: &mut Steps<L>,
) -> Option<Around<'a, T>>
    requires { AreItemsInOrder (flat_map T.items parts.now) }
    ensures whole { IfSome result (λ around. parts.entry.now
        ≡ around.before.now ++ around.part.now ∷ around.after.now) }
    ensures before { IfSome result (λ around.
        AreBefore (P.text path.now) (flat_map T.items around.before.now)) }
    ensures after { IfSome result (λ around.
        AreAfter (P.text path.now) (flat_map T.items around.after.now)) }
    ensures none { IfNone result (parts.entry.now ≡ []) }
    ensures cost { (b : ℕ) → length parts.entry.now < 2 ^ b → steps.new ≤ steps.old + b }
{
    let place = place_between(parts, 0, parts.len(), path, steps);
    let (before, rest) = parts.split_at(place.saturating_sub(1));
    let Some((part, after)) = rest.split_first() else {
        return None;
    };
    Some(Around {
        before,
        part,
        after,
    })
}

/// The part of a list of parts to which a path belongs, found on a count that nobody reads.
fn around_blank<'a, T: Part, L: Ledger>(
    parts: &'a [T],
    path: &[u8],
    blank: Blank,
) -> Option<Around<'a, T>>
    requires name { blank.name ≡ L.name }
    requires parts { blank.parts ≡ L.parts }
    requires some { 0 < blank.parts }
    requires order { AreItemsInOrder (flat_map T.items parts.now) }
    ensures whole { IfSome result (λ around. parts.entry.now
        ≡ around.before.now ++ around.part.now ∷ around.after.now) }
    ensures before { IfSome result (λ around.
        AreBefore path.now (flat_map T.items around.before.now)) }
    ensures after { IfSome result (λ around.
        AreAfter path.now (flat_map T.items around.after.now)) }
    ensures none { IfNone result (parts.entry.now ≡ []) }
{
    let mut steps = Steps::<L>::new(blank);
    let sought = PathText { text: path };
    around_counted(parts, &sought, &mut steps)
}

/// The part of a list of parts to which a path belongs, between those before and after it.
fn split_at_path<'a, T: Part>(parts: &'a [T], path: &[u8]) -> Option<Around<'a, T>>
    requires { AreItemsInOrder (flat_map T.items parts.now) }
    ensures whole { IfSome result (λ around. parts.entry.now
        ≡ around.before.now ++ around.part.now ∷ around.after.now) }
    ensures before { IfSome result (λ around.
        AreBefore path.now (flat_map T.items around.before.now)) }
    ensures after { IfSome result (λ around.
        AreAfter path.now (flat_map T.items around.after.now)) }
    ensures none { IfNone result (parts.entry.now ≡ []) }
{
    around_blank::<T, Brand>(parts, path, Blank::new(1))
}

/// The item at a path in a list of parts in order. `steps` counts the keys that are read: at most
/// as many as the number of parts has binary digits, and what a search in one part costs.
pub(crate) fn find_in<'a, T: Part, P: Sought<L>, L: Ledger>(
    parts: &'a [T],
    path: &P,
    steps: &mut Steps<L>,
) -> Option<&'a Item>
    requires { AreItemsInOrder (flat_map T.items parts.now) }
    ensures found { option_copied result
        ≡ item_at (flat_map T.items parts.entry.now) (P.text path.now) }
    ensures cost { (b : ℕ) → length parts.entry.now < 2 ^ b
        → steps.new ≤ steps.old + b + T.cost }
{
    match around_counted(parts, path, steps) {
        Some(around) => around.part.find(path, steps),
        None => None,
    }
}

/// Appends the parts to a list, which share their memory with these.
pub(crate) fn share_all<T: Part>(parts: &[T], into: &mut Vec<T>) -> Mem<()>
    ensures { OnOk result (into.new.items ≡ into.old.items ++ parts.now) }
{
    for part in parts {
        let shared = part.share()?;
        into.push(shared)?;
    }
    Ok(())
}

/// Appends a part to a list, if there is one.
fn push_some<T: Part>(into: &mut Vec<T>, part: Option<T>) -> Mem<()>
    ensures items { OnOk result (into.new.items ≡ into.old.items ++ option_to_list part) }
    ensures some { OnOk result (HaveItems T.items (option_to_list part)) }
{
    match part {
        Some(part) => {
            part.has_items();
            into.push(part)?;
            Ok(())
        }
        None => Ok(()),
    }
}

/// The list of the parts before and after, with these between them.
fn joined<T: Part>(
    alloc: Global,
    before: &[T],
    part: Option<T>,
    more: Option<T>,
    after: &[T],
) -> Mem<Vec<T>>
    ensures items { IfOk result (λ all. all.items
        ≡ before.now ++ (option_to_list part ++ (option_to_list more ++ after.now))) }
    ensures part { IfOk result (λ _. HaveItems T.items (option_to_list part)) }
    ensures more { IfOk result (λ _. HaveItems T.items (option_to_list more)) }
{
    let length = before.len().saturating_add(after.len());
    let mut all = Vec::with_capacity(alloc, length.saturating_add(2))?;
    share_all(before, &mut all)?;
    push_some(&mut all, part)?;
    push_some(&mut all, more)?;
    share_all(after, &mut all)?;
    Ok(all)
}

/// The list of parts with this item: at most one more than before.
pub(crate) fn put_in<T: Part>(alloc: Global, parts: &[T], item: &Item) -> Mem<Vec<T>>
    requires { AreItemsInOrder (flat_map T.items parts.now) }
    ensures items { IfOk result (λ all. flat_map T.items all.items
        ≡ put_item (flat_map T.items parts.now) item.now) }
    ensures few { IfOk result (λ all. length all.items ≤ length parts.now + 1) }
    ensures each { IfOk result (λ all. HaveItems T.items parts.now
        → HaveItems T.items all.items) }
    ensures some { IfOk result (λ all. 0 < length all.items) }
{
    match split_at_path(parts, item.path()) {
        Some(around) => {
            let grown = around.part.put(alloc, item)?;
            let (part, more) = (grown.part, grown.more);
            let all = joined(alloc, around.before, Some(part), more, around.after)?;
            Ok(all)
        }
        None => {
            let part = T::single(alloc, item)?;
            let all = joined(alloc, parts, Some(part), None, parts)?;
            Ok(all)
        }
    }
}

/// Where in a list of parts the one is to which a path belongs, found on a count that nobody reads.
fn place_blank<T: Part, L: Ledger>(parts: &[T], path: &[u8], blank: Blank) -> usize
    requires name { blank.name ≡ L.name }
    requires parts { blank.parts ≡ L.parts }
    requires some { 0 < blank.parts }
    requires order { AreItemsInOrder (flat_map T.items parts.now) }
    requires there { 0 < length parts.now }
    ensures within { result < length parts.now }
    ensures before { AreBefore path.now (flat_map T.items (take result parts.now)) }
    ensures after { AreAfter path.now (flat_map T.items (drop (result + 1) parts.now)) }
{
    let mut steps = Steps::<L>::new(blank);
    let sought = PathText { text: path };
    let place = place_between(parts, 0, parts.len(), &sought, &mut steps);
    place.saturating_sub(1)
}

/// Where in a list of parts the one is to which a path belongs: the last that begins at the path or
/// before it, or else the first.
fn place_of<T: Part>(parts: &[T], path: &[u8]) -> usize
    requires order { AreItemsInOrder (flat_map T.items parts.now) }
    requires there { 0 < length parts.now }
    ensures within { result < length parts.now }
    ensures before { AreBefore path.now (flat_map T.items (take result parts.now)) }
    ensures after { AreAfter path.now (flat_map T.items (drop (result + 1) parts.now)) }
{
    place_blank::<T, Brand>(parts, path, Blank::new(1))
}

/// Inserts a part into a list, if there is one.
fn insert_some<T: Part>(parts: &mut Vec<T>, place: usize, part: Option<T>) -> Mem<()>
    requires { place ≤ length parts.old.items }
    ensures items { OnOk result (parts.new.items ≡ take place parts.old.items
        ++ (option_to_list part ++ drop place parts.old.items)) }
    ensures some { OnOk result (HaveItems T.items (option_to_list part)) }
{
    match part {
        Some(part) => {
            part.has_items();
            parts.insert(place, part)?;
            Ok(())
        }
        None => Ok(()),
    }
}

/// Puts one part or two into a list where another was taken out.
fn put_back<T: Part>(parts: &mut Vec<T>, place: usize, part: T, more: Option<T>) -> Mem<()>
    requires { place ≤ length parts.old.items }
    ensures items { OnOk result (parts.new.items ≡ take place parts.old.items
        ++ (part ∷ (option_to_list more ++ drop place parts.old.items))) }
    ensures part { OnOk result (0 < length (T.items part)) }
    ensures more { OnOk result (HaveItems T.items (option_to_list more)) }
{
    insert_some(parts, place, more)?;
    part.has_items();
    parts.insert(place, part)?;
    Ok(())
}

/// A list of one part with this item, where there are no parts.
fn one_part<T: Part>(alloc: Global, parts: Vec<T>, item: &Item) -> Mem<Vec<T>>
    requires { length parts.items ≡ 0 }
    ensures items { IfOk result (λ all. flat_map T.items all.items ≡ item.now ∷ []) }
    ensures one { IfOk result (λ all. length all.items ≡ 1) }
    ensures each { IfOk result (λ all. HaveItems T.items all.items) }
{
    let mut all = parts;
    let part = T::single(alloc, item)?;
    part.has_items();
    all.push(part)?;
    Ok(all)
}

/// The list of parts with this item, of parts that nobody shares: all but one stay where they are.
pub(crate) fn into_with_in<T: Part>(alloc: Global, parts: Vec<T>, item: Item) -> Mem<Vec<T>>
    requires { AreItemsInOrder (flat_map T.items parts.items) }
    ensures items { IfOk result (λ all. flat_map T.items all.items
        ≡ put_item (flat_map T.items parts.items) item) }
    ensures few { IfOk result (λ all. length all.items ≤ length parts.items + 1) }
    ensures each { IfOk result (λ all. HaveItems T.items parts.items
        → HaveItems T.items all.items) }
    ensures some { IfOk result (λ all. 0 < length all.items) }
{
    if parts.is_empty() {
        let all = one_part(alloc, parts, &item)?;
        return Ok(all);
    }
    let mut all = parts;
    let place = place_of(all.as_slice(), item.path());
    let old = all.remove(place);
    let grown = old.into_with(alloc, item)?;
    let (part, more) = (grown.part, grown.more);
    put_back(&mut all, place, part, more)?;
    Ok(all)
}

/// Puts an item in place of the one at its path, in a list of parts that nobody shares. It is given
/// back where there is none, and where memory further in is shared.
pub(crate) fn replace_in<T: Part>(parts: &mut Vec<T>, item: Item) -> Option<Item>
    requires { AreItemsInOrder (flat_map T.items parts.old.items) }
    ensures put { IfNone result (flat_map T.items parts.new.items
        ≡ put_item (flat_map T.items parts.old.items) item) }
    ensures count { length (flat_map T.items parts.new.items)
        ≡ length (flat_map T.items parts.old.items) }
    ensures kept { IfSome result (λ _. parts.new.items ≡ parts.old.items) }
    ensures back { IfSome result (λ other. other ≡ item) }
    ensures few { length parts.new.items ≡ length parts.old.items }
    ensures each { HaveItems T.items parts.old.items → HaveItems T.items parts.new.items }
{
    if parts.is_empty() {
        return Some(item);
    }
    let place = place_of(parts.as_slice(), item.path());
    parts[place].replace(item)
}

/// The list of parts without the item at the path.
pub(crate) fn without_in<T: Part>(alloc: Global, parts: &[T], path: &[u8]) -> Mem<Vec<T>>
    requires { AreItemsInOrder (flat_map T.items parts.now) }
    ensures items { IfOk result (λ all. flat_map T.items all.items
        ≡ remove_item (flat_map T.items parts.now) path.now) }
    ensures few { IfOk result (λ all. length all.items ≤ length parts.now) }
    ensures each { IfOk result (λ all. HaveItems T.items parts.now
        → HaveItems T.items all.items) }
{
    match split_at_path(parts, path) {
        Some(around) => {
            let part = around.part.without(alloc, path)?;
            let all = joined(alloc, around.before, part, None, around.after)?;
            Ok(all)
        }
        None => Ok(Vec::new(alloc)),
    }
}

/// Appends the items below a text, of the parts of a list after it. It stops at the first part that
/// isn't below.
fn below_after<T: Listed>(parts: &[T], prefix: &[u8], into: &mut Vec<Item>) -> Mem<()>
    requires order { AreItemsInOrder (flat_map T.items parts.now) }
    requires after { AreAfter prefix.now (flat_map T.items parts.now) }
    ensures { OnOk result (into.new.items
        ≡ into.old.items ++ items_below (flat_map T.items parts.now) prefix.now) }
{
    let Some((part, rest)) = parts.split_first() else {
        return Ok(());
    };
    if !part.begins_below(prefix) {
        return Ok(());
    }
    part.below(prefix, into)?;
    below_after(rest, prefix, into)
}

/// Appends the items of a list of parts whose paths begin with a text.
pub(crate) fn below_in<T: Listed>(parts: &[T], prefix: &[u8], into: &mut Vec<Item>) -> Mem<()>
    requires { AreItemsInOrder (flat_map T.items parts.now) }
    ensures { OnOk result (into.new.items
        ≡ into.old.items ++ items_below (flat_map T.items parts.now) prefix.now) }
{
    let Some(around) = split_at_path(parts, prefix) else {
        return Ok(());
    };
    around.part.below(prefix, into)?;
    below_after(around.after, prefix, into)?;
    Ok(())
}

/// The first item of a list of parts.
fn first_item_in<T: Listed>(parts: &[T]) -> Option<&Item>
    ensures { option_copied result ≡ first_item (flat_map T.items parts.entry.now) }
{
    match parts.split_first() {
        Some((part, _)) => Some(part.first_item()),
        None => None,
    }
}

/// The first item of a list of parts whose path isn't before a text.
pub(crate) fn first_from_in<'a, T: Listed>(parts: &'a [T], text: &[u8]) -> Option<&'a Item>
    requires { AreItemsInOrder (flat_map T.items parts.now) }
    ensures { option_copied result ≡ first_from (flat_map T.items parts.entry.now) text.now }
{
    match split_at_path(parts, text) {
        Some(around) => match around.part.first_from(text) {
            Some(item) => Some(item),
            None => first_item_in(around.after),
        },
        None => None,
    }
}

/// The part of a list in which the items from a text on begin: the first part, where nothing of it
/// is before the text, and else the one to which the text belongs.
pub(crate) fn part_from<'a, T: Listed>(parts: &'a [T], text: &[u8]) -> Option<Around<'a, T>>
    requires { AreItemsInOrder (flat_map T.items parts.now) }
    ensures whole { IfSome result (λ around. parts.entry.now
        ≡ around.before.now ++ around.part.now ∷ around.after.now) }
    ensures before { IfSome result (λ around.
        AreBefore text.now (flat_map T.items around.before.now)) }
    ensures after { IfSome result (λ around.
        AreAfter text.now (flat_map T.items around.after.now)) }
    ensures none { IfNone result (parts.entry.now ≡ []) }
{
    let Some((part, after)) = parts.split_first() else {
        return None;
    };
    if text_is_before(part.first_item().path(), text) {
        return split_at_path(parts, text);
    }
    Some(Around {
        before: &parts[..0],
        part,
        after,
    })
}
