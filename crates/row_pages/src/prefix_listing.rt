//! A listing by a prefix and a delimiter: the items directly below a text. It goes from one to the
//! next, and seeks past what is below a container.
ghost use Rattle.std.specs.Prelude.{◌≡◌, ◌++◌, ◌∷◌, [], true, nat_eq, IfSome, OnOk};
ghost use Rattle.std.specs.Prelude.{◌≤◌, drop, length};
ghost use Rattle.std.specs.List.{flat_map, position, starts_with};
ghost use Rattle.iri_ref.specs.Characters.{is_slash, slash};
ghost use Rattle.row_pages.specs.Delimited.{first_part, items_direct};
ghost use Rattle.row_pages.specs.Items.{AreItemsInOrder, begins_with};
ghost use Rattle.row_pages.specs.Seeks.{IsListed, IsRaised, starts_below};

use crate::item::Item;
use crate::part::{Listed, begins_with};
use crate::part_list::part_from;
use crate::sought_path::text_is_before;
use pod_base::Mem;

/// Where the first slash of a text is, which is a listing's delimiter.
fn find_slash(text: &[u8]) -> Option<usize>
    ensures { result ≡ position is_slash text.now }
{
    text.iter().position(|b| *b == b'/')
}

/// The text up to its first slash, a listing's delimiter, the slash included; all of it where it
/// has none.
fn first_part(text: &[u8]) -> &[u8]
    ensures { result.now ≡ first_part text.now }
{
    match find_slash(text) {
        Some(at) => &text[..at + 1],
        None => text,
    }
}

/// The text from a place on, such as what follows a listing's prefix.
fn suffix(text: &[u8], at: usize) -> &[u8]
    requires { at ≤ length text.now }
    ensures { result.now ≡ drop at text.now }
{
    &text[at..]
}

/// Appends an item whose path begins with the prefix to a listing, if it is directly below it.
fn push_direct(item: &Item, prefix: &[u8], into: &mut Vec<Item>) -> Mem<()>
    requires { begins_with prefix.now item.now ≡ true }
    ensures { OnOk result (into.new.items
        ≡ into.old.items ++ items_direct (item.now ∷ []) prefix.now) }
{
    let rest = suffix(item.path(), prefix.len());
    if first_part(rest) == rest {
        let copy = item.copy()?;
        into.push(copy)?;
    }
    Ok(())
}

/// The text before a slash at its end, which is a listing's delimiter.
fn before_slash(text: &[u8]) -> Option<&[u8]>
    ensures { IfSome result (λ name. text.entry.now ≡ name.now ++ slash ∷ []) }
{
    match text.split_last() {
        Some((last, name)) => { if *last == b'/' { Some(name) } else { None } }
        None => None,
    }
}

/// Puts three pieces in place of the text from which a listing goes on.
fn put_pieces(first: &[u8], second: &[u8], last: u8, text: &mut Vec<u8>) -> Mem<()>
    ensures { OnOk result (text.new.items ≡ first.now ++ (second.now ++ last ∷ [])) }
{
    text.clear();
    text.extend_from_slice(first)?;
    text.extend_from_slice(second)?;
    text.push(last)?;
    Ok(())
}

/// Raises the text from which a listing goes on, where a path has a slash below the prefix: to the
/// path up to its first slash, which is raised by one, so that all that is below it is passed.
fn raise(path: &[u8], prefix: &[u8], from: &mut Vec<u8>) -> Mem<()>
    requires { starts_with nat_eq path.now prefix.now ≡ true }
    ensures { OnOk result (IsRaised prefix.now path.now from.old.items from.new.items) }
{
    match before_slash(first_part(suffix(path, prefix.len()))) {
        Some(name) => {
            put_pieces(prefix, name, b'/' + 1, from)?;
            Ok(())
        }
        None => Ok(()),
    }
}

/// Appends an item to a listing, if it is directly below the prefix and not before the text from
/// which a listing goes on, which is raised past what is below the item.
pub(crate) fn list_item(
    item: &Item,
    prefix: &[u8],
    from: &mut Vec<u8>,
    into: &mut Vec<Item>,
) -> Mem<()>
    requires { starts_with nat_eq from.old.items prefix.now ≡ true }
    ensures { OnOk result (IsListed prefix.now (item.now ∷ []) from.old.items into.old.items
        from.new.items into.new.items) }
{
    let path = item.path();
    if text_is_before(path, from.as_slice()) {
        return Ok(());
    }
    if !begins_with(item, prefix) {
        return Ok(());
    }
    push_direct(item, prefix, into)?;
    raise(path, prefix, from)?;
    Ok(())
}

/// Whether the first item of parts is below the prefix of a listing.
fn starts_below<T: Listed>(parts: &[T], prefix: &[u8]) -> bool
    ensures { result ≡ starts_below prefix.now (flat_map T.items parts.now) }
{
    match parts.split_first() {
        Some((part, _)) => begins_with(part.first_item(), prefix),
        None => false,
    }
}

/// Appends to a listing the items directly below the prefix, of those that aren't before the text
/// from which it goes on, which is raised.
pub(crate) fn list_parts<T: Listed>(
    parts: &[T],
    prefix: &[u8],
    from: &mut Vec<u8>,
    into: &mut Vec<Item>,
) -> Mem<()>
    requires order { AreItemsInOrder (flat_map T.items parts.now) }
    requires begins { starts_with nat_eq from.old.items prefix.now ≡ true }
    ensures { OnOk result (IsListed prefix.now (flat_map T.items parts.now) from.old.items
        into.old.items from.new.items into.new.items) }
{
    let Some(around) = part_from(parts, from.as_slice()) else {
        return Ok(());
    };
    let more = starts_below(around.after, prefix);
    around.part.list(prefix, from, into)?;
    if !more {
        return Ok(());
    }
    list_parts(around.after, prefix, from, into)?;
    Ok(())
}
