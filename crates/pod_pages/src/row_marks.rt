//! Which list governs a path, by the marks of rows: a row with a list of its own has its number.
ghost use Rattle.std.specs.Prelude.{◌≡◌, option_copied};
ghost use Rattle.pod_path.specs.Hierarchy.{is_container};
ghost use Rattle.pod_rows.specs.Tree.{ancestors};
ghost use Rattle.pod_pages.specs.Marks.{container_number, first_number, mark_by, own_of};
ghost use Rattle.pod_pages.specs.Marks.{number_within, own_number};
ghost use Rattle.pod_pages.specs.Marks.{path_mark, text_mark};

use pod_path::Path;
use pod_rows::about;
use row_pages::{Item, Rows};

/// The number of the list that governs a path, and whether it is the path's own.
#[derive(Clone, Copy)]
pub(crate) struct Mark {
    pub list: u32,
    pub own: bool,
}

/// The number in an item's mark, where it is of the item's own list.
pub(crate) fn own_of(item: Option<&Item>) -> Option<u32>
    ensures { result ≡ own_of (option_copied item.entry) }
{
    match item {
        Some(item) => {
            if item.is_own() {
                Some(item.list())
            } else {
                None
            }
        }
        None => None,
    }
}

/// The number of the list of a path that has one of its own, by its row's mark.
pub(crate) fn own_number(rows: &Rows, path: &[u8]) -> Option<u32>
    ensures { result ≡ own_number rows.now path.now }
{
    own_of(rows.find(path))
}

/// The number of a container's list by its row's mark, where the text is a container.
fn container_number(rows: &Rows, path: &[u8]) -> Option<u32>
    ensures { result ≡ container_number rows.now path.now }
{
    if path.ends_with(b"/") {
        own_number(rows, path)
    } else {
        None
    }
}

/// The number of the list of the nearest ancestor that has one, by the marks of rows.
fn number_above(rows: &Rows, path: &[u8]) -> Option<u32>
    ensures { result ≡ first_number rows.now (ancestors path.now) }
{
    let mut n = path.len();
    while n > 0 {
        n -= 1;
        let found = container_number(rows, &path[..n]);
        if found.is_some() {
            return found;
        }
    }
    None
}

/// The number of the list of a container, or else that of its nearest ancestor that has one, by the
/// marks of rows.
pub(crate) fn number_within(rows: &Rows, container: &[u8]) -> Option<u32>
    ensures { result ≡ number_within rows.now container.now }
{
    match own_number(rows, container) {
        Some(list) => Some(list),
        None => number_above(rows, container),
    }
}

/// The mark of a path by the own number, or else by the one above.
pub(crate) fn mark_by(own: Option<u32>, above: Option<u32>) -> Option<Mark>
    ensures { result ≡ mark_by own above }
{
    match own {
        Some(list) => Some(Mark { list, own: true }),
        None => match above {
            Some(list) => Some(Mark { list, own: false }),
            None => None,
        },
    }
}

/// The mark of a text that is no access list and no description, which says which list governs it.
fn text_mark(rows: &Rows, text: &[u8]) -> Option<Mark>
    ensures { result ≡ text_mark rows.now text.now }
{
    let own = own_number(rows, text);
    if own.is_some() {
        return mark_by(own, None);
    }
    mark_by(None, number_above(rows, text))
}

/// The mark of a path, which says which list governs it, by the marks of rows that have lists of
/// their own.
pub(crate) fn path_mark(rows: &Rows, path: &Path) -> Option<Mark>
    ensures { result ≡ path_mark rows.now path.now }
{
    text_mark(rows, about(path.as_str()).as_bytes())
}
