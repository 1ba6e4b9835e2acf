//! The access lists of rows, with their rules, and which of them governs a path.
ghost use Rattle.std.specs.Prelude.{◌≡◌, ◌++◌, IfOk, OnOk, option_copied};
ghost use Rattle.std.specs.Prelude.{option_to_list};
ghost use Rattle.std.specs.List.{find};
ghost use Rattle.pod_path.specs.Hierarchy.{subject_of};
ghost use Rattle.pod_rows.specs.Access.{about, rules_in};
ghost use Rattle.pod_rows.specs.AclLists.{list_of, lists_of, is_list_of, first_list};
ghost use Rattle.pod_rows.specs.AclLists.{container_list};
ghost use Rattle.pod_rows.specs.Tree.{ancestors};

use acl_rules::{Items, Rules, rules_of};
use iri_ref::Iri;
use pod_base::{Mem, push_some};
use pod_command::{Content, Row};
use pod_path::{Path, subject_text};
use std::alloc::Global;

/// An access list: the path whose list it is, and its rules.
#[derive(Drop)]
pub(crate) struct AclList {
    pub at: Path,
    pub rules: Rules,
}

/// The rules in an access list's content: none where it holds bytes.
pub fn rules_in(alloc: Global, base: &Iri, content: &Content) -> Mem<Rules>
    ensures { IfOk result (λ rules. rules.list ≡ rules_in base.now content.now) }
{
    match content {
        Content::Graph(stored) => rules_of(alloc, stored.graph(), base),
        Content::Bytes { ctype: _, bytes: _ } => Ok(Rules {
            list: Items::new(alloc),
        }),
    }
}

/// The access list that a row is, if it is one.
fn list_of(alloc: Global, base: &Iri, row: &Row) -> Mem<Option<AclList>>
    ensures { IfOk result (λ list. list ≡ list_of base.now row.now) }
{
    if !row.path.is_acl() {
        return Ok(None);
    }
    let subject = row.path.subject(alloc)?;
    let rules = rules_in(alloc, base, &row.content)?;
    match subject {
        Some(at) => Ok(Some(AclList { at, rules })),
        None => Ok(None),
    }
}

/// The access lists of the rows, in their order.
pub(crate) fn lists_of(alloc: Global, base: &Iri, rows: &[Row]) -> Mem<Vec<AclList>>
    ensures { IfOk result (λ lists. lists.items ≡ lists_of base.now rows.now) }
{
    let mut lists = Vec::new(alloc);
    for row in rows {
        let list = list_of(alloc, base, row)?;
        push_some(&mut lists, list)?;
    }
    Ok(lists)
}

/// The access list of a path, among those of rows.
pub(crate) fn list_at<'a>(lists: &'a [AclList], path: &[u8]) -> Option<&'a AclList>
    ensures { option_copied result ≡ find (is_list_of path.now) lists.entry.now }
{
    lists
        .iter()
        .find(|list| list.at.as_str().as_bytes() == path)
}

/// The access list of a container, where the text is one.
fn container_list<'a>(lists: &'a [AclList], path: &[u8]) -> Option<&'a AclList>
    ensures { option_copied result ≡ container_list lists.entry.now path.now }
{
    if path.ends_with(b"/") {
        list_at(lists, path)
    } else {
        None
    }
}

/// The access list that a path inherits, that of the nearest ancestor that has one.
pub(crate) fn inherited<'a>(lists: &'a [AclList], path: &[u8]) -> Option<&'a AclList>
    ensures { option_copied result ≡ first_list lists.entry.now (ancestors path.now) }
{
    let mut n = path.len();
    while n > 0 {
        n -= 1;
        let found = container_list(lists, &path[..n]);
        if found.is_some() {
            return found;
        }
    }
    None
}

/// Where the access list of a path is looked up first: at what an access list or a description is
/// about, and at any other path itself.
pub fn about(path: &str) -> &str
    ensures { result.now ≡ about path.entry.now (subject_of path.entry.now) }
{
    match subject_text(path) {
        Some(subject) => subject,
        None => path,
    }
}
