//! The texts of the paths about a path: its parent, its subject, its members.

ghost use Rattle.std.specs.Prelude.{◌≡◌, ◌↔◌, ◌++◌, List, ℕ, ◌∷◌, [], IsTrue, if◌then◌else◌};
ghost use Rattle.std.specs.Prelude.{IfSome, IfNone, IfOk, nat_eq, option_copied, string_bytes};
ghost use Rattle.std.specs.Prelude.{bytes_eq, codes, count_by};
ghost use Rattle.iri_ref.specs.Characters.{slash, is_slash};
ghost use Rattle.iri_ref.specs.Resolution.{up_to_last_slash};
ghost use Rattle.pod_path.specs.Hierarchy.{without_last_slash, is_root, is_container, is_acl};
ghost use Rattle.pod_path.specs.Hierarchy.{is_meta};
ghost use Rattle.pod_path.specs.Hierarchy.{is_auxiliary, subject_of, member_text, IsInside};

use crate::segments::ends_with;
use std::alloc::{AllocError, Global};

/// The text of a path before `end`, where it ends in it.
pub(crate) fn strip_end<'a>(text: &'a str, end: &str) -> Option<&'a str>
    ensures some { IfSome (option_copied result) (λ prefix. text.entry.now ≡ prefix ++ end.now) }
    ensures none { IfNone (option_copied result) ((prefix : List ℕ)
        → text.entry.now ≡ prefix ++ end.now → ⊥) }
{
    text.strip_suffix(end)
}

/// The text of a path after `prefix`, where it begins with it.
pub(crate) fn strip_start<'a>(text: &'a str, prefix: &str) -> Option<&'a str>
    ensures some { IfSome (option_copied result) (λ rest. text.entry.now ≡ prefix.now ++ rest) }
    ensures none { IfNone (option_copied result) ((rest : List ℕ)
        → text.entry.now ≡ prefix.now ++ rest → ⊥) }
{
    text.strip_prefix(prefix)
}

/// The text of a path without one slash at its end.
fn trim_slash(path: &str) -> &str
    ensures { result.now ≡ without_last_slash path.now }
{
    match strip_end(path, "/") {
        Some(prefix) => prefix,
        None => path,
    }
}

/// The text of a path up to its last slash and with it.
fn cut_after_last_slash(text: &str) -> &str
    ensures { result.now ≡ up_to_last_slash text.now }
{
    match text.rfind('/') {
        Some(at) => &text[..at + 1],
        None => "",
    }
}

/// The text of the container above a path, which is a part of it; of the root nothing. It takes no
/// memory.
pub fn parent_text(path: &str) -> &str
    ensures { result.now ≡ up_to_last_slash (without_last_slash path.now) }
{
    cut_after_last_slash(trim_slash(path))
}

/// Whether the text of a path is that of a container and more, where the other text is a
/// container's.
pub(crate) fn is_inside(path: &str, other: &str) -> bool
    ensures { IsTrue result ↔ IsInside path.now other.now }
{
    match strip_start(path, other) {
        Some(rest) => ends_with(other, "/") && !rest.is_empty(),
        None => false,
    }
}

/// The text of the path that an ACL or a description is of, which is a part of the text of its own
/// path; of any other path none. It takes no memory.
pub fn subject_text(path: &str) -> Option<&str>
    ensures { option_copied result ≡ subject_of path.now }
{
    match strip_end(path, ".acl") {
        Some(subject) => Some(subject),
        None => strip_end(path, ".meta"),
    }
}

/// How many slashes the text of a path has.
pub(crate) fn count_slashes(text: &str) -> usize
    ensures { result ≡ count_by is_slash text.now }
{
    text.as_bytes().iter().filter(|b| **b == b'/').count()
}

/// The text of a path and an end after it.
pub(crate) fn concatenate(alloc: Global, prefix: &str, end: &str) -> Result<String, AllocError>
    ensures { IfOk result (λ text. string_bytes text ≡ prefix.now ++ end.now) }
{
    let mut text = String::with_capacity(alloc, prefix.len().saturating_add(end.len()))?;
    text.push_str(prefix)?;
    text.push_str(end)?;
    Ok(text)
}

/// What follows a member's name in the text of its path: a slash for a container.
fn member_end(container: bool) -> &'static str
    ensures { result.now ≡ (if container then slash ∷ [] else []) }
{
    if container { "/" } else { "" }
}

/// The text of the path of a container's member, in one piece of memory.
pub(crate) fn member_text(
    alloc: Global,
    path: &str,
    name: &str,
    container: bool,
) -> Result<String, AllocError>
    ensures { IfOk result (λ text. string_bytes text ≡ member_text path.now name.now container) }
{
    let len = path.len().saturating_add(name.len()).saturating_add(1);
    let mut text = String::with_capacity(alloc, len)?;
    text.push_str(path)?;
    text.push_str(name)?;
    text.push_str(member_end(container))?;
    Ok(text)
}
