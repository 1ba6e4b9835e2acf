//! [`needs`]: which modes a request needs, and where.
ghost use Rattle.std.specs.Prelude.{◌≡◌, ◌++◌, [], ◌∷◌, if◌then◌else◌, IfOk, OnOk, fold};
ghost use Rattle.std.specs.List.{list_any};
ghost use Rattle.pod_base.specs.declared.agent.Mode.TheVariants.{Write, Control};
ghost use Rattle.pod_base.specs.declared.method.Method.TheVariants.{Put, Patch};
ghost use Rattle.pod_path.specs.Hierarchy.{is_acl, parent_of};
ghost use Rattle.pod_access.specs.Needs.{needs_of, resource_needs, description_needs};
ghost use Rattle.pod_access.specs.Needs.{new_row_needs, patch_modes, tag_modes, with_need, on};
ghost use Rattle.pod_access.specs.Needs.{on_parent, need_eq, mode_eq};

use pod_base::{List, Mem, Method, Mode, NoMemory};
use pod_path::Path;
use std::alloc::Global;

/// A mode that is needed on a path.
#[derive(Debug, Drop)]
pub struct Need {
    pub path: Path,
    pub mode: Mode,
}

/// What of a request decides its needs.
#[derive(Debug, Drop)]
pub struct Shape {
    pub method: Method,
    pub path: Path,
    /// Whether the path is a row.
    pub exists: bool,
    /// The nearest ancestor of the path that is a row.
    pub above: Path,
    /// Whether its patch has conditions, deletions, insertions.
    pub conditions: bool,
    pub deletions: bool,
    pub insertions: bool,
    /// Whether a precondition compares tags or times.
    pub tags: bool,
}

/// The modes that a request needs, and where: each need once, at its first position in the table of
/// docs/rules/access.md.
pub fn needs(alloc: Global, shape: &Shape) -> Mem<List<Need>>
    ensures { IfOk result (λ needs. needs.items ≡ needs_of shape.now) }
{
    let mut needs = List::new(alloc);
    if shape.method == Method::Options {
        return Ok(needs);
    }
    match shape.path.subject(alloc)? {
        Some(subject) => add_auxiliary(alloc, &mut needs, shape, &subject)?,
        None => {
            add_resource(alloc, &mut needs, shape)?;
            add_tags(alloc, &mut needs, shape, &shape.path)?;
        }
    }
    Ok(needs)
}

/// Adds the needs of a request on the subject of an ACL or a description.
fn add_auxiliary(alloc: Global, needs: &mut List<Need>, shape: &Shape, subject: &Path) -> Mem<()>
    ensures { OnOk result (needs.new.items ≡ fold with_need needs.old.items
        (if is_acl shape.now.path then on subject.now (Control ∷ [])
        else description_needs shape.now.method shape.now subject.now
        ++ on subject.now (tag_modes shape.now))) }
{
    if shape.path.is_acl() {
        return add(alloc, needs, subject, &[Mode::Control]);
    }
    add_description(alloc, needs, shape, subject)?;
    add_tags(alloc, needs, shape, subject)
}

/// Adds the needs of a request for what is no ACL and no description.
fn add_resource(alloc: Global, needs: &mut List<Need>, shape: &Shape) -> Mem<()>
    ensures { OnOk result (needs.new.items ≡ fold with_need needs.old.items
        (resource_needs shape.now.method shape.now)) }
{
    let path = &shape.path;
    match shape.method {
        Method::Get | Method::Head => add(alloc, needs, path, &[Mode::Read]),
        Method::Post => add(alloc, needs, path, &[Mode::Append]),
        Method::Put => add_put(alloc, needs, shape),
        Method::Patch => add_patch(alloc, needs, shape),
        Method::Delete => add_delete(alloc, needs, path),
        Method::Options | Method::Other => Ok(()),
    }
}

/// Adds the needs of a PUT.
fn add_put(alloc: Global, needs: &mut List<Need>, shape: &Shape) -> Mem<()>
    ensures { OnOk result (needs.new.items ≡ fold with_need needs.old.items
        (resource_needs Put shape.now)) }
{
    if shape.exists {
        add(alloc, needs, &shape.path, &[Mode::Write])
    } else {
        add_new_row(alloc, needs, shape)
    }
}

/// Adds the needs of a PATCH.
fn add_patch(alloc: Global, needs: &mut List<Need>, shape: &Shape) -> Mem<()>
    ensures { OnOk result (needs.new.items ≡ fold with_need needs.old.items
        (resource_needs Patch shape.now)) }
{
    add_patch_modes(alloc, needs, shape, &shape.path)?;
    if shape.exists {
        return Ok(());
    }
    add_new_row(alloc, needs, shape)
}

/// Adds the needs of a DELETE.
fn add_delete(alloc: Global, needs: &mut List<Need>, path: &Path) -> Mem<()>
    ensures { OnOk result (needs.new.items ≡ fold with_need needs.old.items
        (on path.now (Write ∷ []) ++ on_parent (parent_of path.now) (Write ∷ []))) }
{
    add(alloc, needs, path, &[Mode::Write])?;
    match path.parent(alloc)? {
        Some(parent) => add(alloc, needs, &parent, &[Mode::Write]),
        None => Ok(()),
    }
}

/// Adds the needs of a request that makes a new row.
fn add_new_row(alloc: Global, needs: &mut List<Need>, shape: &Shape) -> Mem<()>
    ensures { OnOk result (needs.new.items ≡ fold with_need needs.old.items
        (new_row_needs shape.now)) }
{
    add(alloc, needs, &shape.path, &[Mode::Append])?;
    add(alloc, needs, &shape.above, &[Mode::Append])
}

/// Adds the needs of a request for a description, on its subject.
fn add_description(alloc: Global, needs: &mut List<Need>, shape: &Shape, subject: &Path) -> Mem<()>
    ensures { OnOk result (needs.new.items ≡ fold with_need needs.old.items
        (description_needs shape.now.method shape.now subject.now)) }
{
    match shape.method {
        Method::Get | Method::Head => add(alloc, needs, subject, &[Mode::Read]),
        Method::Put if shape.exists => add(alloc, needs, subject, &[Mode::Write]),
        Method::Put | Method::Post => add(alloc, needs, subject, &[Mode::Append]),
        Method::Patch => add_patch_modes(alloc, needs, shape, subject),
        Method::Delete => add(alloc, needs, subject, &[Mode::Write]),
        Method::Options | Method::Other => Ok(()),
    }
}

/// Adds the needs of a PATCH on a path, by what its patch does.
fn add_patch_modes(alloc: Global, needs: &mut List<Need>, shape: &Shape, path: &Path) -> Mem<()>
    ensures { OnOk result (needs.new.items ≡ fold with_need needs.old.items
        (on path.now (patch_modes shape.now))) }
{
    if shape.conditions {
        add(alloc, needs, path, &[Mode::Read])?;
    }
    if shape.insertions || !shape.deletions {
        add(alloc, needs, path, &[Mode::Append])?;
    }
    if shape.deletions {
        add(alloc, needs, path, &[Mode::Read, Mode::Write])?;
    }
    Ok(())
}

/// Adds the needs of a request's preconditions on a path.
fn add_tags(alloc: Global, needs: &mut List<Need>, shape: &Shape, path: &Path) -> Mem<()>
    ensures { OnOk result (needs.new.items ≡ fold with_need needs.old.items
        (on path.now (tag_modes shape.now))) }
{
    if shape.tags {
        return add(alloc, needs, path, &[Mode::Read]);
    }
    Ok(())
}

/// Adds modes on a path to the needs of a request, but for those that are among them.
fn add(alloc: Global, needs: &mut List<Need>, path: &Path, modes: &[Mode]) -> Mem<()>
    ensures { OnOk result (needs.new.items ≡ fold with_need needs.old.items
        (on path.now modes.now)) }
{
    for mode in modes {
        add_one(alloc, needs, path, *mode)?;
    }
    Ok(())
}

/// Adds a mode on a path to the needs of a request, unless it is among them.
fn add_one(alloc: Global, needs: &mut List<Need>, path: &Path, mode: Mode) -> Mem<()>
    ensures { OnOk result (needs.new.items
        ≡ with_need needs.old.items (record { path = path.now; mode = mode })) }
{
    if has_need(needs.as_slice(), path, mode) {
        return Ok(());
    }
    push(alloc, needs, path, mode)
}

/// Appends a mode on a path to the needs of a request.
fn push(alloc: Global, needs: &mut List<Need>, path: &Path, mode: Mode) -> Mem<()>
    ensures { OnOk result (needs.new.items
        ≡ needs.old.items ++ (record { path = path.now; mode = mode }) ∷ []) }
{
    let path = path.copy(alloc)?;
    match needs.push(alloc, Need { path, mode }) {
        Ok(()) => Ok(()),
        Err(_) => Err(NoMemory),
    }
}

/// Whether a mode on a path is among the needs of a request.
fn has_need(needs: &[Need], path: &Path, mode: Mode) -> bool
    ensures { result ≡ list_any (need_eq (record { path = path.now; mode = mode })) needs.now }
{
    needs
        .iter()
        .any(|need| is_mode(mode, need.mode) && *path == need.path)
}

/// Whether the modes of two needs of a request are the same.
fn is_mode(a: Mode, b: Mode) -> bool
    ensures { result ≡ mode_eq a b }
{
    match (a, b) {
        (Mode::Read, Mode::Read) | (Mode::Append, Mode::Append) => true,
        (Mode::Write, Mode::Write) | (Mode::Control, Mode::Control) => true,
        _ => false,
    }
}
