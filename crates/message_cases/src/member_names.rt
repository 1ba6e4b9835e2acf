//! Stems, and the names of new members. The rows of a case are texts, and each text may be a row.

ghost use Rattle.std.specs.Prelude.{◌≡◌, ◌≤◌, All, IfOk, IfSome, OnOk, true, length};
ghost use Rattle.pod_path.specs.Hierarchy.{is_container};
ghost use Rattle.message_cases.specs.Rows.{is_row_of};
ghost use Rattle.slug_naming.specs.declared.name_candidates.TheConstants.{ROW_LIMIT};

use case_words::bytes;
use pod_base::{List, Mem, NoMemory};
use pod_path::{Path, PathFault, Taken};
use slug_naming::{ROW_LIMIT, TakenNames, choose, stem};
use std::alloc::{AllocError, Global};

/// The texts that are rows.
#[derive(Drop)]
struct Rows<'a> {
    texts: &'a [&'a str],
}

impl Taken for Rows<'_> {
    ghost is_row = { λ rows text. is_row_of rows.texts.now text };

    fn taken(&self, path: &Path) -> bool {
        self.taken_text(path.as_str())
    }

    fn taken_text(&self, text: &str) -> bool {
        self.texts.contains(&text)
    }
}

/// The path with that text, where it is one of the rows.
fn row_path(alloc: Global, rows: &Rows<'_>, text: &str) -> Mem<Option<Path>>
    ensures { IfOk result (λ found. IfSome found
        (λ path. is_row_of rows.now.texts.now path ≡ true)) }
{
    match Path::of_text(alloc, text)? {
        Some(path) => {
            if rows.taken(&path) {
                return Ok(Some(path));
            }
            Ok(None)
        }
        None => Ok(None),
    }
}

/// Adds the path of a row that begins with a text.
fn push_row(alloc: Global, rows: &Rows<'_>, text: &str, row: &str, paths: &mut Vec<Path>) -> Mem<()>
    ensures { OnOk result (All (λ path. is_row_of rows.now.texts.now path ≡ true) paths.old.items
        → All (λ path. is_row_of rows.now.texts.now path ≡ true) paths.new.items) }
{
    if row.starts_with(text)
        && let Some(path) = row_path(alloc, rows, row)?
    {
        paths.push(path)?;
    }
    Ok(())
}

impl TakenNames for Rows<'_> {
    fn taken_below(&self, alloc: Global, text: &str) -> Mem<List<Path>> {
        let mut paths = Vec::new(alloc);
        for row in self.texts {
            push_row(alloc, self, text, row, &mut paths)?;
        }
        Ok(List::from_vec(paths))
    }
}

/// The name of a new member among some rows.
fn chosen(
    alloc: Global,
    container: &Path,
    slug: Option<&[u8]>,
    folder: bool,
    texts: &[&str],
) -> Result<String, AllocError>
    requires container { is_container container.now ≡ true }
    requires rows { length texts.now ≤ ROW_LIMIT }
{
    match choose(alloc, container, slug, folder, &Rows { texts }) {
        Ok(path) => String::from_str(alloc, path.as_str()),
        Err(PathFault::NoMemory) => Err(AllocError),
        Err(fault) => format!(in alloc; "{fault:?}"),
    }
}

/// The name of a new member, a `folder` or another, in the container with that path.
pub(crate) fn answer(
    alloc: Global,
    container: &str,
    slug: Option<&[u8]>,
    kind: &str,
    texts: &[&str],
) -> Result<String, AllocError> {
    let target = bytes(alloc, container)?;
    match Path::read(alloc, target.as_slice()) {
        Ok(path) => {
            if path.is_container() && texts.len() as u64 <= ROW_LIMIT {
                return chosen(alloc, &path, slug, kind == "folder", texts);
            }
            String::from_str(alloc, "no container")
        }
        Err(PathFault::NoMemory) => Err(AllocError),
        Err(_) => String::from_str(alloc, "no path"),
    }
}

/// The name for a slug.
pub(crate) fn for_slug(
    alloc: Global,
    container: &str,
    slug: &str,
    kind: &str,
    texts: &[&str],
) -> Result<String, AllocError> {
    let slug = bytes(alloc, slug)?;
    answer(alloc, container, Some(slug.as_slice()), kind, texts)
}

/// The stem of a slug, or without one.
fn stem_of(alloc: Global, slug: Option<&[u8]>) -> Result<String, AllocError> {
    match stem(alloc, slug) {
        Ok(text) => String::from_str(alloc, text.as_str()),
        Err(NoMemory) => Err(AllocError),
    }
}

/// The stem without a slug.
pub(crate) fn item(alloc: Global) -> Result<String, AllocError> {
    stem_of(alloc, None)
}

/// The stem of a slug.
pub(crate) fn stem_answer(alloc: Global, slug: &str) -> Result<String, AllocError> {
    let slug = bytes(alloc, slug)?;
    stem_of(alloc, Some(slug.as_slice()))
}
