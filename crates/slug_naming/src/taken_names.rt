//! The candidates that the paths of rows show to be taken.

ghost use Rattle.std.specs.Prelude.{◌≡◌, ◌≤◌, ◌<◌, ◌++◌, ◌⊎◌, All, Bool, List as ListOf, ℕ};
ghost use Rattle.std.specs.Prelude.{IfOk, IfSome, codes, decimal, false, true, length};
ghost use Rattle.std.specs.Prelude.{slice_index_or};
ghost use Rattle.slug_naming.specs.TakenNotes as notes;

use crate::name_candidates::{ROW_LIMIT, concatenate};
use itoa::Buffer;
use pod_base::{List, Mem};
use pod_path::{Path, Taken};
use std::alloc::Global;

/// What lists the rows whose paths begin with a text.
pub trait TakenNames: Taken {
    /// The paths of rows that may take names: those whose paths begin with a text. A name is found
    /// without those that are lacking, too, but each costs two look-ups more.
    fn taken_below(&self, alloc: Global, text: &str) -> Mem<List<Path>>
        ensures { IfOk result (λ paths. All (λ path. Self.is_row self.now path ≡ true)
            paths.items) };
}

/// The path of a row without a slash at its end, to see which name it takes.
fn without_slash(text: &str) -> &str
    ensures { (text.entry.now ≡ result.now) ⊎ (text.entry.now ≡ result.now ++ codes "/") }
{
    match text.strip_suffix("/") {
        Some(name) => name,
        None => text,
    }
}

/// What follows a base and `-` in the name that a row takes.
fn after_dash<'a>(base: &str, name: &'a str) -> Option<&'a str>
    ensures { IfSome result (λ rest. name.entry.now ≡ base.now ++ (codes "-" ++ rest.now)) }
{
    match name.strip_prefix(base) {
        Some(rest) => rest.strip_prefix("-"),
        None => None,
    }
}

/// The number of which this is the text in decimal, at the end of a taken name.
fn decimal_number(text: &str) -> Option<u64>
    ensures { IfSome result (λ number. text.now ≡ decimal number) }
{
    let number = text.parse::<u64>().ok()?;
    let mut digits = Buffer::new();
    if digits.format(number) == text {
        Some(number)
    } else {
        None
    }
}

/// The number of the candidate name that the path of a row takes after a base, but for the first
/// one.
fn candidate_number(base: &str, path: &str) -> Option<u64>
    ensures { IfSome result (λ number. notes.IsOfCandidate base.now number path.now) }
{
    let digits = after_dash(base, without_slash(path))?;
    let number = decimal_number(digits)?;
    if number < 2 {
        return None;
    }
    Some(number - 1)
}

/// Notes as taken the candidate name that the path of a row has, as far as the notes go.
fn note_path(noted: &mut [bool], base: &str, path: &str)
    ensures same { length noted.new ≡ length noted.old }
    ensures taken { (is_row : ListOf ℕ → Bool) → is_row path.now ≡ true
        → notes.AreTaken is_row base.now noted.old → notes.AreTaken is_row base.now noted.new }
{
    if let Some(number) = candidate_number(base, path)
        && number < noted.len() as u64
    {
        noted[number as usize] = true;
    }
}

/// Notes as taken the candidate names that the paths of rows have, as far as the notes go.
fn note_paths(noted: &mut [bool], base: &str, paths: &[Path])
    ensures same { length noted.new ≡ length noted.old }
    ensures taken { (is_row : ListOf ℕ → Bool) → All (λ path. is_row path ≡ true) paths.now
        → notes.AreTaken is_row base.now noted.old → notes.AreTaken is_row base.now noted.new }
{
    for path in paths {
        note_path(noted, base, path.as_str());
    }
}

/// Notes as taken the first candidate name, if there is a note for it.
fn note_first(noted: &mut [bool])
    ensures same { length noted.new ≡ length noted.old }
    ensures taken { (is_row : ListOf ℕ → Bool) (base : ListOf ℕ) → notes.IsTaken is_row base 0
        → notes.AreTaken is_row base noted.old → notes.AreTaken is_row base noted.new }
{
    if !noted.is_empty() {
        noted[0] = true;
    }
}

/// Notes as taken the first candidate name, and those that the paths of rows have.
fn note_all(noted: &mut [bool], base: &str, paths: &[Path])
    ensures same { length noted.new ≡ length noted.old }
    ensures taken { (is_row : ListOf ℕ → Bool) → notes.IsTaken is_row base.now 0
        → All (λ path. is_row path ≡ true) paths.now
        → notes.AreTaken is_row base.now noted.old → notes.AreTaken is_row base.now noted.new }
{
    note_first(noted);
    note_paths(noted, base, paths);
}

/// How many candidate names from the first on are noted as taken.
fn noted_first(noted: &[bool]) -> usize
    ensures noted { (k : ℕ) → k < result → slice_index_or noted.now k false ≡ true }
    ensures most { result ≤ length noted.now }
{
    match noted.iter().position(|noted| !*noted) {
        Some(number) => number,
        None => noted.len(),
    }
}

/// A number up to which all candidate names are taken, where the first one is: mostly that of the
/// first free one. It takes memory for the paths and a byte for each.
pub(crate) fn taken_first<T: Taken + TakenNames>(alloc: Global, base: &str, taken: &T) -> Mem<u64>
    requires { notes.IsTaken (T.is_row taken.now) base.now 0 }
    ensures taken { IfOk result
        (λ number. notes.AreTakenBefore (T.is_row taken.now) base.now number) }
    ensures limit { IfOk result (λ number. number ≤ ROW_LIMIT) }
{
    let begin = concatenate(alloc, base, "-")?;
    let paths = taken.taken_below(alloc, begin.as_str())?;
    let len = paths.len().saturating_add(2).min(ROW_LIMIT as usize);
    let mut noted = vec![in alloc; false; len]?;
    note_all(noted.as_mut_slice(), base, paths.as_slice());
    Ok(noted_first(noted.as_slice()) as u64)
}
