//! The name of a new member of a container.

ghost use Rattle.std.specs.Prelude.{◌≡◌, ◌++◌, ◌≤◌, true, false, Ok, IfOk, IfErr, string_bytes};
ghost use Rattle.std.specs.Option.{option_copied};
ghost use Rattle.pod_path.specs.Hierarchy.{is_container};
ghost use Rattle.pod_path.specs.Norm.{norm};
ghost use Rattle.slug_naming.specs.Names as spec;
ghost use Rattle.slug_naming.specs.PlainTexts as texts;
ghost use Rattle.slug_naming.specs.Stems.{stem_of};
ghost use Rattle.slug_naming.specs.TakenNotes as notes;

use crate::stems::stem_text;
use crate::taken_names::{TakenNames, taken_first};
use itoa::Buffer;
use pod_base::Mem;
use pod_path::{Path, PathFault, Taken};
use std::alloc::{AllocError, Global};

/// The most rows among which a name is chosen.
pub const ROW_LIMIT: u64 = 65_536;

/// The most bytes that follow the stem in a text that is looked up.
const END_ROOM: usize = 24;

/// Appends what follows the stem in the name candidate with that number.
fn push_end(text: &mut String, number: u64) -> Result<(), AllocError>
    requires { number ≤ ROW_LIMIT }
    ensures { IfOk result
        (λ _. string_bytes text.new ≡ string_bytes text.old ++ spec.candidate_end number) }
{
    if number == 0 {
        return Ok(());
    }
    let mut digits = Buffer::new();
    text.push_str("-")?;
    text.push_str(digits.format(number + 1))
}

/// Writes a name candidate after a base, in place of what the text was.
fn write_candidate(text: &mut String, base: &str, number: u64) -> Result<(), AllocError>
    requires { number ≤ ROW_LIMIT }
    ensures { IfOk result (λ _. string_bytes text.new ≡ base.now ++ spec.candidate_end number) }
{
    text.clear();
    text.push_str(base)?;
    push_end(text, number)
}

/// Whether neither the text of a name candidate nor that with a slash after it is a row. The text
/// may get that slash.
fn are_no_rows<T: Taken>(text: &mut String, taken: &T) -> Result<bool, AllocError>
    ensures { IfOk result
        (λ free. free ≡ texts.are_no_rows (T.is_row taken.now) (string_bytes text.old)) }
{
    if taken.taken_text(text.as_str()) {
        return Ok(false);
    }
    text.push_str("/")?;
    Ok(!taken.taken_text(text.as_str()))
}

/// Whether the name candidate with that number is free. It is looked up by the text, which is
/// written anew.
fn is_free<T: Taken>(
    text: &mut String,
    base: &str,
    number: u64,
    taken: &T,
) -> Result<bool, AllocError>
    requires { number ≤ ROW_LIMIT }
    ensures { IfOk result (λ free. free
        ≡ texts.are_no_rows (T.is_row taken.now) (base.now ++ spec.candidate_end number)) }
{
    write_candidate(text, base, number)?;
    are_no_rows(text, taken)
}

/// The number of the first name candidate that is free, of which so many are taken. Each row takes
/// at most one, so one is free.
fn first_free_from<T: Taken>(
    text: &mut String,
    base: &str,
    known: u64,
    taken: &T,
) -> Result<u64, AllocError>
    requires base { is_container base.now ≡ false }
    requires rows { spec.HasFewRows (T.is_row taken.now) }
    requires known { notes.AreTakenBefore (T.is_row taken.now) base.now known }
    requires limit { known ≤ ROW_LIMIT }
    ensures number { IfOk result
        (λ number. texts.IsFirstFree (T.is_row taken.now) base.now number) }
    ensures limit { IfOk result (λ number. number ≤ ROW_LIMIT) }
{
    for number in known..ROW_LIMIT + 1 {
        if is_free(text, base, number, taken)? {
            return Ok(number);
        }
    }
    unreachable!()
}

/// The number of the first name candidate that is free.
fn first_free<T: Taken + TakenNames>(alloc: Global, base: &str, taken: &T) -> Mem<u64>
    requires base { is_container base.now ≡ false }
    requires rows { spec.HasFewRows (T.is_row taken.now) }
    ensures number { IfOk result
        (λ number. texts.IsFirstFree (T.is_row taken.now) base.now number) }
    ensures limit { IfOk result (λ number. number ≤ ROW_LIMIT) }
{
    let mut text = String::with_capacity(alloc, base.len().saturating_add(END_ROOM))?;
    if is_free(&mut text, base, 0, taken)? {
        return Ok(0);
    }
    let known = taken_first(alloc, base, taken)?;
    let number = first_free_from(&mut text, base, known, taken)?;
    Ok(number)
}

/// The text that name candidates begin with: a text and another one after it.
pub(crate) fn concatenate(alloc: Global, first: &str, second: &str) -> Result<String, AllocError>
    ensures { IfOk result (λ text. string_bytes text ≡ first.now ++ second.now) }
{
    let mut text = String::with_capacity(alloc, first.len().saturating_add(second.len()))?;
    text.push_str(first)?;
    text.push_str(second)?;
    Ok(text)
}

/// The path of the first free name candidate for a new member of a container.
///
/// Candidate 0 is the [`crate::stem`] of the slug, and the next ones are the stem with `-2`, `-3`,
/// .. after it. With `folder` the member is a container. A candidate is free where neither its path
/// nor the twin of that is a row. Where the first one isn't, it goes once over the rows whose paths
/// begin with that one's and `-`. There may be at most [`ROW_LIMIT`] rows.
///
/// It fails with `TooLong` or `TooDeep` exactly where the path of the first free candidate does,
/// and never with `BadEscape`, `NotNormal` or `Reserved`.
pub fn choose<T: Taken + TakenNames>(
    alloc: Global,
    container: &Path,
    slug: Option<&[u8]>,
    folder: bool,
    taken: &T,
) -> Result<Path, PathFault>
    requires container { is_container container.now ≡ true }
    requires rows { spec.HasFewRows (T.is_row taken.now) }
    ensures path { IfOk result (λ path. spec.IsFreeName (T.is_row taken.now) container.now
        (stem_of (option_copied slug.entry)) folder path) }
    ensures normal { IfOk result (λ path. norm path ≡ Ok path) }
    ensures fault { IfErr result (λ fault. spec.FailsAs (spec.IsFreeName (T.is_row taken.now)
        container.now (stem_of (option_copied slug.entry)) folder) fault) }
{
    let mut name = stem_text(alloc, slug)?;
    let base = concatenate(alloc, container.as_str(), name.as_str())?;
    let number = first_free(alloc, base.as_str(), taken)?;
    push_end(&mut name, number)?;
    container.child(alloc, name.as_str(), folder)
}
