//! The parts of a body that the value of a Range field names.

ghost use Rattle.std.specs.Prelude.{◌≡◌, true, false, reverse, IfOk, IfSome, IfNone};
ghost use Rattle.std.specs.List.{list_all};
ghost use Rattle.field_list.specs.Elements.{elements};
ghost use Rattle.field_list.specs.declared.quoting.Quoting.TheVariants.{Strings};
ghost use Rattle.range_req.specs.RangeSets as spec;

use crate::byte_range::{Part, byte_range, part_in};
use field_list::{Elements, Quoting, trim_end, trim_start};
use pod_base::{List, Mem};
use std::alloc::Global;

/// The most ranges of a Range field that counts.
pub const RANGE_LIMIT: usize = 16;

/// What a Range field asks for.
#[derive(Debug, Drop)]
pub enum RangeSet {
    /// The whole body: the field is ignored.
    Whole,
    /// Nothing that the body has.
    Unsatisfiable,
    /// These parts of the body, in the order of the field.
    Parts(List<Part>),
}

/// The set of ranges after the unit of a Range field's value, where that is bytes.
fn after_unit(value: &[u8]) -> Option<&[u8]>
    ensures some { IfSome result (λ rest. (spec.has_unit value.now ≡ true) × (rest.now ≡ spec.after_unit value.now)) }
    ensures none { IfNone result (spec.has_unit value.now ≡ false) }
{
    if value.len() < 6 {
        return None;
    }
    let (unit, rest) = value.split_at(6);
    if unit.eq_ignore_ascii_case(b"bytes=") {
        Some(rest)
    } else {
        None
    }
}

/// Whether the first byte of a list of ranges that isn't blank is a comma.
fn begins_with_comma(list: &[u8]) -> bool
    ensures { result ≡ spec.begins_with_comma list.now }
{
    match list.first() {
        Some(byte) => *byte == b',',
        None => false,
    }
}

/// Whether the last byte of a list of ranges is a comma.
fn ends_with_comma(list: &[u8]) -> bool
    ensures { result ≡ spec.begins_with_comma (reverse list.now) }
{
    match list.last() {
        Some(byte) => *byte == b',',
        None => false,
    }
}

/// Whether a list of ranges begins with a blank only before a comma.
fn begins_tight(list: &[u8]) -> bool
    ensures { result ≡ spec.begins_tight list.now }
{
    let rest = trim_start(list);
    rest.len() == list.len() || begins_with_comma(rest)
}

/// Whether a list of ranges ends with a blank only after a comma.
fn ends_tight(list: &[u8]) -> bool
    ensures { result ≡ spec.begins_tight (reverse list.now) }
{
    let rest = trim_end(list);
    rest.len() == list.len() || ends_with_comma(rest)
}

/// Whether each element of a list is a range.
fn are_ranges(list: &[u8]) -> bool
    ensures { result ≡ list_all spec.is_range (elements Strings list.now) }
{
    let mut elements = Elements::of(Quoting::Strings, list);
    while let Some(element) = elements.next() {
        if byte_range(element).is_none() {
            return false;
        }
    }
    true
}

/// Whether a list has at least one range, and at most [`RANGE_LIMIT`].
fn is_within_limit(list: &[u8]) -> bool
    ensures { result ≡ spec.is_within_limit (elements Strings list.now) }
{
    let mut count = 0;
    let mut elements = Elements::of(Quoting::Strings, list);
    while let Some(_element) = elements.next() {
        if count == RANGE_LIMIT {
            return false;
        }
        count += 1;
    }
    count > 0
}

/// Whether a list of ranges is well-formed.
fn is_well_formed(list: &[u8]) -> bool
    ensures { result ≡ spec.is_range_list list.now }
{
    begins_tight(list) && ends_tight(list) && are_ranges(list) && is_within_limit(list)
}

/// Appends the part of a body that a range of the list is, if it is one.
fn add_part(parts: &mut Vec<Part>, element: &[u8], size: u64) -> Mem<()>
    ensures { IfOk result (λ _. parts.new.items ≡ spec.with_element size parts.old.items element.now) }
{
    if let Some(range) = byte_range(element) {
        if let Some(part) = part_in(size, range) {
            parts.push(part)?;
        }
    }
    Ok(())
}

/// The parts of a body of that size that the ranges of a list are.
fn parts_of(alloc: Global, list: &[u8], size: u64) -> Mem<Vec<Part>>
    ensures { IfOk result (λ parts. parts.items ≡ spec.parts_in size (elements Strings list.now)) }
{
    let mut parts = Vec::with_capacity(alloc, RANGE_LIMIT)?;
    let mut elements = Elements::of(Quoting::Strings, list);
    while let Some(element) = elements.next() {
        add_part(&mut parts, element, size)?;
    }
    Ok(parts)
}

/// What the set of ranges in a Range field's value asks for, of a body of that size.
///
/// The value is `bytes=`, in any case, and a list of `a-b`, `a-` and `-n` (RFC 9110, section
/// 14.1.2). The field is ignored where it is malformed, has no range or more than [`RANGE_LIMIT`],
/// or a range ends before it begins. Blanks stand about commas alone. Ranges that begin past the
/// body are dropped, and ends past it are cut.
pub fn ranges(alloc: Global, value: &[u8], size: u64) -> Mem<RangeSet>
    ensures set { IfOk result (λ set. spec.set_view set ≡ spec.range_set value.now size) }
    ensures within { IfOk result (λ set. spec.are_within size (spec.set_view set) ≡ true) }
{
    match after_unit(value) {
        Some(list) => {
            if is_well_formed(list) {
                let parts = parts_of(alloc, list, size)?;
                if parts.is_empty() {
                    return Ok(RangeSet::Unsatisfiable);
                }
                return Ok(RangeSet::Parts(List::from_vec(parts)));
            }
            Ok(RangeSet::Whole)
        }
        None => Ok(RangeSet::Whole),
    }
}
