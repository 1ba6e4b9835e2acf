//! The parts of a representation that a request selects, and their bytes.

ghost use Rattle.std.specs.Prelude.{◌≡◌, true, length, IfOk};
ghost use Rattle.range_req.specs.RangeSets as sets;
ghost use Rattle.request_fields.specs.PartFields.{range};
ghost use Rattle.pod_representations.specs.ReadResponses as spec;

use crate::representation::Shown;
use itoa::Buffer;
use pod_base::{Bytes, BytesBuilder, Fields, Mem, Method};
use range_req::{Part, RangeSet, ranges};
use request_fields::{allows_ranges, range};
use std::alloc::Global;

/// Whether a request may select parts of a representation: a GET of bytes may.
fn takes_ranges(method: Method, ranges: bool) -> bool
    ensures { result ≡ spec.takes_ranges method ranges }
{
    match method {
        Method::Get => ranges,
        Method::Head
        | Method::Options
        | Method::Post
        | Method::Put
        | Method::Patch
        | Method::Delete
        | Method::Other => false,
    }
}

/// The parts that the Range field selects of a representation, where If-Range lets it apply.
fn asked_by(alloc: Global, shown: &Shown, fields: &Fields) -> Mem<RangeSet>
    ensures set { IfOk result (λ set. sets.set_view set
        ≡ spec.asked_by shown.now fields.now (range fields.now)) }
    ensures within { IfOk result (λ set. sets.are_within (length shown.now.body) (sets.set_view set)
        ≡ true) }
{
    match range(fields) {
        Some(value) => {
            if allows_ranges(fields, &shown.tag.0) {
                ranges(alloc, value, shown.body.len() as u64)
            } else {
                Ok(RangeSet::Whole)
            }
        }
        None => Ok(RangeSet::Whole),
    }
}

/// The parts that a request selects of a representation. They are within the body.
#[tactic(auto, unfolding(crate::specs::ReadResponses::asked))]
pub(crate) fn asked(alloc: Global, shown: &Shown, method: Method, fields: &Fields) -> Mem<RangeSet>
    ensures set { IfOk result (λ set. sets.set_view set
        ≡ spec.asked shown.now method fields.now) }
    ensures within { IfOk result (λ set. sets.are_within (length shown.now.body) (sets.set_view set)
        ≡ true) }
{
    if takes_ranges(method, shown.ranges) {
        asked_by(alloc, shown, fields)
    } else {
        Ok(RangeSet::Whole)
    }
}

/// The value of `Content-Range` for a selected part of a body of that size.
#[tactic(auto, unfolding(crate::specs::ReadResponses::content_range))]
pub(crate) fn content_range(alloc: Global, part: &Part, size: u64) -> Mem<Bytes>
    ensures { IfOk result (λ value. value ≡ spec.content_range part.now size) }
{
    let mut first = Buffer::new();
    let mut last = Buffer::new();
    let mut whole = Buffer::new();
    let mut value = BytesBuilder::new(alloc);
    value.append(alloc, b"bytes ")?;
    value.append(alloc, first.format(part.first).as_bytes())?;
    value.append(alloc, b"-")?;
    value.append(alloc, last.format(part.last).as_bytes())?;
    value.append(alloc, b"/")?;
    value.append(alloc, whole.format(size).as_bytes())?;
    value.freeze(alloc)
}

/// The content type of a body of several selected parts.
#[tactic(auto, unfolding(crate::specs::ReadResponses::multipart_type))]
pub(crate) fn multipart_type(alloc: Global, boundary: &[u8]) -> Mem<Bytes>
    ensures { IfOk result (λ ctype. ctype ≡ spec.multipart_type boundary.now) }
{
    let mut ctype = BytesBuilder::new(alloc);
    ctype.append(alloc, b"multipart/byteranges; boundary=")?;
    ctype.append(alloc, boundary)?;
    ctype.freeze(alloc)
}
