//! Cases of verdicts on preconditions.

use crate::field_words::fields_of;
use conditional_req::{Conditions, Verdict, read_conditions};
use pod_base::{Fields, Mem, Method};
use pod_command::Row;
use pod_representations::{change_verdict, chosen, read_verdict, represent};
use pod_rows::PodState;
use std::alloc::Global;

/// The verdict on a read of a row, in the type that its fields choose, if there is one.
fn verdict_on_read<S: PodState>(
    alloc: Global,
    state: &S,
    row: &Row,
    method: Method,
    fields: &Fields,
    conditions: &Conditions,
) -> Mem<Option<Verdict>> {
    match chosen(alloc, row, fields)? {
        Some(media) => {
            let shown = represent(alloc, state, row, media)?;
            Ok(Some(read_verdict(conditions, method, &shown)))
        }
        None => Ok(None),
    }
}

/// The verdict on a request at a row or at none. Reads have one at rows alone.
fn verdict_of<S: PodState>(
    alloc: Global,
    state: &S,
    row: Option<&Row>,
    method: Method,
    fields: &Fields,
) -> Mem<Option<Verdict>> {
    let conditions = read_conditions(alloc, fields)?;
    match (method, row) {
        (Method::Get | Method::Head, Some(row)) => {
            verdict_on_read(alloc, state, row, method, fields, &conditions)
        }
        (Method::Get | Method::Head, None) => Ok(None),
        _ => Ok(Some(change_verdict(alloc, state, row, &conditions, method)?)),
    }
}

/// The verdict on a request, or `none` where there is nothing to be shown.
pub(crate) fn verdict_text<S: PodState>(
    alloc: Global,
    state: &S,
    row: Option<&Row>,
    method: Method,
    fields: &str,
) -> Mem<String> {
    let fields = fields_of(alloc, fields)?;
    let text = match verdict_of(alloc, state, row, method, &fields)? {
        Some(Verdict::Go) => "go",
        Some(Verdict::NotModified) => "not modified",
        Some(Verdict::Failed) => "failed",
        None => "none",
    };
    Ok(String::from_str(alloc, text)?)
}
