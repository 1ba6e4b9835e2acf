//! [`Conditions`]: the precondition fields of a request.

ghost use Rattle.std.specs.Prelude.{◌≡◌, ◌&&◌, ◌||◌, false, IfOk};
ghost use Rattle.field_list.specs.Joined.{joined_value};
ghost use Rattle.conditional_req.specs.Conditions as spec;
ghost use Rattle.conditional_req.specs.Verdicts.{IgnoresState, IgnoresTags};
ghost use Rattle.conditional_req.specs.Verdicts.{compares_tags, lists_tags};

use crate::tag_list::{are_tags, is_any};
use field_list::joined_value;
use httpdate::HttpDate;
use pod_base::{Bytes, Field, Fields, Mem};
use std::alloc::Global;
use std::marker::Model;

/// The precondition fields of a request: If-Match, If-None-Match, If-Modified-Since and
/// If-Unmodified-Since. Contracts see these fields in their order.
#[derive(Debug, Drop)]
pub struct Conditions {
    fields: Fields,
    pub(crate) matching: Option<Bytes>,
    pub(crate) none_matching: Option<Bytes>,
    pub(crate) unmodified_since: Option<u64>,
    pub(crate) modified_since: Option<u64>,
}

impl Model for Conditions {
    ghost use Rattle.std.specs.Prelude.{List};
    ghost use Rattle.pod_base.specs.declared.field.Field.{Field};
    ghost use Rattle.conditional_req.specs.Conditions.{AreRead};

    ghost Value = { List Field };

    ghost view = { λ c. c.fields };

    ghost invariant = { λ c. AreRead c.fields c.matching c.none_matching c.unmodified_since c.modified_since };
}

/// Whether a field is a precondition field.
fn is_condition(field: &Field) -> bool
    ensures { result ≡ spec.is_condition field.now }
{
    field.is_named("if-match")
        || field.is_named("if-none-match")
        || field.is_named("if-modified-since")
        || field.is_named("if-unmodified-since")
}

/// Appends a field, where it is a precondition field.
fn add_condition(alloc: Global, kept: &mut Fields, field: &Field) -> Mem<()>
    ensures { IfOk result (λ _. kept.new ≡ spec.with_condition kept.old field.now) }
{
    if is_condition(field) {
        let field = field.copy(alloc)?;
        kept.add(alloc, field)?;
    }
    Ok(())
}

/// The precondition fields of a request.
fn conditions_of(alloc: Global, fields: &Fields) -> Mem<Fields>
    ensures { IfOk result (λ kept. kept ≡ spec.conditions fields.now) }
{
    let mut kept = Fields::new(alloc);
    let mut rest = fields.list.as_slice();
    while let Some((field, more)) = rest.split_first() {
        add_condition(alloc, &mut kept, field)?;
        rest = more;
    }
    Ok(kept)
}

/// The date of the first precondition field of that name, in seconds since the beginning of 1970;
/// none where it can't be read.
fn date_of(fields: &Fields, name: &str) -> Option<u64>
    ensures { result ≡ spec.date_of name.now fields.now }
{
    match fields.first(name) {
        Some(value) => match HttpDate::parse_ascii(value.as_slice()) {
            Ok(date) => Some(date.unix_secs()),
            Err(_) => None,
        },
        None => None,
    }
}

/// Reads the precondition fields of a request. A field that stands once shares its value.
pub fn read_conditions(alloc: Global, fields: &Fields) -> Mem<Conditions>
    ensures { IfOk result (λ conditions. conditions ≡ spec.conditions fields.now) }
{
    let fields = conditions_of(alloc, fields)?;
    let matching = joined_value(alloc, &fields, "if-match")?;
    let none_matching = joined_value(alloc, &fields, "if-none-match")?;
    let unmodified_since = date_of(&fields, "if-unmodified-since");
    let modified_since = date_of(&fields, "if-modified-since");
    Ok(Conditions {
        fields,
        matching,
        none_matching,
        unmodified_since,
        modified_since,
    })
}

/// Whether the value of a precondition field lists tags: it is neither `*` nor malformed.
fn lists_tags(value: &Option<Bytes>) -> bool
    ensures { result ≡ lists_tags value.now }
{
    match value {
        Some(value) => !is_any(value.as_slice()) && are_tags(value.as_slice()),
        None => false,
    }
}

/// Whether some precondition field has another value than `*`.
fn has_other_value(conditions: &Conditions) -> bool
    ensures { result ≡ spec.needs_read conditions.now }
{
    conditions
        .fields
        .list
        .as_slice()
        .iter()
        .any(|field| field.value.as_slice() != b"*".as_slice())
}

/// Whether some precondition field lists tags.
fn has_list(conditions: &Conditions) -> bool
    ensures { result ≡ compares_tags conditions.now }
{
    lists_tags(&conditions.matching) || lists_tags(&conditions.none_matching)
}

impl Conditions {
    /// Whether some precondition field has another value than `*`: the verdict may then say
    /// something of the resource that only its readers may know.
    pub fn needs_read(&self) -> bool
        ensures value { result ≡ spec.needs_read self.now }

        // Without such a field the verdict depends on whether the resource exists, and on no more.
        ensures ignores { result ≡ false → IgnoresState self.now }
    {
        has_other_value(self)
    }

    /// Whether some precondition field lists tags, with which those of the resource are compared.
    /// `*` and a malformed list need none.
    pub fn compares_tags(&self) -> bool
        ensures value { result ≡ compares_tags self.now }

        // Without such a field the verdict is the same whatever the tags are.
        ensures ignores { result ≡ false → IgnoresTags self.now }
    {
        has_list(self)
    }
}
