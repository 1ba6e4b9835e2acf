//! Whether a client waits for `100 Continue` before it sends a body.

ghost use Rattle.std.specs.Prelude.{◌≡◌, codes};
ghost use Rattle.std.specs.List.{list_any};
ghost use Rattle.std.specs.Str.{str_eq_ignore_ascii_case};
ghost use Rattle.http_head.specs.Fields.{fields_named};
ghost use Rattle.http_head.specs.Expectation as spec;

use crate::body_form::BodyForm;
use pod_base::Fields;

/// Whether a body of that form may have bytes; without them no expectation counts.
fn may_have_content(form: BodyForm) -> bool
    ensures { result ≡ spec.may_have_content form }
{
    match form {
        BodyForm::Empty => false,
        BodyForm::Length(length) => length > 0,
        BodyForm::Chunked => true,
    }
}

/// Whether a client's expectation, the value of some Expect field, is `100-continue`, in any case.
fn asks_for_continue(fields: &Fields) -> bool
    ensures { result ≡ list_any (λ f. str_eq_ignore_ascii_case f.value (codes "100-continue"))
        (fields_named (codes "expect") fields.now) }
{
    fields
        .list
        .as_slice()
        .iter()
        .filter(|field| field.is_named("expect"))
        .any(|field| field.value.as_slice().eq_ignore_ascii_case(b"100-continue"))
}

/// Whether a head has the expectation that `100 Continue` comes before the client sends the body
/// (RFC 9110, section 10.1.1).
///
/// It does where the value of some Expect field is `100-continue`, in any case. A client of a
/// version before 1.1 can't wait, and neither can one that sends no body. Other values of Expect
/// are ignored.
pub fn expects_continue(minor: u8, fields: &Fields, form: BodyForm) -> bool
    ensures { result ≡ spec.expects_continue minor fields.now form }
{
    minor == 1 && may_have_content(form) && asks_for_continue(fields)
}
