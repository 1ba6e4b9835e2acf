//! [`Asked`]: who makes a request, by its Authorization field.

ghost use Rattle.std.specs.Prelude.{◌≡◌, Some, None, IfSome, IfNone};
ghost use Rattle.std.specs.Option.{option_copied};
ghost use Rattle.token_table.specs.Credentials as spec;

use crate::table::Tokens;
use pod_base::{Fields, Text};

/// Who makes a request.
#[derive(Debug, Drop)]
pub enum Asked<'a> {
    /// Anybody: there is no Authorization field.
    Public,
    /// The agent of the field's token.
    Known(&'a Text),
    /// The field isn't accepted.
    Refused,
}

/// The token in the value of an Authorization field; none where the scheme is another one.
fn bearer_token(value: &[u8]) -> Option<&[u8]>
    ensures { option_copied result ≡ spec.bearer_token value.now }
{
    if value.len() < 7 {
        return None;
    }
    let (scheme, token) = value.split_at(7);
    if scheme.eq_ignore_ascii_case(b"Bearer ") {
        Some(token)
    } else {
        None
    }
}

impl Tokens {
    /// The agent whose token the value of an Authorization field has.
    fn bearer(&self, value: &[u8]) -> Option<&Text>
        ensures { option_copied result ≡ spec.bearer self.now value.now }
    {
        match bearer_token(value) {
            Some(token) => self.agent(token),
            None => None,
        }
    }

    /// Who makes a request with these fields, by its Authorization field.
    ///
    /// The value of the one Authorization field is `Bearer` in any case, one space and the token.
    /// It is refused exactly where there are two such fields, another scheme, or a token that isn't
    /// in the table.
    pub fn agent_of(&self, fields: &Fields) -> Asked<'_>
        ensures { spec.asked_view result ≡ spec.asked_of self.now fields.now }
    {
        if fields.count("authorization") > 1 {
            return Asked::Refused;
        }
        match fields.first("authorization") {
            Some(value) => match self.bearer(value.as_slice()) {
                Some(agent) => Asked::Known(agent),
                None => Asked::Refused,
            },
            None => Asked::Public,
        }
    }
}
