//! [`Agents`]: how requests are authenticated.
ghost use Rattle.std.specs.Prelude.{◌≡◌};
ghost use Rattle.token_table.specs.Credentials.{asked_view};
ghost use Rattle.conn_talk.specs.Agents.{asking_of};

use pod_base::{Request, Text};
use token_table::{Asked, Tokens};

/// How requests are authenticated.
#[derive(Drop)]
pub enum Agents {
    /// Every request is the owner's, whatever its fields are.
    Owner(Text),
    /// Each request is that of the agent whose token it has.
    Table(Tokens),
}

impl Agents {
    /// Authenticates a request, by the token table or as the owner's.
    pub fn asked(&self, request: &Request) -> Asked<'_>
        ensures { asked_view result ≡ asking_of self.now request.now }
    {
        match self {
            Agents::Owner(owner) => Asked::Known(owner),
            Agents::Table(tokens) => tokens.agent_of(&request.fields),
        }
    }
}
