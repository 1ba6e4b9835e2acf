//! [`PipeOptions`]: how a connection is served.

use conn_talk::Agents;

/// How a connection is served: how requests are authenticated, and whether the error sink gets a
/// line for each answered request.
#[derive(Drop)]
pub struct PipeOptions {
    pub agents: Agents,
    pub trail: bool,
}
