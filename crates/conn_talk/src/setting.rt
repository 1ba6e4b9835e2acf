//! [`Setting`]: what is the same for all requests of a connection.

use crate::agents::Agents;
use std::alloc::Global;

/// What is the same for all requests of a connection.
#[derive(Drop)]
pub(crate) struct Setting<'a, C> {
    pub(crate) alloc: Global,
    pub(crate) agents: &'a Agents,
    /// Whether the error sink gets a line for each answered request.
    pub(crate) trail: bool,
    pub(crate) clock: &'a C,
}
