//! The commands of `podctl`.

use iri_ref::Iri;

/// How the requests of a connection are authenticated.
#[derive(Debug, Drop)]
pub enum Asking {
    /// By its token, from the table of tokens.
    ByTokens,
    /// Each request is the owner's of the store.
    Owner,
    /// Each request is the owner's of a new pod in memory.
    Fresh(Iri),
}

/// A command of `podctl`.
#[derive(Debug, Drop)]
pub enum Command {
    /// Makes a store.
    Init { base: Iri, owner: Iri },
    /// Serves one connection. With `trail` each answered request gets a line.
    Pipe { asking: Asking, trail: bool },
    /// Prints how much the store holds.
    Check,
    /// Prints the changes of the store.
    Audit,
    /// Runs so many requests of the load generator.
    Load(u16),
    /// Prints what an agent may do, or everyone where none is named.
    Report { agent: Option<Iri> },
    /// Writes the records of the store as frames.
    Ship,
    /// Reads frames, keeps the pod that they give, and answers the reads among them.
    Follow,
}
