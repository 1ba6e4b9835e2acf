//! Why a symbol is refused, and the limit on depth.

use thiserror::Error;

/// The most open brackets: `[`, `(` and `{`. ANON opens none.
pub const DEPTH_LIMIT: usize = 64;

/// Why a symbol isn't taken.
#[derive(Clone, Copy, Debug, PartialEq, Eq, Error)]
pub enum Refusal {
    /// Nothing that begins with the symbols so far and this one can be derived.
    #[error("unexpected token")]
    Grammar,
    /// The symbol opens a bracket more than [`DEPTH_LIMIT`].
    #[error("too many open brackets")]
    Depth,
    /// Out of memory, or a count is over the limit of its type.
    #[error("out of memory")]
    NoMemory,
}
