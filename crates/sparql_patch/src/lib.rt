//! Updates of SPARQL data: which triples `INSERT DATA` and `DELETE DATA` name, and what they mean
//! (SPARQL 1.1 Update, sections 3.1.1 and 3.1.2).
//!
//! ```text
//! let named = read(alloc, &base, b"DELETE DATA { <a> <p> 1 } ; INSERT DATA { <a> <p> 2 }")?;
//! let patch = spelled(alloc, &named, &graph)?;
//! let change = instantiate(alloc, &graph, &patch)?;
//! ```
//!
//! Proved of [`read`]: it returns the triples that the text names, in order (`Names` of
//! `specs/UpdateSpells.antt`, clause `names`), which keep the limit on size (`fits`), of a text
//! without a fault of syntax (`sound`); else the first fault of syntax, else `Blank`, and last
//! `TooLarge` (`fault`, `IsSparqlFault` of `specs/UpdateFaults.antt`). Where the text names
//! triples, no bracket is too deep and they keep the limit, they are returned, or out of memory
//! (`only`).
//!
//! Past the limit on size [`read`] keeps nothing more, and only goes on checking.
//!
//! Proved of [`spelled`]: the patch that an update spells at a graph has no conditions; it deletes
//! the triples of the graph whose last naming is with DELETE, and inserts those whose last naming
//! is with INSERT (clause `spelled`, `IsSpelledAt` of `specs/NamedUpdate.antt`). Deletions that
//! aren't in the graph are passed over. [`laws`] has what follows from the definitions.
//!
//! It depends on `turtle_reader`, which reads the lexemes of an update and hands out its triples,
//! and on `rdf_graph` for triples and patches.
#![tactic(auto)]

mod collected_triples;
mod fault;
pub mod laws;
mod named;
mod reading;
mod spelling;

pub use fault::SparqlFault;
pub use named::Named;
pub use reading::read;
pub use spelling::spelled;
