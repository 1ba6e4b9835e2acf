//! The basic types of the pod server: text and bytes that share their memory, lists, and the parts
//! of a request and of its response.
//!
//! ```text
//! let mut builder = BytesBuilder::new(alloc);
//! builder.append(alloc, b"hello, pod")?;
//! let bytes = builder.freeze(alloc)?;
//! let word = bytes.slice(alloc, 0, 5)?;        // shares the block
//! let kept = word.compact(alloc)?;             // a block of its own: `hello`
//! ```
//!
//! A call that may take memory is passed `alloc` and answers [`NoMemory`], or hands its argument
//! back. Every other call takes none. Proved: copies, parts and appended bytes have the contents
//! that they should (`copy`, `part`, `appended`), a list's room is memory that it has
//! (`List::push`, clause `succeeds`), and out of memory nothing changes (`unchanged`). A short text
//! lies in its block as an `ArrayString` of the crate `arrayvec`; bytes are those of the crate `bytes`.
#![tactic(auto)]

mod agent;
mod bytes_builder;
mod field;
mod heard;
mod list;
mod memory;
mod method;
mod moment;
mod optional_item;
mod request;
mod response;
mod rope;
mod shared_bytes;
mod text;

pub use agent::{Agent, Mode};
pub use bytes_builder::BytesBuilder;
pub use field::{Field, Fields};
pub use heard::Heard;
pub use list::List;
pub use memory::{Mem, NoMemory};
pub use method::Method;
pub use moment::{Moment, Stamp, moment_of};
pub use optional_item::push_some;
pub use request::Request;
pub use response::{Body, Response};
pub use rope::{Rope, copy_bytes};
pub use shared_bytes::Bytes;
pub use text::Text;
