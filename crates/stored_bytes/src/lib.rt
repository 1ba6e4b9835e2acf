//! Bytes that keep the digest of a content type and of themselves, from the first time it is asked
//! for.
//!
//! ```text
//! let stored = StoredBytes::new(alloc, bytes);
//! let digest = stored.digest(alloc, &ctype);     // SHA-256
//! let again = stored.digest(alloc, &ctype);      // the one that was kept
//! ```
//!
//! Contracts see [`StoredBytes`] as its bytes. Proved: the digest is that of the content type and the
//! bytes (`StoredBytes::digest`), whichever thread kept it first, and out of memory too, since what
//! is kept has with it what it is the digest of, and both are compared. No clause says that it is
//! kept, and nothing waits.
//!
//! The crate stands on `pod_base`.
#![tactic(auto)]

mod digest;
mod digest_cell;
mod stored;

pub use digest::digest_of;
pub use stored::StoredBytes;
