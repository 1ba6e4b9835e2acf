//! How many rows a page has at most.

/// How many rows a page has at most, and how many pages a book.
pub const PAGE_LIMIT: usize = 64;
