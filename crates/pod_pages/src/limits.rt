//! How many entries' effects a version keeps, and when all rows are marked at once.

/// How many entries' effects a version keeps at most: those of the last ones.
pub const EFFECTS_ENTRIES_LIMIT: u64 = 256;

/// All rows are marked at once where more than one in so many is to be marked.
pub(crate) const MARKED_SHARE: usize = 8;
