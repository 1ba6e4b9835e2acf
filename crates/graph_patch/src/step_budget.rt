//! The steps that a search may take.

use pod_base::{Mem, NoMemory};
use rdf_graph::Term;

/// The most steps that a search for solutions takes: 1,048,576. A step is a triple that is tried for
/// a condition, or four triples that are compared to count or to look up those of a condition. For
/// each 1,024 bytes of the condition's known terms it counts once more.
///
/// A step takes up to half a microsecond, so that a search takes about half a second at most. At
/// most 2^22 triples are looked at.
pub const STEP_LIMIT: u32 = 1_048_576;

/// The steps that a search may still take.
#[derive(Drop)]
pub(crate) struct Steps {
    left: u64,
}

impl Steps {
    /// The budget of a search, as many steps as the limit allows.
    pub(crate) fn new() -> Steps {
        Steps {
            left: u64::from(STEP_LIMIT),
        }
    }

    /// Takes so many steps off a search's budget, and says whether there were as many left. After
    /// too few there are none.
    pub(crate) fn take(&mut self, count: u64) -> bool {
        match self.left.checked_sub(count) {
            Some(left) => {
                self.left = left;
                true
            }
            None => {
                self.left = 0;
                false
            }
        }
    }

    /// Takes so many steps off a search's budget. Where there are too few left, the search is out
    /// of memory.
    pub(crate) fn spend(&mut self, count: u64) -> Mem<()> {
        if self.take(count) {
            Ok(())
        } else {
            Err(NoMemory)
        }
    }
}

/// The steps of a search's budget for one triple which is compared with these terms: one, and one
/// more for each 1,024 bytes of them. A literal counts eight times, since the lines of two that
/// differ are compared byte by byte.
pub(crate) fn weight(s: Option<&Term>, p: Option<&Term>, o: Option<&Term>) -> u64 {
    let bytes = bytes_of(s)
        .saturating_add(bytes_of(p))
        .saturating_add(bytes_of(o));
    (bytes / 1024).saturating_add(1)
}

/// The bytes of the term that count for the steps of a search's budget.
fn bytes_of(term: Option<&Term>) -> u64 {
    match term {
        None => 0,
        Some(term) => {
            let size = term.encoded_size();
            if term.is_literal() {
                size.saturating_mul(8)
            } else {
                size
            }
        }
    }
}
