//! [`Sought`]: what a search knows of the path that it looks for.
ghost use Rattle.std.specs.Prelude.{◌≡◌, ◌+◌, ℕ, List, bytes_eq};
ghost use Rattle.row_pages.specs.Items.{is_before};

use crate::keyed::Keyed;
use crate::search_steps::Steps;
use pod_path::Path;
use std::cmp::Ordering;
use std::sync::ledger::Ledger;

/// A path that is looked for, and that is compared with keys on the count of one ledger, `L`. Code
/// that knows of it no more than this learns nothing of it but by a comparison, which reads one key,
/// and has no way to a second count of `L`: so a bound on the count is a bound on the comparisons
/// that it makes, and on the keys that it reads.
pub trait Sought<L: Ledger> {
    /// Its text.
    ghost text: { Self → List ℕ };

    /// Whether the sought path is before the other's key in byte order: one step, which reads the
    /// key.
    fn is_before<K: Keyed>(&self, other: &K, steps: &mut Steps<L>) -> bool
        ensures order { result ≡ is_before (text self.now) (K.key other.now) }
        ensures cost { steps.new ≡ steps.old + 1 };

    /// Whether the sought path is the other's key: one step, which reads the key.
    fn is_same<K: Keyed>(&self, other: &K, steps: &mut Steps<L>) -> bool
        ensures same { result ≡ bytes_eq (K.key other.now) (text self.now) }
        ensures cost { steps.new ≡ steps.old + 1 };
}

/// Whether the text of a sought path is before the other in byte order.
pub(crate) fn text_is_before(path: &[u8], other: &[u8]) -> bool
    ensures { result ≡ is_before path.now other.now }
{
    path.cmp(other) == Ordering::Less
}

impl<L: Ledger> Sought<L> for Path {
    ghost text = { λ path. path };

    fn is_before<K: Keyed>(&self, other: &K, steps: &mut Steps<L>) -> bool {
        text_is_before(self.as_str().as_bytes(), other.key(steps))
    }

    fn is_same<K: Keyed>(&self, other: &K, steps: &mut Steps<L>) -> bool {
        other.key(steps) == self.as_str().as_bytes()
    }
}

/// A path that is given as a text.
#[derive(Drop)]
pub(crate) struct PathText<'a> {
    pub text: &'a [u8],
}

impl<L: Ledger> Sought<L> for PathText<'_> {
    ghost text = { λ path. path.text.now };

    fn is_before<K: Keyed>(&self, other: &K, steps: &mut Steps<L>) -> bool {
        text_is_before(self.text, other.key(steps))
    }

    fn is_same<K: Keyed>(&self, other: &K, steps: &mut Steps<L>) -> bool {
        other.key(steps) == self.text
    }
}
