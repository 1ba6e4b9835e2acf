//! [`Text`]: UTF-8 text whose copies share one block of memory.
ghost use Rattle.std.specs.Prelude.{◌≡◌, ◌++◌, IfOk, nat_eq, refl, Some};
ghost use Rattle.std.specs.String.{string_bytes};
ghost use Rattle.std.specs.Ordering.{nat_cmp};
ghost use Rattle.std.specs.Hash as fed;
ghost use Rattle.std.specs.Cmp.Lexicographic.{pointwise, slice_cmp, nat_list_eq_equiv};
ghost use Rattle.std.specs.Cmp.Lexicographic.{nat_list_cmp_total, texts_ties, texts_po};
ghost use Rattle.std.specs.Cmp.{partial_equiv_from_equiv};
ghost use Rattle.std.specs.Cmp.Rules.{hashing};
ghost use Rattle.std.proofs.Common.{rules};
ghost use Rattle.pod_base.specs.Texts.{shared_bytes};

use crate::memory::Mem;
use arrayvec::ArrayString;
use std::alloc::Global;
use std::cmp::Ordering;
use std::fmt;
use std::hash::{Hash, Hasher};
use std::marker::Model;
use std::sync::Arc;

/// How many bytes a text may have that takes no block beside that of its count.
const SHORT: usize = 48;

/// What the copies of a text share: a short text itself, and of a longer one its string.
#[derive(Drop)]
enum Shared {
    Short(ArrayString<SHORT>),
    Long(String),
}

impl Shared {
    /// The text.
    #[inline]
    fn as_str(&self) -> &str
        ensures { result.now ≡ shared_bytes self.now }
    {
        match self {
            Shared::Short(text) => text.as_str(),
            Shared::Long(text) => text.as_str(),
        }
    }
}

/// UTF-8 text. Contracts see its bytes; comparisons go by them.
///
/// A copy shares the block of the text and costs a count, whatever the length. The block holds this
/// text alone, so a stored text keeps no request alive; one of more than 48 bytes takes a second
/// block. The value itself is one word.
#[derive(Drop)]
pub struct Text {
    shared: Arc<Shared>,
}

impl Model for Text {
    ghost use Rattle.std.specs.Prelude.{List, ℕ};
    ghost use Rattle.pod_base.specs.Texts.{shared_bytes};

    ghost Value = { List ℕ };

    ghost view = { λ t. shared_bytes t.shared.value };
}

impl Text {
    /// The text that this is, in a block of its own.
    fn sharing(alloc: Global, shared: Shared) -> Mem<Text>
        ensures { IfOk result (λ text. text ≡ shared_bytes shared) }
    {
        let shared = Arc::new(alloc, shared)?;
        Ok(Text { shared })
    }

    /// The same text, in a block of its own.
    pub fn of(alloc: Global, text: &str) -> Mem<Text>
        ensures { IfOk result (λ owned. owned ≡ text.now) }
    {
        match ArrayString::from(text) {
            Ok(short) => Text::sharing(alloc, Shared::Short(short)),
            Err(_) => {
                let long = String::from_str(alloc, text)?;
                Text::sharing(alloc, Shared::Long(long))
            }
        }
    }

    /// The text of a string, whose memory it takes over where the text isn't short.
    pub fn from_string(alloc: Global, text: String) -> Mem<Text>
        ensures { IfOk result (λ owned. owned ≡ string_bytes text) }
    {
        match ArrayString::from(text.as_str()) {
            Ok(short) => Text::sharing(alloc, Shared::Short(short)),
            Err(_) => Text::sharing(alloc, Shared::Long(text)),
        }
    }

    /// The text of two, one after the other, in a block of its own.
    pub fn joined(alloc: Global, start: &str, end: &str) -> Mem<Text>
        ensures { IfOk result (λ owned. owned ≡ start.now ++ end.now) }
    {
        let len = start.len().saturating_add(end.len());
        if len <= SHORT {
            let mut short = ArrayString::new();
            short.push_str(start);
            short.push_str(end);
            return Text::sharing(alloc, Shared::Short(short));
        }
        let mut long = String::with_capacity(alloc, len)?;
        long.push_str(start)?;
        long.push_str(end)?;
        Text::sharing(alloc, Shared::Long(long))
    }

    /// An equal text, which shares the block. It takes no memory.
    #[inline]
    pub fn copy(&self, _alloc: Global) -> Mem<Text>
        ensures { IfOk result (λ copy. copy ≡ self.now) }
    {
        let shared = self.shared.clone()?;
        Ok(Text { shared })
    }

    /// Lends the text.
    #[inline]
    pub fn as_str(&self) -> &str
        ensures { result.now ≡ self.now }
    {
        self.shared.as_str()
    }
}

impl fmt::Debug for Text {
    fn fmt<W: fmt::Write>(&self, f: &mut fmt::Formatter<W>) -> fmt::Result {
        fmt::Debug::fmt(&self.as_str(), f)
    }
}

impl PartialEq for Text {
    ghost eq = { pointwise nat_eq };

    ghost laws = { partial_equiv_from_equiv nat_list_eq_equiv };

    fn eq(&self, other: &Self) -> bool {
        self.as_str() == other.as_str()
    }
}

impl Eq for Text {
    ghost laws = { nat_list_eq_equiv };
}

impl PartialOrd for Text {
    ghost partial_cmp = { λ x y. Some (slice_cmp nat_cmp x y) };

    ghost laws = { texts_po };

    fn partial_cmp(&self, other: &Self) -> Option<Ordering> {
        Some(self.cmp(other))
    }
}

impl Ord for Text {
    ghost cmp = { slice_cmp nat_cmp };

    ghost total = { nat_list_cmp_total };

    ghost matches_partial_cmp = { λ x y. refl };

    ghost matches_eq = { texts_ties };

    fn cmp(&self, other: &Self) -> Ordering {
        self.as_str().cmp(other.as_str())
    }
}

impl Hash for Text {
    ghost hash_input = { fed.str };

    ghost respects_eq = { Prim.search (hashing, rules) };

    fn hash<H: Hasher>(&self, state: &mut H) {
        self.as_str().hash(state);
    }
}
