//! [`Iri`]: absolute IRIs, and [`resolve`], which resolves a reference against one.

ghost use Rattle.std.specs.Prelude.{◌≡◌, ◌↔◌, ◌++◌, IfOk, IsErrOf, List, ℕ, nat_eq};
ghost use Rattle.std.specs.Prelude.{Some};
ghost use Rattle.std.specs.Cmp.{partial_equiv_from_equiv};
ghost use Rattle.std.specs.Cmp.Lexicographic.{slice_cmp};
ghost use Rattle.std.specs.Ordering.{nat_cmp};
ghost use Rattle.iri_ref.specs.Characters.{AllAllowed};
ghost use Rattle.iri_ref.specs.Components.{IsAbsolute};
ghost use Rattle.iri_ref.specs.Resolution.{IsResolved, StaysResolved, TakesScheme};
ghost use Rattle.iri_ref.specs.Written.{IsIriOfReference};
ghost use Rattle.iri_ref.specs.declared.iri.IriFault.TheVariants.{NoMemory as NoMemoryFault};

use crate::characters::all_allowed;
use crate::components::{is_absolute, parse_components};
use crate::target_components::transform;
use pod_base::{Mem, NoMemory, Text};
use std::alloc::Global;
use std::cmp::Ordering;
use std::marker::Model;
use thiserror::Error;

/// An absolute IRI, as it was written. Contracts see the list of its bytes, which has a scheme and
/// no character that IRIREF (RDF 1.1 Turtle, section 6.5) forbids. A copy shares its memory.
#[derive(Debug, Drop)]
pub struct Iri {
    text: Text,
}

impl Model for Iri {
    ghost use Rattle.std.specs.Prelude.{List, ℕ};
    ghost use Rattle.iri_ref.specs.Components.{IsAbsolute};

    ghost Value = { List ℕ };

    ghost view = { λ iri. iri.text };

    ghost invariant = { λ iri. IsAbsolute iri.text };
}

/// Why a call returns no IRI.
#[derive(Clone, Copy, Debug, PartialEq, Eq, Error)]
pub enum IriFault {
    /// The text has a forbidden character, or no scheme where it needs one.
    #[error("no reference")]
    BadReference,
    /// Memory ran out.
    #[error("out of memory")]
    NoMemory,
}

impl From<NoMemory> for IriFault {
    ghost from_gives = { λ _ fault. fault ≡ NoMemoryFault };

    fn from(_: NoMemory) -> IriFault {
        IriFault::NoMemory
    }
}

impl Iri {
    /// Parses an absolute IRI: a text with a scheme and no forbidden character. It fails with
    /// `BadReference` on every other text.
    pub fn read(alloc: Global, text: &str) -> Result<Iri, IriFault>
        ensures text { IfOk result (λ iri. iri ≡ text.now) }
        ensures absolute { IfOk result (λ _. IsAbsolute text.now) }
        ensures bad_reference { IsErrOf result IriFault.BadReference ↔ (IsAbsolute text.now → ⊥) }
    {
        if !is_absolute(text) {
            return Err(IriFault::BadReference);
        }
        let text = Text::of(alloc, text)?;
        Ok(Iri { text })
    }

    /// The text of the IRI, as it was written.
    #[inline]
    pub fn as_str(&self) -> &str
        ensures text { result.now ≡ self.now }
        ensures absolute { IsAbsolute self.now }
    {
        self.text.as_str()
    }

    /// The same IRI, which shares the memory of this one. It never answers `BadReference`.
    #[inline]
    pub fn copy(&self, alloc: Global) -> Result<Iri, IriFault>
        ensures text { IfOk result (λ iri. iri ≡ self.now) }
        ensures never_bad { IsErrOf result IriFault.BadReference → ⊥ }
    {
        let text = self.text.copy(alloc)?;
        Ok(Iri { text })
    }

    /// The IRI with `end` after its text, which has no forbidden character, in one new piece of
    /// memory.
    pub fn extended(&self, alloc: Global, end: &str) -> Mem<Iri>
        requires { AllAllowed end.now }
        ensures { IfOk result (λ iri. iri ≡ self.now ++ end.now) }
    {
        let text = Text::joined(alloc, self.as_str(), end)?;
        Ok(Iri { text })
    }

    /// The IRI with `end` after its text, in one new piece of memory. It fails with `BadReference`
    /// exactly where `end` has a forbidden character.
    pub fn appended(&self, alloc: Global, end: &str) -> Result<Iri, IriFault>
        ensures text { IfOk result (λ iri. iri ≡ self.now ++ end.now) }
        ensures absolute { IfOk result (λ iri. IsAbsolute iri) }
        ensures bad_reference { IsErrOf result IriFault.BadReference ↔ (AllAllowed end.now → ⊥) }
    {
        if !all_allowed(end) {
            return Err(IriFault::BadReference);
        }
        Ok(self.extended(alloc, end)?)
    }
}

impl PartialEq for Iri {
    ghost use Rattle.std.specs.Cmp.Lexicographic.{pointwise, nat_list_eq_equiv};

    ghost eq = { pointwise nat_eq };

    ghost laws = { partial_equiv_from_equiv nat_list_eq_equiv };

    fn eq(&self, other: &Iri) -> bool {
        self.as_str() == other.as_str()
    }
}

impl Eq for Iri {
    ghost use Rattle.std.specs.Cmp.Lexicographic.{nat_list_eq_equiv};

    ghost laws = { nat_list_eq_equiv };
}

impl PartialOrd for Iri {
    ghost use Rattle.std.specs.Cmp.Lexicographic.{texts_po};

    ghost partial_cmp = { λ x y. Some (slice_cmp nat_cmp x y) };

    ghost laws = { texts_po };

    fn partial_cmp(&self, other: &Iri) -> Option<Ordering> {
        Some(self.cmp(other))
    }
}

/// IRIs are ordered by the bytes of their texts.
impl Ord for Iri {
    ghost use mathlib.Core.Path.{refl};
    ghost use Rattle.std.specs.Cmp.Lexicographic.{nat_list_cmp_total, texts_ties};

    ghost cmp = { slice_cmp nat_cmp };

    ghost total = { nat_list_cmp_total };

    ghost matches_partial_cmp = { λ x y. refl };

    ghost matches_eq = { texts_ties };

    fn cmp(&self, other: &Iri) -> Ordering {
        self.as_str().cmp(other.as_str())
    }
}

/// The text of the IRI to which a reference is resolved against a base.
fn resolve_text(alloc: Global, base: &str, reference: &str) -> Mem<Text>
    ensures { IfOk result (λ text. IsResolved base.now reference.now text) }
{
    let target = transform(parse_components(base), parse_components(reference));
    let text = target.recompose(alloc)?;
    Text::from_string(alloc, text)
}

/// Resolves a reference to an IRI against a base (RFC 3986, section 5.2, strict). It fails with
/// `BadReference` exactly where the reference has a forbidden character.
pub fn resolve(alloc: Global, base: &Iri, reference: &str) -> Result<Iri, IriFault>
    ensures resolved { IfOk result (λ iri. IsResolved base.now reference.now iri) }
    ensures absolute { IfOk result (λ iri. IsAbsolute iri) }
    ensures bad_reference { IsErrOf result IriFault.BadReference ↔ (AllAllowed reference.now → ⊥) }

    // No other text is the result.
    ensures only { IfOk result (λ iri. (text : List ℕ) → IsResolved base.now reference.now text
        → text ≡ iri) }
    ensures scheme { IfOk result (λ iri. TakesScheme base.now reference.now iri) }
    ensures again { IfOk result (λ iri. StaysResolved base.now iri) }
{
    if !all_allowed(reference) {
        return Err(IriFault::BadReference);
    }
    let text = resolve_text(alloc, base.as_str(), reference)?;
    Ok(Iri { text })
}

/// The IRI that a reference in a document stands for: the reference itself, as it is written, where
/// it has a scheme, and what it resolves to against the base where it is relative (RDF 1.1 Turtle,
/// section 6.3). It fails with `BadReference` exactly where the reference has a forbidden character.
pub fn iri_of_reference(alloc: Global, base: &Iri, reference: &str) -> Result<Iri, IriFault>
    ensures iri { IfOk result (λ iri. IsIriOfReference base.now reference.now iri) }
    ensures bad_reference { IsErrOf result IriFault.BadReference ↔ (AllAllowed reference.now → ⊥) }
{
    if is_absolute(reference) {
        return Iri::read(alloc, reference);
    }
    resolve(alloc, base, reference)
}
