//! Laws of the definitions, as contracts of functions that do nothing.

ghost use Rattle.std.specs.Prelude.{◌≡◌, List, ℕ};
ghost use Rattle.iri_ref.specs.Components.{Components, HasComponents, IsAbsolute};
ghost use Rattle.iri_ref.specs.Resolution.{IsResolved, StaysResolved};
ghost use Rattle.iri_ref.specs.Written.{IsIriOfReference};

/// Every reference has its five components, in exactly one way.
pub fn texts_split_uniquely()
    ensures exists { (text : List ℕ) → (parts : Components) × HasComponents text parts }
    ensures unique { (text : List ℕ) (parts others : Components) → HasComponents text parts
        → HasComponents text others → parts ≡ others }
{}

/// A reference resolves to at most one text, and an absolute IRI without dot segments to itself.
pub fn references_resolve_uniquely()
    ensures unique { (base ref text other : List ℕ) → IsResolved base ref text
        → IsResolved base ref other → text ≡ other }
    ensures itself { (base text : List ℕ) → IsAbsolute text → StaysResolved base text }
{}

/// A reference in a document stands for at most one IRI, and an absolute IRI for itself.
pub fn references_stand_for_one_iri()
    ensures unique { (base ref iri other : List ℕ) → IsIriOfReference base ref iri
        → IsIriOfReference base ref other → iri ≡ other }
    ensures itself { (base iri : List ℕ) → IsAbsolute iri → IsIriOfReference base iri iri }
{}
