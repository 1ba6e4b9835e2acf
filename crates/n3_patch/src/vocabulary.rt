//! The IRIs of patch documents (Solid Terms).

ghost use Rattle.std.specs.Prelude.{◌≡◌};
ghost use Rattle.n3_patch.specs.Parts.{part_iri};

/// The class of patches.
pub const SOLID_INSERT_DELETE_PATCH: &str = "http://www.w3.org/ns/solid/terms#InsertDeletePatch";

/// The property of the conditions.
pub const SOLID_WHERE: &str = "http://www.w3.org/ns/solid/terms#where";

/// The property of the deletions.
pub const SOLID_DELETES: &str = "http://www.w3.org/ns/solid/terms#deletes";

/// The property of the insertions.
pub const SOLID_INSERTS: &str = "http://www.w3.org/ns/solid/terms#inserts";

/// A part of a patch.
#[derive(Clone, Copy, Debug, PartialEq, Eq)]
pub enum Part {
    Where,
    Deletes,
    Inserts,
}

impl Part {
    /// The IRI of the part's property.
    pub(crate) fn iri(self) -> &'static str
        ensures { result.now ≡ part_iri self }
    {
        match self {
            Part::Where => SOLID_WHERE,
            Part::Deletes => SOLID_DELETES,
            Part::Inserts => SOLID_INSERTS,
        }
    }
}
