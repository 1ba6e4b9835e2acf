//! Laws of paths, as contracts of functions that do nothing.

ghost use Rattle.std.specs.Prelude.{◌≡◌, ◌≢◌, ◌++◌, List, ℕ, Option, None, Ok};
ghost use Rattle.iri_ref.specs.Characters.{Lacks, is_hash};
ghost use Rattle.iri_ref.specs.Components.{fragment_text};
ghost use Rattle.pod_path.specs.Norm.{IsPath, norm};
ghost use Rattle.pod_path.specs.Hierarchy.{root, parent_of, IsUnder, uri_of, IsUriOf};

/// A URI names at most one path. The URI of a normal path under a base without a hash is that
/// path's, also with a fragment after it.
pub fn uris_name_one_path()
    ensures unique { (base uri path other : List ℕ) → IsUriOf base uri path → IsUriOf base uri other
        → path ≡ other }
    ensures back { (base path : List ℕ) (fragment : Option (List ℕ)) → Lacks is_hash base
        → norm path ≡ Ok path → IsUriOf base (uri_of base path ++ fragment_text fragment) path }
{}

/// The parents of a path, one after another, end at the root, which has none.
pub fn ancestors_end_at_the_root()
    ensures root { (path : List ℕ) → IsPath path → path ≢ root → IsUnder path root }
    ensures none { parent_of root ≡ None }
{}
