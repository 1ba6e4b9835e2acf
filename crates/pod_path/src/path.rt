//! [`Path`]: the path of a resource, and the paths about it.

ghost use Rattle.std.specs.Prelude.{◌≡◌, ◌↔◌, ◌++◌, ◌∷◌, ◌<◌, [], List, ℕ, Bool, true, false};
ghost use Rattle.std.specs.Prelude.{IsTrue, IfOk, IfErr, IfSome, IfNone, Ok, Some, string_bytes};
ghost use Rattle.std.specs.Prelude.{length, codes, nat_eq};
ghost use Rattle.std.specs.Cmp.{partial_equiv_from_equiv};
ghost use Rattle.std.specs.Cmp.Lexicographic.{slice_cmp};
ghost use Rattle.std.specs.Ordering.{nat_cmp};
ghost use Rattle.iri_ref.specs.Characters.{slash};
ghost use Rattle.pod_path.specs.Norm.{IsPath, norm, FailsAs, IsLimitFault, is_within_limits, depth};
ghost use Rattle.pod_path.specs.Hierarchy.{is_root, is_container, is_acl, is_meta, is_auxiliary};
ghost use Rattle.pod_path.specs.Hierarchy.{parent_of, twin_of, acl_of, meta_of, subject_of};
ghost use Rattle.pod_path.specs.Hierarchy.{IsUnder, IsInside, member_text, uri_of, IsUriOf, IsName};
ghost use Rattle.pod_path.specs.Hierarchy.{IsPlainName};

use crate::fault::PathFault;
use crate::limits::is_within;
use crate::normalize::{normalize_target, normalize_text, strip_first_slash};
use crate::path_text::{
    concatenate, count_slashes, is_inside, member_text, parent_text, strip_end, subject_text,
};
use crate::segments::ends_with;
use crate::uri_fragment::uri_part;
use iri_ref::{Iri, IriFault};
use pod_base::{Mem, NoMemory, Text};
use std::alloc::Global;
use std::cmp::Ordering;
use std::marker::Model;

/// The path of a resource, in its normal form. Contracts see its text, which the first three steps
/// of parsing leave as it is. A copy shares its memory.
#[derive(Debug, Drop)]
pub struct Path {
    text: Text,
}

impl Model for Path {
    ghost use Rattle.std.specs.Prelude.{List, ℕ};
    ghost use Rattle.pod_path.specs.Norm.{IsPath};

    ghost Value = { List ℕ };

    ghost view = { λ path. path.text };

    ghost invariant = { λ path. IsPath path.text };
}

/// Which paths are rows.
pub trait Taken {
    ghost is_row: { Self → List ℕ → Bool };

    /// Whether the path is a row.
    fn taken(&self, path: &Path) -> bool
        ensures { result ≡ is_row self.now path.now };

    /// Whether a path with this text is a row: for a look-up that makes no path.
    fn taken_text(&self, text: &str) -> bool
        ensures { result ≡ is_row self.now text.now };
}

impl PartialEq for Path {
    ghost use Rattle.std.specs.Cmp.Lexicographic.{pointwise, nat_list_eq_equiv};

    ghost eq = { pointwise nat_eq };

    ghost laws = { partial_equiv_from_equiv nat_list_eq_equiv };

    fn eq(&self, other: &Path) -> bool {
        self.as_str() == other.as_str()
    }
}

impl Eq for Path {
    ghost use Rattle.std.specs.Cmp.Lexicographic.{nat_list_eq_equiv};

    ghost laws = { nat_list_eq_equiv };
}

impl PartialOrd for Path {
    ghost use Rattle.std.specs.Cmp.Lexicographic.{texts_po};

    ghost partial_cmp = { λ x y. Some (slice_cmp nat_cmp x y) };

    ghost laws = { texts_po };

    fn partial_cmp(&self, other: &Path) -> Option<Ordering> {
        Some(self.cmp(other))
    }
}

/// Paths are ordered by the bytes of their texts.
impl Ord for Path {
    ghost use mathlib.Core.Path.{refl};
    ghost use Rattle.std.specs.Cmp.Lexicographic.{nat_list_cmp_total, texts_ties};

    ghost cmp = { slice_cmp nat_cmp };

    ghost total = { nat_list_cmp_total };

    ghost matches_partial_cmp = { λ x y. refl };

    ghost matches_eq = { texts_ties };

    fn cmp(&self, other: &Path) -> Ordering {
        self.as_str().cmp(other.as_str())
    }
}

impl Path {
    /// Parses a target without its query to its normal path. The limits are
    /// [`crate::PATH_BYTES_LIMIT`] and [`crate::PATH_SEGMENTS_LIMIT`].
    pub fn read(alloc: Global, target: &[u8]) -> Result<Path, PathFault>
        ensures path { IfOk result (λ path. norm target.now ≡ Ok path) }
        ensures fault { IfErr result (λ fault. FailsAs fault (norm target.now)) }

        // A normal path parses to itself.
        ensures again { IfOk result (λ path. norm path ≡ Ok path) }
    {
        let text = normalize_target(alloc, target)?;
        let text = Text::from_string(alloc, text)?;
        Ok(Path { text })
    }

    /// The path with this text: `Some` exactly where steps 1 to 3 of parsing leave the text as it
    /// is. It may pass the limits.
    pub fn of_text(alloc: Global, text: &str) -> Mem<Option<Path>>
        ensures some { IfOk result (λ found. IfSome found (λ path. path ≡ text.now)) }
        ensures path { IfOk result (λ found. IfSome found (λ _. IsPath text.now)) }
        ensures none { IfOk result (λ found. IfNone found (IsPath text.now → ⊥)) }
    {
        match normalize_text(alloc, text.as_bytes()) {
            Ok((normal, _)) => {
                if normal.as_str() != text {
                    return Ok(None);
                }
                let text = Text::from_string(alloc, normal)?;
                Ok(Some(Path { text }))
            }
            Err(PathFault::NoMemory) => Err(NoMemory),
            Err(_) => Ok(None),
        }
    }

    /// The text of the path.
    pub fn as_str(&self) -> &str
        ensures text { result.now ≡ self.now }
        ensures path { IsPath self.now }
    {
        self.text.as_str()
    }

    /// An equal path, which shares the memory of this one.
    pub fn copy(&self, alloc: Global) -> Mem<Path>
        ensures { IfOk result (λ copy. copy ≡ self.now) }
    {
        let text = self.text.copy(alloc)?;
        Ok(Path { text })
    }

    /// Whether the path has at most [`crate::PATH_BYTES_LIMIT`] bytes and
    /// [`crate::PATH_SEGMENTS_LIMIT`] segments.
    pub fn is_within_limits(&self) -> bool
        ensures limits { result ≡ is_within_limits self.now }

        // These are the paths that parse to themselves.
        ensures normal { IsTrue result ↔ norm self.now ≡ Ok self.now }
    {
        let text = self.as_str();
        is_within(text.len(), count_slashes(text))
    }

    /// Whether the path ends in a slash.
    pub fn is_container(&self) -> bool
        ensures { result ≡ is_container self.now }
    {
        ends_with(self.as_str(), "/")
    }

    /// Whether this is the path of an ACL.
    pub fn is_acl(&self) -> bool
        ensures { result ≡ is_acl self.now }
    {
        ends_with(self.as_str(), ".acl")
    }

    /// Whether this is the path of a description.
    pub fn is_meta(&self) -> bool
        ensures { result ≡ is_meta self.now }
    {
        ends_with(self.as_str(), ".meta")
    }

    /// Whether this is the path of the pod itself.
    pub fn is_root(&self) -> bool
        ensures { result ≡ is_root self.now }
    {
        self.as_str() == "/"
    }

    /// Whether this is the path of an ACL or of a description.
    pub fn is_auxiliary(&self) -> bool
        ensures is { result ≡ is_auxiliary self.now }
        ensures path { IsPath self.now }
    {
        let text = self.as_str();
        ends_with(text, ".acl") || ends_with(text, ".meta")
    }

    /// The path with a text that is one already.
    fn from_text(alloc: Global, text: &str) -> Mem<Path>
        requires { IsPath text.now }
        ensures { IfOk result (λ path. path ≡ text.now) }
    {
        let text = Text::of(alloc, text)?;
        Ok(Path { text })
    }

    /// The path with `end` after its text.
    fn appended(&self, alloc: Global, end: &str) -> Mem<Path>
        requires { IsPath (self.now ++ end.now) }
        ensures { IfOk result (λ path. path ≡ self.now ++ end.now) }
    {
        let text = concatenate(alloc, self.as_str(), end)?;
        let text = Text::from_string(alloc, text)?;
        Ok(Path { text })
    }

    /// The path of the container just above; none at the root alone.
    pub fn parent(&self, alloc: Global) -> Mem<Option<Path>>
        ensures parent { IfOk result (λ parent. parent ≡ parent_of self.now) }
        ensures container { IfOk result (λ parent. IfSome parent
            (λ text. is_container text ≡ true)) }
        ensures shorter { IfOk result (λ parent. IfSome parent
            (λ text. length text < length self.now)) }
        ensures normal { norm self.now ≡ Ok self.now
            → IfOk result (λ parent. IfSome parent (λ text. norm text ≡ Ok text)) }
    {
        if self.is_root() {
            return Ok(None);
        }
        let parent = Path::from_text(alloc, parent_text(self.as_str()))?;
        Ok(Some(parent))
    }

    /// The path with or without the last slash; none for the root, an ACL and a description.
    pub fn twin(&self, alloc: Global) -> Mem<Option<Path>>
        ensures twin { IfOk result (λ twin. twin ≡ twin_of self.now) }

        // Its twin is the path.
        ensures back { IfOk result (λ twin. IfSome twin (λ text. twin_of text ≡ Some self.now)) }
        ensures parent { IfOk result (λ twin. IfSome twin
            (λ text. parent_of text ≡ parent_of self.now)) }
    {
        if self.is_root() || self.is_auxiliary() {
            return Ok(None);
        }
        let twin = self.twin_text(alloc)?;
        Ok(Some(twin))
    }

    /// The path with the last slash added or removed, which is its twin.
    fn twin_text(&self, alloc: Global) -> Mem<Path>
        requires root { is_root self.now ≡ false }
        requires auxiliary { is_auxiliary self.now ≡ false }
        ensures twin { IfOk result (λ twin. Some twin ≡ twin_of self.now) }
        ensures path { IsPath self.now }
    {
        match strip_end(self.as_str(), "/") {
            Some(prefix) => Path::from_text(alloc, prefix),
            None => self.appended(alloc, "/"),
        }
    }

    /// The path of the ACL; none for an ACL and a description.
    pub fn acl(&self, alloc: Global) -> Mem<Option<Path>>
        ensures acl { IfOk result (λ acl. acl ≡ acl_of self.now) }

        // Its subject is the path.
        ensures back { IfOk result (λ acl. IfSome acl (λ text. subject_of text ≡ Some self.now)) }
    {
        if self.is_auxiliary() {
            return Ok(None);
        }
        let acl = self.appended(alloc, ".acl")?;
        Ok(Some(acl))
    }

    /// The path of the description; none for an ACL and a description.
    pub fn meta(&self, alloc: Global) -> Mem<Option<Path>>
        ensures meta { IfOk result (λ meta. meta ≡ meta_of self.now) }

        // Its subject is the path.
        ensures back { IfOk result (λ meta. IfSome meta (λ text. subject_of text ≡ Some self.now)) }
    {
        if self.is_auxiliary() {
            return Ok(None);
        }
        let meta = self.appended(alloc, ".meta")?;
        Ok(Some(meta))
    }

    /// The path of the subject of an ACL or a description; none where this path is neither.
    pub fn subject(&self, alloc: Global) -> Mem<Option<Path>>
        ensures subject { IfOk result (λ subject. subject ≡ subject_of self.now) }

        // Its ACL, or its description, is the path.
        ensures acl_back { is_acl self.now ≡ true
            → IfOk result (λ subject. IfSome subject (λ text. acl_of text ≡ Some self.now)) }
        ensures meta_back { is_meta self.now ≡ true
            → IfOk result (λ subject. IfSome subject (λ text. meta_of text ≡ Some self.now)) }
    {
        match subject_text(self.as_str()) {
            Some(text) => {
                let subject = Path::from_text(alloc, text)?;
                Ok(Some(subject))
            }
            None => Ok(None),
        }
    }

    /// Whether the other path is an ancestor of this path.
    pub fn under(&self, other: &Path) -> bool
        ensures ancestor { IsTrue result ↔ IsUnder self.now other.now }
        ensures inside { IsTrue result ↔ IsInside self.now other.now }
    {
        is_inside(self.as_str(), other.as_str())
    }

    /// The path of a member of this container by its name. The limits are those of `read`.
    pub fn child(&self, alloc: Global, name: &str, container: bool) -> Result<Path, PathFault>
        requires { is_container self.now ≡ true }
        ensures path { IfOk result (λ path. norm (member_text self.now name.now container)
            ≡ Ok path) }
        ensures fault { IfErr result (λ fault. FailsAs fault
            (norm (member_text self.now name.now container))) }
        ensures normal { IfOk result (λ path. norm path ≡ Ok path) }

        // Where the name is one segment, the path is the parent, and `container` decides the kind.
        ensures parent { IsName name.now → IfOk result (λ path. parent_of path ≡ Some self.now) }
        ensures container { IsName name.now → IfOk result (λ path. is_container path ≡ container) }

        // A name that needs no change is part of the member's path as it is, and only limits fault.
        ensures plain { IsPlainName name.now container
            → IfOk result (λ path. path ≡ member_text self.now name.now container) }
        ensures limits { IsPlainName name.now container → IfErr result IsLimitFault }
    {
        let text = member_text(alloc, self.as_str(), name, container)?;
        Path::read(alloc, text.as_bytes())
    }

    /// The URI of the path: the base, and the path without its first slash.
    pub fn uri(&self, alloc: Global, base: &Iri) -> Mem<Iri>
        ensures { IfOk result (λ iri. iri ≡ uri_of base.now self.now) }
    {
        match base.appended(alloc, strip_first_slash(self.as_str())) {
            Ok(iri) => Ok(iri),
            Err(IriFault::NoMemory) => Err(NoMemory),
            Err(IriFault::BadReference) => unreachable!(),
        }
    }

    /// The path of a URI without its fragment; none exactly where it is that of no normal path. The
    /// limits are those of `read`. After the base it reads at most [`crate::PATH_BYTES_LIMIT`]
    /// bytes.
    pub fn of_uri(alloc: Global, base: &Iri, uri: &str) -> Mem<Option<Path>>
        ensures some { IfOk result (λ found. IfSome found (λ path. IsUriOf base.now uri.now path)) }
        ensures none { IfOk result (λ found. IfNone found ((path : List ℕ)
            → IsUriOf base.now uri.now path → ⊥)) }
    {
        let Some(part) = uri_part(base.as_str(), uri) else {
            return Ok(None);
        };
        Path::read_after_slash(alloc, part)
    }

    /// The path of a slash and these bytes, where it parses to itself.
    fn read_after_slash(alloc: Global, part: &[u8]) -> Mem<Option<Path>>
        ensures some { IfOk result (λ found. IfSome found (λ path. path ≡ slash ∷ part.now)) }
        ensures normal { IfOk result (λ found. IfSome found
            (λ path. norm (slash ∷ part.now) ≡ Ok path)) }
        ensures none { IfOk result (λ found. IfNone found
            (norm (slash ∷ part.now) ≡ Ok (slash ∷ part.now) → ⊥)) }
    {
        let mut text = Vec::with_capacity(alloc, part.len().saturating_add(1))?;
        text.push(b'/')?;
        text.extend_from_slice(part)?;
        Path::read_normal(alloc, &text)
    }

    /// A text as a path, where it parses to itself.
    fn read_normal(alloc: Global, text: &[u8]) -> Mem<Option<Path>>
        ensures some { IfOk result (λ found. IfSome found (λ path. path ≡ text.now)) }
        ensures normal { IfOk result (λ found. IfSome found (λ path. norm text.now ≡ Ok path)) }
        ensures none { IfOk result (λ found. IfNone found (norm text.now ≡ Ok text.now → ⊥)) }
    {
        match Path::read(alloc, text) {
            Ok(path) => {
                if path.as_str().as_bytes() == text {
                    return Ok(Some(path));
                }
                Ok(None)
            }
            Err(PathFault::NoMemory) => Err(NoMemory),
            Err(_) => Ok(None),
        }
    }
}
