//! Which paths a change of access lists reaches.
ghost use Rattle.std.specs.Prelude.{◌≡◌};
ghost use Rattle.pod_path.specs.Hierarchy.{subject_of};
ghost use Rattle.pod_rows.specs.Access.{about};
ghost use Rattle.access_index.specs.Reach.{is_within, is_reached};

use pod_path::Path;
use pod_rows::about;

/// Whether the path is the other one, or below it, so that a change reaches it.
fn is_within(path: &[u8], other: &[u8]) -> bool
    ensures { result ≡ is_within path.now other.now }
{
    path == other || (other.ends_with(b"/") && path.starts_with(other))
}

/// Whether a change of access lists reaches a path, which is, or is about, one of their subjects,
/// or below one: adding or removing the subject's list may change which list governs the path. It
/// takes no memory.
pub fn is_reached(subjects: &[Path], path: &Path) -> bool
    ensures { result ≡ is_reached subjects.now path.now }
{
    subjects.iter().any(|subject| reaches(subject, path))
}

/// Whether a change of a subject's access list reaches the path, which is, or is about, the
/// subject, or below it.
fn reaches(subject: &Path, path: &Path) -> bool
    ensures { result ≡ is_within (about path.now (subject_of path.now)) subject.now }
{
    is_within(about(path.as_str()).as_bytes(), subject.as_str().as_bytes())
}
