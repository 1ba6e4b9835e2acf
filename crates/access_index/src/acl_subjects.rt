//! [`list_subjects`]: the subjects of the access lists among paths.
ghost use Rattle.std.specs.Prelude.{◌≡◌, IfOk, IfSome, None};
ghost use Rattle.pod_path.specs.Hierarchy.{subject_of};
ghost use Rattle.access_index.specs.Tables.{ArePlain, list_subject, list_subjects};

use pod_base::{Mem, push_some};
use pod_path::Path;
use std::alloc::Global;

/// The subject of a path that is an access list.
fn list_subject(alloc: Global, path: &Path) -> Mem<Option<Path>>
    ensures subject { IfOk result (λ subject. subject ≡ list_subject path.now) }
    ensures plain { IfOk result (λ subject. IfSome subject (λ text. subject_of text ≡ None)) }
{
    if !path.is_acl() {
        return Ok(None);
    }
    let _text = path.as_str();
    let subject = path.subject(alloc)?;
    Ok(subject)
}

/// The subjects of the access lists among paths.
pub fn list_subjects(alloc: Global, paths: &[Path]) -> Mem<Vec<Path>>
    ensures subjects { IfOk result (λ subjects. subjects.items ≡ list_subjects paths.now) }
    ensures plain { IfOk result (λ subjects. ArePlain subjects.items) }
{
    let mut subjects = Vec::new(alloc);
    for path in paths {
        let subject = list_subject(alloc, path)?;
        push_some(&mut subjects, subject)?;
    }
    Ok(subjects)
}
