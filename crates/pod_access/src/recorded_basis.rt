//! [`basis_of`]: what an entry records of a decision.
ghost use Rattle.std.specs.Prelude.{◌≡◌, ◌<◌, length, IfOk, Some};
ghost use Rattle.pod_access.specs.Decision.{basis_at, subjects_at, who_of};

use crate::granting_rules::Ground;
use acl_rules::{Rules, Subject};
use pod_base::Mem;
use pod_command::{Basis, Who};
use pod_path::Path;
use std::alloc::Global;

/// The basis that an entry records of a ground: the list at `acl`, the node of the rule, and whom
/// its subject covers.
pub fn basis_of(alloc: Global, rules: &Rules, ground: &Ground, acl: &Path) -> Mem<Basis>
    requires rule { ground.now.rule < length rules.now.list }
    requires subject { ground.now.subject < length (subjects_at rules.now.list ground.now.rule) }
    ensures { IfOk result (λ basis. basis_at rules.now.list ground.now acl.now ≡ Some basis) }
{
    let rule = &rules.list.as_slice()[ground.rule];
    let subject = &rule.subjects.as_slice()[ground.subject];
    let acl = acl.copy(alloc)?;
    let node = rule.node.copy(alloc)?;
    let who = who_of(alloc, subject)?;
    Ok(Basis {
        acl,
        rule: node,
        who,
    })
}

/// Whom a recorded basis names as covered by the subject of a rule.
fn who_of(alloc: Global, subject: &Subject) -> Mem<Who>
    ensures { IfOk result (λ who. who ≡ who_of subject.now) }
{
    match subject {
        Subject::Agent(_) => Ok(Who::Agent),
        Subject::Everyone => Ok(Who::Everyone),
        Subject::Authenticated => Ok(Who::Authenticated),
        Subject::Group { iri, .. } => {
            let iri = iri.copy(alloc)?;
            Ok(Who::Group(iri))
        }
    }
}
