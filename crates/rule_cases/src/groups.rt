//! The members of groups in cases of decisions.
ghost use Rattle.std.specs.Prelude.{◌≡◌, ◌&&◌, bytes_eq};
ghost use Rattle.std.specs.List.{list_any};
ghost use Rattle.rule_cases.specs.Members.{is_listed};

use acl_rules::Groups;
use case_words::pod_iri;
use pod_base::Mem;
use pod_path::Path;
use std::alloc::Global;

/// A member of a group, by the document at a path.
#[derive(Drop)]
pub(crate) struct Member {
    doc: String,
    group: String,
    agent: String,
}

/// The members of groups.
#[derive(Drop)]
pub(crate) struct Members {
    list: Vec<Member>,
}

impl Groups for Members {
    ghost use Rattle.rule_cases.specs.Members.{is_listed};

    ghost is_member = { is_listed };

    fn member(&self, doc: &Path, group: &str, agent: &str) -> bool {
        let doc = doc.as_str();
        self.list.iter().any(|m| m.doc.as_str() == doc
            && (m.group.as_str() == group && m.agent.as_str() == agent))
    }
}

/// The member of three words: the path of the document, the group and the agent.
fn member_of(alloc: Global, base: &str, doc: &str, group: &str, agent: &str) -> Mem<Member> {
    Ok(Member {
        doc: String::from_str(alloc, doc)?,
        group: pod_iri(alloc, base, group)?,
        agent: pod_iri(alloc, base, agent)?,
    })
}

/// The members of a field.
pub(crate) fn members_of(alloc: Global, base: &str, field: &str) -> Mem<Members> {
    let mut list = Vec::new(alloc);
    for row in field.split(';') {
        let mut words = row.split(' ');
        if let (Some(doc), Some(group), Some(agent)) = (words.next(), words.next(), words.next()) {
            list.push(member_of(alloc, base, doc, group, agent)?)?;
        }
    }
    Ok(Members { list })
}
