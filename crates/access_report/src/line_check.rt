//! [`checks`]: whether a line of a report is what the access lists say.
ghost use Rattle.std.specs.Prelude.{◌≡◌, ◌↔◌, ◌∷◌, [], IfOk, IsTrue, filter, option_copied};
ghost use Rattle.std.specs.List.{find};
ghost use Rattle.pod_access.specs.PodGrants.{PodGrants};
ghost use Rattle.pod_access.specs.PodGrants.{membership};
ghost use Rattle.pod_path.specs.Hierarchy.{acl_of};
ghost use Rattle.pod_rows.specs.Access.{effective_of};
ghost use Rattle.pod_rows.specs.Pod.{is_row};
ghost use Rattle.pod_access.specs.Decision.{rule_grants};
ghost use Rattle.access_report.specs.Checked.{Checks, ChecksIn};
ghost use Rattle.access_report.specs.Subjects.{grants_if, is_named, is_node, is_path_if, rule_as};

use crate::line::Line;
use acl_rules::{How, Items, Rule, Rules, Subject};
use pod_access::granted;
use pod_base::{Agent, Mem};
use pod_command::Who;
use pod_path::Path;
use pod_rows::PodState;
use rdf_graph::Term;
use std::alloc::Global;

/// Whether a subject is of the kind that a report's line names; of groups, whether it is this one.
fn is_named(subject: &Subject, who: &Who) -> bool
    ensures { result ≡ is_named who.now subject.now }
{
    match (subject, who) {
        (Subject::Agent(_), Who::Agent) => true,
        (Subject::Everyone, Who::Everyone) => true,
        (Subject::Authenticated, Who::Authenticated) => true,
        (Subject::Group { doc: _, iri }, Who::Group(group)) => iri == group,
        _ => false,
    }
}

/// Copies of the subjects of the kind that a report's line names.
fn subjects_of_kind(alloc: Global, subjects: &[Subject], who: &Who) -> Mem<Items<Subject>>
    ensures { IfOk result (λ copies. copies ≡ filter (is_named who.now) subjects.now) }
{
    let mut copies = Vec::new(alloc);
    for subject in subjects {
        if is_named(subject, who) {
            let copy = subject.copy(alloc)?;
            copies.push(copy)?;
        }
    }
    Ok(Items::from_vec(copies))
}

/// The rule with those of its subjects that are of the kind that a report's line names.
fn rule_as(alloc: Global, rule: &Rule, who: &Who) -> Mem<Rule>
    ensures { IfOk result (λ copy. copy ≡ rule_as who.now rule.now) }
{
    let copy = rule.copy(alloc)?;
    let subjects = subjects_of_kind(alloc, rule.subjects.as_slice(), who)?;
    Ok(Rule {
        node: copy.node,
        access_to: copy.access_to,
        defaults: copy.defaults,
        modes: copy.modes,
        subjects,
    })
}

/// The rule of the node that a report's line names.
fn find_rule<'a>(rules: &'a [Rule], node: &Term) -> Option<&'a Rule>
    ensures { option_copied result ≡ find (is_node node.now) rules.entry.now }
{
    rules.iter().find(|rule| rule.node == *node)
}

/// Rules of which the one that a report's line names is the only one.
fn only_rule(alloc: Global, rule: Rule) -> Mem<Rules>
    ensures { IfOk result (λ rules. rules.list ≡ rule ∷ []) }
{
    let mut list = Vec::new(alloc);
    list.push(rule)?;
    let list = Items::from_vec(list);
    Ok(Rules { list })
}

/// Whether a rule grants the mode of a report's line to the agent, by its subjects of the line's
/// kind.
fn grants_alone<S: PodState>(
    alloc: Global,
    state: &S,
    agent: &Agent,
    how: How,
    at: &Path,
    rule: &Rule,
    line: &Line,
) -> Mem<bool>
    ensures { IfOk result (λ granted. granted ≡ rule_grants (membership (S.pod state.now)) how
        at.now agent.now line.now.mode (rule_as line.now.basis.who rule.now)) }
{
    let alone = rule_as(alloc, rule, &line.basis.who)?;
    let rules = only_rule(alloc, alone)?;
    Ok(granted(&rules, how, at, agent, state, line.mode).is_some())
}

/// Whether the rule that a report's line names is among the rules, and grants the line's mode.
fn grants_among<S: PodState>(
    alloc: Global,
    state: &S,
    agent: &Agent,
    how: How,
    at: &Path,
    rules: &Rules,
    line: &Line,
) -> Mem<bool>
    ensures { IfOk result (λ granted. granted ≡ grants_if (membership (S.pod state.now)) how
        at.now agent.now line.now (find (is_node line.now.basis.rule) rules.now.list)) }
{
    match find_rule(rules.list.as_slice(), &line.basis.rule) {
        Some(rule) => grants_alone(alloc, state, agent, how, at, rule, line),
        None => Ok(false),
    }
}

/// Whether the access list of `at` is the one that a report's line names.
fn is_list_of(alloc: Global, at: &Path, acl: &Path) -> Mem<bool>
    ensures { IfOk result (λ is. is ≡ is_path_if acl.now (acl_of at.now)) }
{
    match at.acl(alloc)? {
        Some(list) => Ok(list == *acl),
        None => Ok(false),
    }
}

/// Whether the access list that governs the path of a report's line is that of its basis, and its
/// rule grants.
fn checks_at<S: PodState>(alloc: Global, state: &S, agent: &Agent, line: &Line) -> Mem<bool>
    ensures { IfOk result (λ r. IsTrue r ↔ ChecksIn (S.pod state.now) agent.now line.now
        (effective_of (S.pod state.now).rows line.now.path)) }
{
    state.is_well_formed();
    let effective = state.effective(&line.path);
    let (how, at) = (effective.how, effective.at);
    let is_list = is_list_of(alloc, at, &line.basis.acl)?;
    if is_list {
        grants_among(alloc, state, agent, how, at, effective.rules, line)
    } else {
        Ok(false)
    }
}

/// Whether the path of a report's line is a row.
fn has_row<S: PodState>(state: &S, path: &Path) -> bool
    ensures { result ≡ is_row (S.pod state.now).rows path.now }
{
    state.find(path).is_some()
}

/// Whether a report's line is what the access lists say of the agent: its path is a row that is no
/// access list, its basis names the list that governs the path, its rule is a node there of type
/// `acl:Authorization` with that place and mode (or `acl:Write`, where the mode is Append), and a
/// subject of the kind that the basis names covers the agent.
///
/// It looks at that one rule, whoever wrote the line.
pub fn checks<S: PodState>(alloc: Global, state: &S, agent: &Agent, line: &Line) -> Mem<bool>
    ensures exact { IfOk result (λ r. IsTrue r ↔ Checks (S.pod state.now) agent.now line.now) }
    ensures granted { IfOk result (λ r. IsTrue r
        → PodGrants (S.pod state.now) agent.now line.now.path line.now.mode) }
{
    if line.path.is_acl() {
        return Ok(false);
    }
    if has_row(state, &line.path) {
        checks_at(alloc, state, agent, line)
    } else {
        Ok(false)
    }
}
