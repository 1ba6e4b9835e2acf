//! [`Decision`]: why each mode is granted by one access list.
ghost use Rattle.std.specs.Prelude.{◌≡◌, ◌++◌, IfOk, OnOk, Some, filter, option_copied};
ghost use Rattle.std.specs.List.{find};
ghost use Rattle.pod_access.specs.Bases.{basis_by};
ghost use Rattle.pod_rows.specs.Access.{effective_of, governed, list_path, rules_at};
ghost use Rattle.access_report.specs.Decisions.{IsDecision, how_eq, is_above, is_of, lines_by};
ghost use Rattle.access_report.specs.Reports.{line_at};

use crate::line::Line;
use acl_rules::{How, Rules};
use pod_access::{basis_of, granted};
use pod_base::{Agent, Mem, Mode};
use pod_command::Basis;
use pod_path::Path;
use pod_rows::PodState;
use std::alloc::Global;

/// Why an agent is granted each mode where one access list governs: the path whose list it is, how
/// it applies, and the basis of each mode that is granted.
#[derive(Drop)]
pub(crate) struct Decision {
    pub at: Path,
    pub how: How,
    pub read: Option<Basis>,
    pub write: Option<Basis>,
    pub append: Option<Basis>,
    pub control: Option<Basis>,
}

/// The basis of a mode in a decision by the access list of `at`, whose path is `list`; none where
/// the list doesn't grant it.
fn basis_in<S: PodState>(
    alloc: Global,
    state: &S,
    rules: &Rules,
    how: How,
    at: &Path,
    list: &Path,
    agent: &Agent,
    mode: Mode,
) -> Mem<Option<Basis>>
    requires rules { rules.now.list ≡ rules_at (S.pod state.now) at.now }
    requires list { list.now ≡ list_path at.now }
    ensures { IfOk result (λ basis. basis
        ≡ basis_by (S.pod state.now) agent.now mode (governed at.now how)) }
{
    match granted(rules, how, at, agent, state, mode) {
        Some(ground) => {
            let basis = basis_of(alloc, rules, &ground, list)?;
            Ok(Some(basis))
        }
        None => Ok(None),
    }
}

/// The decision on an agent by the access list of `at`, whose path is `list`.
fn decide<S: PodState>(
    alloc: Global,
    state: &S,
    rules: &Rules,
    how: How,
    at: &Path,
    list: &Path,
    agent: &Agent,
) -> Mem<Decision>
    requires rules { rules.now.list ≡ rules_at (S.pod state.now) at.now }
    requires list { list.now ≡ list_path at.now }
    ensures decision { IfOk result (IsDecision (S.pod state.now) agent.now) }
    ensures at { IfOk result (λ decision. decision.at ≡ at.now) }
    ensures how { IfOk result (λ decision. decision.how ≡ how) }
{
    let read = basis_in(alloc, state, rules, how, at, list, agent, Mode::Read)?;
    let write = basis_in(alloc, state, rules, how, at, list, agent, Mode::Write)?;
    let append = basis_in(alloc, state, rules, how, at, list, agent, Mode::Append)?;
    let control = basis_in(alloc, state, rules, how, at, list, agent, Mode::Control)?;
    let at = at.copy(alloc)?;
    Ok(Decision {
        at,
        how,
        read,
        write,
        append,
        control,
    })
}

/// The decision on an agent by the access list that governs a path.
pub(crate) fn decide_at<S: PodState>(
    alloc: Global,
    state: &S,
    agent: &Agent,
    path: &Path,
) -> Mem<Decision>
    ensures decision { IfOk result (IsDecision (S.pod state.now) agent.now) }
    ensures governs { IfOk result (λ decision. effective_of (S.pod state.now).rows path.now
        ≡ Some (governed decision.at decision.how)) }
{
    state.is_well_formed();
    let effective = state.effective(path);
    let (how, at) = (effective.how, effective.at);
    match at.acl(alloc)? {
        Some(list) => decide(alloc, state, effective.rules, how, at, &list, agent),
        None => unreachable!(),
    }
}

/// Whether two decisions have one way in which the list applies.
fn is_how(a: How, b: How) -> bool
    ensures { result ≡ how_eq a b }
{
    match (a, b) {
        (How::Own, How::Own) | (How::Inherited, How::Inherited) => true,
        _ => false,
    }
}

/// Whether a decision is by the access list of `at`, which applies in this way.
fn is_of(decision: &Decision, at: &Path, how: How) -> bool
    ensures { result ≡ is_of at.now how decision.now }
{
    is_how(decision.how, how) && decision.at == *at
}

/// The decision by the access list of `at` among those made, if there is one.
pub(crate) fn find_decision<'a>(
    decided: &'a [Decision],
    at: &Path,
    how: How,
) -> Option<&'a Decision>
    ensures { option_copied result ≡ find (is_of at.now how) decided.entry.now }
{
    decided.iter().find(|decision| is_of(decision, at, how))
}

/// Keeps the decisions by lists of what a path begins with. The paths of rows come in byte order,
/// so the others govern none of those that are left.
pub(crate) fn keep_above(decided: &mut Vec<Decision>, path: &Path)
    ensures { decided.new.items ≡ filter (is_above path.now) decided.old.items }
{
    decided.retain(|decision| is_above(decision, path));
}

/// Whether a decision is by the list of a path with which this one begins.
fn is_above(decision: &Decision, path: &Path) -> bool
    ensures { result ≡ is_above path.now decision.now }
{
    let above = decision.at.as_str().as_bytes();
    path.as_str().as_bytes().starts_with(above)
}

/// Appends the line of a mode at a path to an access report, where the decision grants it.
fn add_line(
    alloc: Global,
    lines: &mut Vec<Line>,
    path: &Path,
    mode: Mode,
    basis: &Option<Basis>,
) -> Mem<()>
    ensures { OnOk result (lines.new.items
        ≡ lines.old.items ++ line_at path.now mode basis.now) }
{
    match basis {
        Some(basis) => {
            let path = path.copy(alloc)?;
            let basis = basis.copy(alloc)?;
            lines.push(Line { path, mode, basis })?;
            Ok(())
        }
        None => Ok(()),
    }
}

/// Appends the lines of a path to an access report, by the decision of the list that governs it.
pub(crate) fn add_lines(
    alloc: Global,
    lines: &mut Vec<Line>,
    path: &Path,
    decision: &Decision,
) -> Mem<()>
    ensures { OnOk result (lines.new.items ≡ lines.old.items ++ lines_by path.now decision.now) }
{
    add_line(alloc, lines, path, Mode::Read, &decision.read)?;
    add_line(alloc, lines, path, Mode::Write, &decision.write)?;
    add_line(alloc, lines, path, Mode::Append, &decision.append)?;
    add_line(alloc, lines, path, Mode::Control, &decision.control)
}
