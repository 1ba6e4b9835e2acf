//! [`report`]: what an agent may do in a pod.
ghost use Rattle.std.specs.Prelude.{◌≡◌, ◌++◌, ◌↔◌, ℕ, List as ListOf, All, IfOk, OnOk};
ghost use Rattle.std.specs.Option.{option_to_list};
ghost use Rattle.pod_access.specs.PodGrants.{PodGrants};
ghost use Rattle.pod_base.specs.declared.agent.Mode.{Mode as ModeValue};
ghost use Rattle.access_report.specs.Checked.{Checks};
ghost use Rattle.access_report.specs.Decisions.{IsDecision};
ghost use Rattle.access_report.specs.Reports.{HasLine, IsReported, lines_at, lines_of, report_of};

use crate::decision::{Decision, add_lines, decide_at, find_decision, keep_above};
use crate::line::Line;
use pod_base::{Agent, List, Mem, push_some};
use pod_command::Row;
use pod_path::Path;
use pod_rows::PodState;
use std::alloc::Global;

/// Appends the lines of a path to an access report. It returns the decision, where none of those
/// before it is by the same list.
fn add_path<S: PodState>(
    alloc: Global,
    state: &S,
    agent: &Agent,
    path: &Path,
    decided: &[Decision],
    lines: &mut Vec<Line>,
) -> Mem<Option<Decision>>
    requires { All (IsDecision (S.pod state.now) agent.now) decided.now }
    ensures lines { OnOk result (lines.new.items
        ≡ lines.old.items ++ lines_at (S.pod state.now) agent.now path.now) }
    ensures new { IfOk result (λ new. All (IsDecision (S.pod state.now) agent.now)
        (option_to_list new)) }
{
    let effective = state.effective(path);
    match find_decision(decided, effective.at, effective.how) {
        Some(decision) => {
            add_lines(alloc, lines, path, decision)?;
            Ok(None)
        }
        None => {
            let decision = decide_at(alloc, state, agent, path)?;
            add_lines(alloc, lines, path, &decision)?;
            Ok(Some(decision))
        }
    }
}

/// Appends the lines of a row to an access report. An access list has none.
fn add_row<S: PodState>(
    alloc: Global,
    state: &S,
    agent: &Agent,
    row: &Row,
    decided: &mut Vec<Decision>,
    lines: &mut Vec<Line>,
) -> Mem<()>
    requires { All (IsDecision (S.pod state.now) agent.now) decided.old.items }
    ensures lines { OnOk result (lines.new.items
        ≡ lines.old.items ++ lines_of (S.pod state.now) agent.now row.now) }
    ensures decided { OnOk result (All (IsDecision (S.pod state.now) agent.now)
        decided.new.items) }
{
    if row.path.is_acl() {
        return Ok(());
    }
    keep_above(decided, &row.path);
    let new = add_path(alloc, state, agent, &row.path, decided.as_slice(), lines)?;
    push_some(decided, new)
}

/// The lines of an access report on all rows.
fn lines_of_rows<S: PodState>(alloc: Global, state: &S, agent: &Agent) -> Mem<List<Line>>
    ensures { IfOk result (λ lines. lines.items ≡ report_of (S.pod state.now) agent.now) }
{
    let rows = state.rows(alloc)?;
    let mut decided = Vec::new(alloc);
    let mut lines = Vec::new(alloc);
    for row in rows.as_slice() {
        add_row(alloc, state, agent, row, &mut decided, &mut lines)?;
    }
    Ok(List::from_vec(lines))
}

/// The access report on what an agent may do in a pod: a line for each mode that it is granted on
/// each row that is no access list, in byte order of the paths and in the order read, write,
/// append, control. The basis of a line is what an entry would record: the first rule that grants,
/// and in it the first subject that covers the agent.
///
/// It goes over the rows once, and decides once for all that an access list governs in one way.
pub fn report<S: PodState>(alloc: Global, state: &S, agent: &Agent) -> Mem<List<Line>>
    ensures lines { IfOk result (λ lines. lines.items ≡ report_of (S.pod state.now) agent.now) }

    // Which modes it has: those that the graphs of the access lists grant.
    ensures granted { IfOk result (λ lines. (path : ListOf ℕ) (mode : ModeValue)
        → HasLine lines.items path mode ↔ (IsReported (S.pod state.now) path
        × PodGrants (S.pod state.now) agent.now path mode)) }

    // Each line names a rule that grants it.
    ensures checked { IfOk result (λ lines. All (Checks (S.pod state.now) agent.now) lines.items) }
{
    state.is_well_formed();
    lines_of_rows(alloc, state, agent)
}
