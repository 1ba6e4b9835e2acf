//! [`decide`]: whether the needs of a request are granted, and why.

ghost use Rattle.std.specs.Prelude.{◌≡◌, ◌↔◌, ◌<◌, IfOk, IfSome, IsTrue, is_some, length};
ghost use Rattle.pod_access.specs.Bases.{basis_by, basis_of, bases_of, ground_by};
ghost use Rattle.pod_access.specs.PodGrants.{PodGrants, IsGrantedByGraphs};
ghost use Rattle.pod_rows.specs.Access.{governed, effective_of, list_path, rules_at};
ghost use Rattle.pod_access.specs.Decision.{subjects_at};
ghost use Rattle.std.specs.Option.{option_map};
ghost use Rattle.pod_base.specs.Listed.{Listed};
ghost use Rattle.pod_command.specs.declared.basis.Basis.{Basis as TheBasis};

use crate::{Ground, Need, basis_of, granted};
use acl_rules::{How, Rules};
use pod_base::{Agent, List, Mem, Mode};
use pod_command::Basis;
use pod_path::Path;
use pod_rows::PodState;
use std::alloc::Global;

/// The ground on which a need's mode is granted, in the access list that governs a path.
pub(crate) fn ground_in<S: PodState>(
    state: &S,
    rules: &Rules,
    how: How,
    at: &Path,
    agent: &Agent,
    mode: Mode,
) -> Option<Ground>
    requires { rules.now.list ≡ rules_at (S.pod state.now) at.now }
    ensures ground { result ≡ ground_by (S.pod state.now) agent.now mode (governed at.now how) }
    ensures rule { IfSome result (λ first. first.rule < length rules.now.list) }
    ensures subject { IfSome result (λ first. first.subject
        < length (subjects_at rules.now.list first.rule)) }
    ensures grants { IsGrantedByGraphs (S.pod state.now) rules.now.list how at.now agent.now mode
        (is_some result) }
{
    granted(rules, how, at, agent, state, mode)
}

/// The path of the access list that governs the path of a need, which is a row.
fn list_of<S: PodState>(alloc: Global, state: &S, path: &Path) -> Mem<Path>
    ensures { IfOk result (λ list. IfSome (effective_of (S.pod state.now).rows path.now)
        (λ governs. list ≡ list_path governs.at)) }
{
    state.is_well_formed();
    match state.effective(path).at.acl(alloc)? {
        Some(list) => Ok(list),
        None => unreachable!(),
    }
}

/// The basis on which a need is granted; none where it isn't.
fn find_basis<S: PodState>(
    alloc: Global,
    state: &S,
    agent: &Agent,
    need: &Need,
) -> Mem<Option<Basis>>
    ensures { IfOk result (λ basis. basis ≡ basis_of (S.pod state.now) agent.now need.now) }
{
    let effective = state.effective(&need.path);
    let rules = effective.rules;
    match ground_in(state, rules, effective.how, effective.at, agent, need.mode) {
        Some(ground) => {
            let list = list_of(alloc, state, &need.path)?;
            let basis = basis_of(alloc, rules, &ground, &list)?;
            Ok(Some(basis))
        }
        None => Ok(None),
    }
}

/// The bases on which the needs of a request are granted, one for each in their order; none where
/// one of them isn't granted. An entry records them.
pub fn decide<S: PodState>(
    alloc: Global,
    state: &S,
    agent: &Agent,
    needs: &List<Need>,
) -> Mem<Option<List<Basis>>>
    ensures { IfOk result (λ bases. option_map (λ (l : Listed TheBasis). l.items) bases
        ≡ bases_of (S.pod state.now) agent.now needs.now.items) }
{
    let mut bases = Vec::new(alloc);
    for need in needs.as_slice() {
        match find_basis(alloc, state, agent, need)? {
            Some(basis) => bases.push(basis)?,
            None => return Ok(None),
        }
    }
    Ok(Some(List::from_vec(bases)))
}

/// Whether a need is granted: the agent has its mode at its path. It takes no memory.
pub fn is_granted<S: PodState>(state: &S, agent: &Agent, need: &Need) -> bool
    ensures basis { result ≡ is_some (basis_of (S.pod state.now) agent.now need.now) }

    // It is what the graph of the access list grants.
    ensures grants { IsTrue result
        ↔ PodGrants (S.pod state.now) agent.now need.now.path need.now.mode }
{
    state.is_well_formed();
    let effective = state.effective(&need.path);
    ground_in(
        state,
        effective.rules,
        effective.how,
        effective.at,
        agent,
        need.mode,
    )
    .is_some()
}
