//! [`allow_field`]: the value of `WAC-Allow`.

ghost use Rattle.std.specs.Prelude.{◌≡◌, IfOk};
ghost use Rattle.pod_access.specs.AllowField.{allow_field, control_by, modes_at, modes_by};
ghost use Rattle.pod_rows.specs.Access.{governed, rules_at};

use crate::granted_needs::ground_in;
use crate::{granted_modes, wac_allow};
use acl_rules::{How, Rules};
use pod_base::{Agent, Bytes, Mem, Mode};
use pod_path::Path;
use pod_rows::PodState;
use std::alloc::Global;

/// The modes in the field `WAC-Allow` of an access list: all where Control of its subject is
/// granted, else none.
fn list_modes<S: PodState>(
    state: &S,
    rules: &Rules,
    how: How,
    at: &Path,
    agent: &Agent,
) -> [bool; 4]
    requires { rules.now.list ≡ rules_at (S.pod state.now) at.now }
    ensures { result ≡ control_by (S.pod state.now) agent.now (governed at.now how) }
{
    let granted = ground_in(state, rules, how, at, agent, Mode::Control).is_some();
    [granted, granted, granted, granted]
}

/// The modes in the field `WAC-Allow` of a resource: those that the access list grants.
fn resource_modes<S: PodState>(
    state: &S,
    rules: &Rules,
    how: How,
    at: &Path,
    agent: &Agent,
) -> [bool; 4]
    requires { rules.now.list ≡ rules_at (S.pod state.now) at.now }
    ensures { result ≡ modes_by (S.pod state.now) agent.now (governed at.now how) }
{
    granted_modes(rules, how, at, agent, state)
}

/// The modes of an agent in the field `WAC-Allow` of a path, in the order read, write, append,
/// control.
fn modes_at<S: PodState>(state: &S, path: &Path, agent: &Agent) -> [bool; 4]
    ensures { result ≡ modes_at (S.pod state.now) agent.now path.now }
{
    let effective = state.effective(path);
    if path.is_acl() {
        list_modes(state, effective.rules, effective.how, effective.at, agent)
    } else {
        resource_modes(state, effective.rules, effective.how, effective.at, agent)
    }
}

/// The value of the field `WAC-Allow` for a path: what the agent and what everyone may do there.
/// For an access list it lists all four modes where Control of its subject is granted, else none;
/// for a description those of its subject.
pub fn allow_field<S: PodState>(alloc: Global, state: &S, path: &Path, agent: &Agent) -> Mem<Bytes>
    ensures { IfOk result (λ value. value ≡ allow_field (S.pod state.now) agent.now path.now) }
{
    let user = modes_at(state, path, agent);
    let public = modes_at(state, path, &Agent::Public);
    wac_allow(alloc, user, public)
}
