//! [`PodState`]: what every state of a pod offers.
ghost use Rattle.std.specs.Prelude.{◌≡◌, ◌+◌, ◌≤◌, ◌^◌, List, ℕ, Bool, IfOk, Some, option_copied};
ghost use Rattle.std.specs.Prelude.{length};
ghost use Rattle.pod_rows.specs.Access.{effective_of, governed, rules_at};
ghost use Rattle.pod_rows.specs.Apply.{Applies, applied};
ghost use Rattle.pod_rows.specs.Members.{is_member_at};
ghost use Rattle.pod_rows.specs.Pod.{Pod, row_at, is_row};
ghost use Rattle.pod_rows.specs.Tree.{children_of, has_child};
ghost use Rattle.pod_rows.specs.WellFormed.{WellFormed};

use acl_rules::{Groups, How, Rules};
use iri_ref::Iri;
use pod_base::{List, Mem, Text};
use pod_command::{Entry, Row};
use pod_path::{Path, Taken};
use slug_naming::TakenNames;
use std::alloc::Global;

/// The access list that governs a path: the path whose list it is, how it applies, and its rules.
/// All are lent by the state.
#[derive(Clone, Copy)]
pub struct Effective<'a> {
    pub at: &'a Path,
    pub how: How,
    pub rules: &'a Rules,
}

/// A state of a pod: the pod, which is well-formed, and the number of its next change.
pub trait PodState: Taken + TakenNames + Groups {
    ghost pod: { Self → Pod };

    ghost next_number: { Self → ℕ };

    /// The number of the next change of the state, at most 2^63.
    fn next(&self) -> u64
        ensures next { result ≡ next_number self.now }
        ensures most { next_number self.now ≤ 2 ^ 63 };

    /// The base of the URIs of the state's pod.
    fn base(&self) -> &Iri
        ensures { result.now ≡ (pod self.now).base };

    /// The IRI of the owner of the state's pod.
    fn owner(&self) -> &Text
        ensures { result.now ≡ (pod self.now).owner };

    /// How many rows the state has.
    fn count(&self) -> usize
        ensures { result ≡ length (pod self.now).rows };

    /// The state's row at a path.
    fn find(&self, path: &Path) -> Option<&Row>
        ensures { option_copied result ≡ row_at (pod self.now).rows path.now };

    /// The paths of a container's children in the state, in byte order.
    fn children(&self, alloc: Global, path: &Path) -> Mem<pod_base::List<Path>>
        ensures { IfOk result (λ paths. paths.items ≡ children_of (pod self.now).rows path.now) };

    /// Whether a container has children in the state.
    fn has_children(&self, alloc: Global, path: &Path) -> Mem<bool>
        ensures { IfOk result (λ r. r ≡ has_child (pod self.now).rows path.now) };

    /// The access list of the state that governs a path, whether or not there is a row at the path.
    fn effective(&self, path: &Path) -> Effective<'_>
        ensures governs { effective_of (pod self.now).rows path.now
            ≡ Some (governed result.at.now result.how) }
        ensures rules { result.rules.now.list ≡ rules_at (pod self.now) result.at.now };

    /// Copies of all rows of the state, in byte order of their paths.
    fn rows(&self, alloc: Global) -> Mem<pod_base::List<Row>>
        ensures { IfOk result (λ rows. rows.items ≡ (pod self.now).rows) };

    /// The state after an entry that applies to this one.
    fn after(&self, alloc: Global, entry: &Entry) -> Mem<Self>
        requires { Applies (pod self.now) (next_number self.now) entry.now }
        ensures pod { IfOk result (λ after. pod after ≡ applied (pod self.now) entry.now) }
        ensures next { IfOk result (λ after. next_number after ≡ next_number self.now + 1) };

    /// The pod of each state is well-formed. It does nothing.
    fn is_well_formed(&self)
        ensures { WellFormed (pod self.now) };

    ghost rows_are: { (state : Self) (path : List ℕ)
        → Self.is_row state path ≡ is_row (pod state).rows path };

    ghost members_are: { (state : Self) (doc group agent : List ℕ)
        → Self.is_member state doc group agent ≡ is_member_at (pod state).rows doc group agent };
}
