//! [`Groups`]: who is a member of which group.
ghost use Rattle.std.specs.Prelude.{◌≡◌, Bool, List, ℕ};

use pod_path::Path;

/// Who is a member of which group.
pub trait Groups {
    /// Is the agent a member of the group, by the document at a path?
    ghost is_member: { Self → List ℕ → List ℕ → List ℕ → Bool };

    /// Whether the document at `doc` says that the agent is a member of the group. Both are IRIs;
    /// the group's has its fragment. Whether anybody may read the document doesn't matter.
    fn member(&self, doc: &Path, group: &str, agent: &str) -> bool
        ensures { result ≡ is_member self.now doc.now group.now agent.now };
}
