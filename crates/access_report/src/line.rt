//! [`Line`]: one thing that an agent may do.

use pod_base::Mode;
use pod_command::Basis;
use pod_path::Path;

/// A mode that an agent has at a path, and why: the access list, the node of its rule, and whom
/// that rule covers.
#[derive(Debug, Drop)]
pub struct Line {
    pub path: Path,
    pub mode: Mode,
    pub basis: Basis,
}
