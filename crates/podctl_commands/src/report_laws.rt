//! What the lines of a report are. The contract of this function is a law, and it does nothing.
ghost use Rattle.podctl_commands.specs.Lines.{ReportsGrants, ReportsCheck};

/// What `podctl report` prints of a well-formed pod has a line for each mode that the agent is
/// granted on a row that is no access list, and no other; and each line names a rule that grants
/// it.
pub fn reports_are_what_is_granted()
    ensures grants { ReportsGrants }
    ensures checks { ReportsCheck }
{}
