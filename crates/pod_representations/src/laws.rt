//! What follows from the definitions: the contracts of these functions are laws, and they do
//! nothing.

ghost use Rattle.pod_representations.specs.Laws.{JudgeAlike, JudgeUnread, ShowsAlike};
ghost use Rattle.pod_representations.specs.Laws.{ShowsRowAlone};

/// The part of a pod on which a representation depends: the row, and for a container its row and
/// its children.
pub fn shown_law()
    ensures row { ShowsRowAlone }
    ensures alike { ShowsAlike }
    ensures judged { JudgeAlike }

    // A verdict without a reader depends on whether there is a row alone.
    ensures unread { JudgeUnread }
{}
