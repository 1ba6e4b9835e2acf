//! What a follower makes of one frame.
ghost use Rattle.std.specs.Prelude.{◌≡◌, ℕ, List, None, IfOk, IfSome, IsTrue, false};
ghost use Rattle.pod_command.specs.declared.snapshot.Snapshot.{Snapshot as SnapshotValue};
ghost use Rattle.pod_records.specs.Readings.{IsSnapshotOf};
ghost use Rattle.pod_rows.specs.State.{NumberedPod};
ghost use Rattle.podctl_commands.specs.Following.{Follows, IsRefused};
ghost use Rattle.podctl_commands.specs.Steps.{IsStarted, ReadsOn};

use crate::follower_reads::answer_read;
use pod_base::{Bytes, Mem, NoMemory};
use pod_follow::{Follower, StartFault, Took};
use std::alloc::Global;

/// Starts the follower by one frame whose body is a snapshot, or starts it anew.
fn start(alloc: Global, follower: &mut Option<Follower>, body: &[u8]) -> Mem<bool>
    ensures yes { IfOk result (λ started. IsTrue started → IsStarted body.now follower.new) }
    ensures no { IfOk result (λ started. started ≡ false
        → (snapshot : SnapshotValue) → IsSnapshotOf body.now snapshot → ⊥) }
    ensures kept { IfOk result (λ started. started ≡ false → follower.new ≡ follower.old) }
{
    match Follower::start(alloc, body) {
        Ok(started) => {
            *follower = Some(started);
            Ok(true)
        }
        Err(StartFault::NotSnapshot) => Ok(false),
        Err(StartFault::NoMemory) => Err(NoMemory),
    }
}

/// Takes the entry or answers the read that the body of one frame is: the bytes to write, or none
/// where the frame is refused.
fn take_or_answer(alloc: Global, follower: &mut Follower, body: &[u8]) -> Mem<Option<Bytes>>
    ensures some { IfOk result (λ found. IfSome found
        (λ text. ReadsOn follower.old body.now text follower.new)) }
    ensures none { IfOk result (λ found. found ≡ None → (text : List ℕ) (after : NumberedPod)
        → ReadsOn follower.old body.now text after → ⊥) }
{
    match follower.take(alloc, body)? {
        Took::Applied => Ok(Some(Bytes::new())),
        Took::Old { seq: _, next: _ } => Ok(Some(Bytes::new())),
        Took::Ahead { seq: _, next: _ } => Ok(Some(Bytes::new())),
        Took::Unfit { seq: _ } => Ok(None),
        Took::NotEntry => answer_read(alloc, follower, body),
    }
}

/// Takes the body of one frame: the bytes to write, or none where the frame is refused.
pub(crate) fn take_body(
    alloc: Global,
    follower: &mut Option<Follower>,
    body: &[u8],
) -> Mem<Option<Bytes>>
    ensures some { IfOk result (λ found. IfSome found
        (λ text. Follows follower.old body.now text follower.new)) }
    ensures none { IfOk result (λ found. found ≡ None → IsRefused follower.old body.now) }
{
    if start(alloc, follower, body)? {
        return Ok(Some(Bytes::new()));
    }
    match follower.take() {
        Some(taken) => {
            let mut taken = taken;
            let found = take_or_answer(alloc, &mut taken, body);
            *follower = Some(taken);
            found
        }
        None => Ok(None),
    }
}
