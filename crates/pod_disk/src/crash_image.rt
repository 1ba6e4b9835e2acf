//! What a crash leaves of a disk in memory, made by going through its noted calls.

ghost use Rattle.std.specs.Prelude.{◌≡◌, ◌≤◌, ℕ, List, length, take, drop, OnOk, IfOk};
ghost use Rattle.pod_disk.specs.NotedCalls.{synced, content_after, content_at, IsCrashImage};
ghost use Rattle.pod_disk.specs.Tears.{image_torn, first_of, used_up, tears_left, tears_after};
ghost use Rattle.pod_disk.specs.Tears.{left_torn, crash_of};

use crate::call::{Call, NotedCall};
use crate::call_effects::perform;
use crate::torn_call::{Tear, tear_call};
use pod_base::Mem;
use std::alloc::Global;

/// Whether a noted call is a sync that succeeded, after which a crash image has all of the content.
fn is_synced(noted: &NotedCall) -> bool
    ensures { result ≡ synced noted.now }
{
    noted.done && matches!(noted.call, Call::Sync)
}

/// Does to the content what a noted call did, where it succeeded, beside the crash image.
fn follow(content: &mut Vec<u8>, noted: &NotedCall) -> Mem<()>
    ensures { OnOk result (content.new.items ≡ content_after content.old.items noted.now) }
{
    if noted.done {
        perform(content, &noted.call)?;
    }
    Ok(())
}

/// Makes of a crash image what one more noted call leaves of it.
fn tear_noted(
    alloc: Global,
    content: &[u8],
    image: &mut Vec<u8>,
    noted: &NotedCall,
    tear: Option<Tear>,
) -> Mem<()>
    ensures { OnOk result
        (image.new.items ≡ image_torn content.now image.old.items noted.now tear) }
{
    if is_synced(noted) {
        image.clear();
        image.extend_from_slice(content)?;
        Ok(())
    } else {
        tear_call(alloc, image, &noted.call, tear)
    }
}

/// Takes the content and the crash image past one more noted call.
fn pass(
    alloc: Global,
    content: &mut Vec<u8>,
    image: &mut Vec<u8>,
    noted: &NotedCall,
    tear: Option<Tear>,
) -> Mem<()>
    ensures content { OnOk result (content.new.items ≡ content_after content.old.items noted.now) }
    ensures image { OnOk result
        (image.new.items ≡ image_torn content.old.items image.old.items noted.now tear) }
{
    tear_noted(alloc, content, image, noted, tear)?;
    follow(content, noted)
}

/// Replays noted calls on the content from which a crash image then begins.
fn replay(content: &mut Vec<u8>, calls: &[NotedCall]) -> Mem<()>
    ensures { OnOk result (content.new.items ≡ content_at content.old.items calls.now) }
{
    for noted in calls {
        follow(content, noted)?;
    }
    Ok(())
}

/// The tear of the next write or cut in a crash image, if there is one.
fn next_tear(tears: &[Tear]) -> Option<Tear>
    ensures { result ≡ first_of tears.now }
{
    match tears {
        [tear, ..] => Some(*tear),
        [] => None,
    }
}

/// The tears of a crash image after the first one was used up. The last one goes on.
fn use_up(tears: &[Tear]) -> &[Tear]
    ensures { result.now ≡ used_up tears.now }
{
    if tears.len() < 2 {
        return tears;
    }
    &tears[1..]
}

/// The tears that a crash image has left after a call that is no sync that succeeded.
fn tears_left<'a>(tears: &'a [Tear], call: &Call) -> &'a [Tear]
    ensures { result.now ≡ tears_left call.now tears.now }
{
    match call {
        Call::Write { .. } | Call::Cut { .. } => use_up(tears),
        Call::Length | Call::Read { .. } | Call::Sync => tears,
    }
}

/// The tears that a crash image has left after a noted call. After a sync that succeeded they begin
/// anew.
fn later_tears<'a>(all: &'a [Tear], tears: &'a [Tear], noted: &NotedCall) -> &'a [Tear]
    ensures { result.now ≡ tears_after all.now noted.now tears.now }
{
    if is_synced(noted) {
        return all;
    }
    tears_left(tears, &noted.call)
}

/// The crash image after the calls since the last sync, where the disk held the content before
/// them, all of it durable.
fn left_after(
    alloc: Global,
    content: &mut Vec<u8>,
    calls: &[NotedCall],
    all: &[Tear],
) -> Mem<Vec<u8>>
    ensures { IfOk result (λ image. image.items
        ≡ left_torn all.now content.old.items content.old.items calls.now all.now) }
{
    let mut image = Vec::from_slice(alloc, content)?;
    let mut tears = all;
    for noted in calls {
        pass(alloc, content, &mut image, noted, next_tear(tears))?;
        tears = later_tears(all, tears, noted);
    }
    Ok(image)
}

/// How many of the noted calls come up to the last sync that succeeded; of these a crash image has
/// just the content.
fn synced_calls(calls: &[NotedCall]) -> usize
    ensures within { result ≤ length calls.now }
    ensures skipped { (first : List ℕ) (all : List Tear) → crash_of first calls.now all
        ≡ left_torn all (content_at first (take result calls.now))
        (content_at first (take result calls.now)) (drop result calls.now) all }
{
    let mut count = calls.len();
    while count > 0 {
        if is_synced(&calls[count - 1]) {
            return count;
        }
        count -= 1;
    }
    0
}

/// The crash image after the noted calls on a disk in memory that held these bytes at first, all of
/// them durable. The tears are those of the writes and cuts since the last sync that succeeded; the
/// last tear goes on, and with none all are whole.
pub fn crashed(alloc: Global, first: &[u8], calls: &[NotedCall], tears: &[Tear]) -> Mem<Vec<u8>>
    ensures image { IfOk result (λ image. IsCrashImage first.now calls.now image.items) }
    ensures tears { IfOk result
        (λ image. image.items ≡ crash_of first.now calls.now tears.now) }
{
    let (synced, unsynced) = calls.split_at(synced_calls(calls));
    let mut content = Vec::from_slice(alloc, first)?;
    replay(&mut content, synced)?;
    left_after(alloc, &mut content, unsynced, tears)
}
