//! What the calls do to the bytes of a disk in memory.

ghost use Rattle.std.specs.Prelude.{◌≡◌, OnOk, OnErr};
ghost use Rattle.pod_disk.specs.Disk.{overwritten};
ghost use Rattle.pod_disk.specs.NotedCalls.{done_by};

use crate::call::Call;
use pod_base::Mem;

/// Has the effect of a write on the bytes of a disk in memory: they are put over those from that
/// offset on, or after them where there are fewer.
pub fn put(file: &mut Vec<u8>, at: usize, bytes: &[u8]) -> Mem<()>
    ensures done { OnOk result (file.new.items ≡ overwritten at bytes.now file.old.items) }
    ensures kept { OnErr result (file.new.items ≡ file.old.items) }
{
    let start = at.min(file.len());
    let over = bytes.len().min(file.len() - start);
    file.extend_from_slice(&bytes[over..])?;
    file[start..start + over].copy_from_slice(&bytes[..over]);
    Ok(())
}

/// Has the effect of a call on the bytes of a disk in memory.
pub fn perform(file: &mut Vec<u8>, call: &Call) -> Mem<()>
    ensures done { OnOk result (file.new.items ≡ done_by call.now file.old.items) }
    ensures kept { OnErr result (file.new.items ≡ file.old.items) }
{
    match call {
        Call::Write { at, bytes } => put(file, *at as usize, bytes.as_slice()),
        Call::Cut { len } => {
            file.truncate(*len as usize);
            Ok(())
        }
        Call::Length | Call::Read { .. } | Call::Sync => Ok(()),
    }
}
