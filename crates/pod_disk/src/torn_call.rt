//! What a crash leaves of one call.

ghost use Rattle.std.specs.Prelude.{◌≡◌, OnOk};
ghost use Rattle.pod_disk.specs.Tears.{lengthened, written_at, torn_write, torn_cut, torn_by};

use crate::call::Call;
use crate::call_effects::put;
use pod_base::Mem;
use std::alloc::Global;

/// What a crash leaves of a write or of a cut that no later sync has put on the disk.
#[derive(Clone, Copy, Debug)]
pub enum Tear {
    /// Of a write its first so many bytes, and nothing of the others; of a cut, the last so many
    /// bytes cut off and no more. With 0 nothing of the call is left, and with `usize::MAX` all.
    Prefix(usize),
    /// This byte at each place of a write's range, and at each place past the length of a cut,
    /// which takes no byte away.
    Filled(u8),
}

/// Appends this byte up to that length for a torn call, where the file is shorter.
fn lengthen(file: &mut Vec<u8>, len: usize, byte: u8) -> Mem<()>
    ensures { OnOk result (file.new.items ≡ lengthened len byte file.old.items) }
{
    if len <= file.len() {
        return Ok(());
    }
    file.resize(len, byte)?;
    Ok(())
}

/// Leaves these bytes of a torn write. What lies between the file's end and the write becomes 0.
fn leave(file: &mut Vec<u8>, at: usize, bytes: &[u8]) -> Mem<()>
    ensures { OnOk result (file.new.items ≡ written_at at bytes.now file.old.items) }
{
    if bytes.is_empty() {
        return Ok(());
    }
    lengthen(file, at, 0)?;
    put(file, at, bytes)
}

/// Tears a write: makes of a crash image what a crash leaves after it.
fn tear_write(
    alloc: Global,
    image: &mut Vec<u8>,
    at: usize,
    bytes: &[u8],
    tear: Option<Tear>,
) -> Mem<()>
    ensures { OnOk result (image.new.items ≡ torn_write at bytes.now tear image.old.items) }
{
    match tear {
        None => leave(image, at, bytes),
        Some(Tear::Prefix(count)) => leave(image, at, &bytes[..count.min(bytes.len())]),
        Some(Tear::Filled(byte)) => {
            let filled = vec![in alloc; byte; bytes.len()]?;
            leave(image, at, &filled)
        }
    }
}

/// Tears a cut by this byte at each place from `len` on.
fn fill(image: &mut Vec<u8>, len: usize, byte: u8) -> Mem<()>
    ensures { OnOk result (image.new.items ≡ torn_cut len (Some (Tear.Filled byte)) image.old.items) }
{
    let whole = image.len();
    image.truncate(len);
    lengthen(image, whole, byte)
}

/// Tears a cut: makes of a crash image what a crash leaves after it.
fn tear_cut(image: &mut Vec<u8>, len: usize, tear: Option<Tear>) -> Mem<()>
    ensures { OnOk result (image.new.items ≡ torn_cut len tear image.old.items) }
{
    match tear {
        None => {
            image.truncate(len);
            Ok(())
        }
        Some(Tear::Prefix(count)) => {
            let left = image.len().saturating_sub(count);
            image.truncate(left.max(len));
            Ok(())
        }
        Some(Tear::Filled(byte)) => fill(image, len, byte),
    }
}

/// Tears a call: makes of a crash image what a crash leaves after it. Without a tear that is all of
/// it.
pub fn tear_call(alloc: Global, image: &mut Vec<u8>, call: &Call, tear: Option<Tear>) -> Mem<()>
    ensures { OnOk result (image.new.items ≡ torn_by call.now tear image.old.items) }
{
    match call {
        Call::Write { at, bytes } => {
            tear_write(alloc, image, *at as usize, bytes.as_slice(), tear)
        }
        Call::Cut { len } => tear_cut(image, *len as usize, tear),
        Call::Length | Call::Read { .. } | Call::Sync => Ok(()),
    }
}
