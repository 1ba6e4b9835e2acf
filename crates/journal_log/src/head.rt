//! The head of a journal: its format and its epoch in sixteen bytes.

ghost use Rattle.std.specs.Prelude.{◌≡◌, ◌≢◌, ◌⊎◌, ◌≤◌, ◌<◌, ◌^◌, ◌++◌, ◌∷◌, [], List, ℕ, length};
ghost use Rattle.std.specs.Prelude.{IfSome, IfNone, IsTrue};
ghost use Rattle.std.specs.Int.{to_be_bytes, w64};
ghost use Rattle.journal_log.specs.Heads.{mark_of, encoded_head, IsKnownHead, NoHead};

/// What a right head has: the format, 1 or 2, and the epoch, at most [`EPOCH_LIMIT`].
#[derive(Clone, Copy, Debug, PartialEq, Eq)]
pub struct Head {
    pub format: u8,
    pub epoch: u64,
}

/// The greatest epoch. A journal of format 1 has a lesser one, so that a checkpoint can follow it.
pub const EPOCH_LIMIT: u64 = 1 << 63;

impl Head {
    /// Reads the right head of a journal that the bytes begin with.
    pub fn read(bytes: &[u8]) -> Option<Head>
        ensures found { IfSome result (λ head. (rest : List ℕ)
            × (bytes.now ≡ encoded_head head.format head.epoch ++ rest)) }
        ensures known { IfSome result (λ head. IsKnownHead head.format head.epoch) }
        ensures none { IfNone result (NoHead bytes.now) }
    {
        if bytes.len() < 16 {
            return None;
        }
        let format = format_of(&bytes[..8])?;
        let epoch = number(&bytes[8..16]);
        if !is_known(format, epoch) {
            return None;
        }
        Some(Head { format, epoch })
    }
}

/// The format that the first eight bytes of a journal's head name.
fn format_of(mark: &[u8]) -> Option<u8>
    ensures some { IfSome result (λ format. mark.now ≡ mark_of format) }
    ensures either { IfSome result (λ format. (format ≡ 1) ⊎ (format ≡ 2)) }
    ensures none { IfNone result ((mark.now ≢ mark_of 1) × (mark.now ≢ mark_of 2)) }
{
    if mark == b"PODJRNL1".as_slice() {
        Some(1)
    } else if mark == b"PODJRNL2".as_slice() {
        Some(2)
    } else {
        None
    }
}

/// Whether a right head of a journal has this format and this epoch.
fn is_known(format: u8, epoch: u64) -> bool
    requires { (format ≡ 1) ⊎ (format ≡ 2) }
    ensures yes { IsTrue result → IsKnownHead format epoch }
    ensures no { IsKnownHead format epoch → IsTrue result }
{
    if format == 1 {
        epoch < EPOCH_LIMIT
    } else {
        epoch <= EPOCH_LIMIT
    }
}

/// The number that eight bytes spell, as a journal's head has its epoch, the greatest first.
pub fn number(bytes: &[u8]) -> u64
    requires { length bytes.now ≡ 8 }
    ensures { to_be_bytes w64 result ≡ bytes.now }
{
    u64::from_be_bytes([
        bytes[0], bytes[1], bytes[2], bytes[3], bytes[4], bytes[5], bytes[6], bytes[7],
    ])
}

/// The bytes of a journal's head, of format 2 and this epoch.
pub fn head_bytes(epoch: u64) -> [u8; 16]
    ensures { result ≡ encoded_head 2 epoch }
{
    let e = epoch.to_be_bytes();
    [
        b'P', b'O', b'D', b'J', b'R', b'N', b'L', b'2', e[0], e[1], e[2], e[3], e[4], e[5], e[6],
        e[7],
    ]
}

/// The bytes of a journal's head, of format 2 and this epoch, and of this first gate.
pub fn head_and_gate(epoch: u64, gate: u8) -> [u8; 17]
    ensures { result ≡ encoded_head 2 epoch ++ gate ∷ [] }
{
    let e = epoch.to_be_bytes();
    [
        b'P', b'O', b'D', b'J', b'R', b'N', b'L', b'2', e[0], e[1], e[2], e[3], e[4], e[5], e[6],
        e[7], gate,
    ]
}
