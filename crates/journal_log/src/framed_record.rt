//! A record in the form in which it is written.

ghost use Rattle.std.specs.Prelude.{◌≡◌, ◌<◌, ◌^◌, length, IfOk};
ghost use Rattle.journal_log.specs.Frames.{framed_of};

use pod_base::Mem;
use std::alloc::Global;
use std::marker::Model;

/// How many bytes a framed record has beside its body: the length before it, and the gate after it.
const FRAME_LEN: usize = 9;

/// A record as it is written: its length as eight bytes, its body, and a closed gate. Contracts see
/// its body.
#[derive(Drop)]
pub struct Framed {
    bytes: Vec<u8>,
}

impl Model for Framed {
    ghost use Rattle.std.specs.Prelude.{◌≡◌, ◌<◌, ◌^◌, List, ℕ, length};
    ghost use Rattle.std.specs.Coded.{coded_list, coded_ℕ};
    ghost use Rattle.journal_log.specs.Frames.{framed_of};
    ghost use Rattle.journal_log.specs.CleanJournal.{body_of};

    ghost Value = { List ℕ };

    ghost coded = { coded_list coded_ℕ };

    ghost view = { λ f. body_of f.bytes.items };

    ghost invariant = { λ f. (f.bytes.items ≡ framed_of (body_of f.bytes.items))
        × (length f.bytes.items < 2 ^ 63) };
}

/// Frames a record of a journal with this body, which it copies.
pub fn frame(alloc: Global, body: &[u8]) -> Mem<Framed>
    ensures { IfOk result (λ framed. framed ≡ body.now) }
{
    let mut bytes = Vec::new(alloc);
    bytes.reserve(body.len() + FRAME_LEN)?;
    bytes.extend_from_slice(&(body.len() as u64).to_be_bytes())?;
    bytes.extend_from_slice(body)?;
    bytes.push(0)?;
    Ok(Framed { bytes })
}

impl Framed {
    /// How many bytes a framed record has as it is written: its length before it and the gate after
    /// it included.
    pub fn len(&self) -> u64
        ensures len { result ≡ length (framed_of self.now) }
        ensures short { length self.now < 2 ^ 63 }
    {
        self.bytes().len() as u64
    }

    /// The bytes of a framed record, as they are written.
    pub(crate) fn bytes(&self) -> &[u8]
        ensures framed { result.now ≡ framed_of self.now }
        ensures short { length self.now < 2 ^ 63 }
        ensures whole { length result.now < 2 ^ 63 }
    {
        self.bytes.as_slice()
    }
}
