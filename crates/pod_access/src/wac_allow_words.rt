//! [`wac_allow`]: the value of the field `WAC-Allow`.
ghost use Rattle.std.specs.Prelude.{◌≡◌, ◌∷◌, [], IfOk, true, false};
ghost use Rattle.pod_access.specs.Allow.{allow_text, granted_words};

use pod_base::{Bytes, BytesBuilder, Mem};
use std::alloc::Global;

/// The value of `WAC-Allow` in words, for what the user and the public are granted, each in the
/// order read, write, append, control: `user="read write",public="read"`.
pub fn wac_allow(alloc: Global, user: [bool; 4], public: [bool; 4]) -> Mem<Bytes>
    ensures { IfOk result (λ text. text ≡ allow_text user public) }
{
    let mut text = BytesBuilder::new(alloc);
    text.append(alloc, b"user=\"")?;
    text.append(alloc, words(user))?;
    text.append(alloc, b"\",public=\"")?;
    text.append(alloc, words(public))?;
    text.append(alloc, b"\"")?;
    text.freeze(alloc)
}

/// The words of `WAC-Allow` for the modes that are granted, with one space between.
fn words(granted: [bool; 4]) -> &'static [u8]
    ensures { result.now ≡ granted_words granted }
{
    match granted {
        [false, false, append, control] => words_alone(append, control),
        [true, false, append, control] => words_after_read(append, control),
        [false, true, append, control] => words_after_write(append, control),
        [true, true, append, control] => words_after_both(append, control),
    }
}

/// The words of `WAC-Allow` where neither read nor write is granted.
fn words_alone(append: bool, control: bool) -> &'static [u8]
    ensures { result.now ≡ granted_words (false ∷ false ∷ append ∷ control ∷ []) }
{
    match (append, control) {
        (false, false) => b"",
        (true, false) => b"append",
        (false, true) => b"control",
        (true, true) => b"append control",
    }
}

/// The words of `WAC-Allow` where read is granted and write isn't.
fn words_after_read(append: bool, control: bool) -> &'static [u8]
    ensures { result.now ≡ granted_words (true ∷ false ∷ append ∷ control ∷ []) }
{
    match (append, control) {
        (false, false) => b"read",
        (true, false) => b"read append",
        (false, true) => b"read control",
        (true, true) => b"read append control",
    }
}

/// The words of `WAC-Allow` where write is granted and read isn't.
fn words_after_write(append: bool, control: bool) -> &'static [u8]
    ensures { result.now ≡ granted_words (false ∷ true ∷ append ∷ control ∷ []) }
{
    match (append, control) {
        (false, false) => b"write",
        (true, false) => b"write append",
        (false, true) => b"write control",
        (true, true) => b"write append control",
    }
}

/// The words of `WAC-Allow` where read and write are granted.
fn words_after_both(append: bool, control: bool) -> &'static [u8]
    ensures { result.now ≡ granted_words (true ∷ true ∷ append ∷ control ∷ []) }
{
    match (append, control) {
        (false, false) => b"read write",
        (true, false) => b"read write append",
        (false, true) => b"read write control",
        (true, true) => b"read write append control",
    }
}
