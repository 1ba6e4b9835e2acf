//! The line that a run prints.
ghost use Rattle.std.specs.Prelude.{◌≡◌, ◌++◌, IfOk};
ghost use Rattle.std.specs.List.{flat_map};
ghost use Rattle.std.specs.String.{string_bytes};
ghost use Rattle.hex.specs.Hex.{encode_lower};
ghost use Rattle.sha2.specs.Sha256.{sha256};
ghost use Rattle.load_generator.specs.Summaries.{summary_line};

use itoa::Buffer;
use pod_base::Mem;
use sha2::{Digest, Sha256};
use std::alloc::Global;

/// The SHA-256 in the summary line of a load, in lower-case hexadecimal digits.
fn digest_text(alloc: Global, bytes: &[u8]) -> Mem<String>
    ensures { IfOk result (λ text. string_bytes text ≡ encode_lower (sha256 bytes.now)) }
{
    let mut hasher = Sha256::new();
    hasher.update(bytes);
    let digest = hasher.finalize();
    let text = hex::encode(alloc, digest)?;
    Ok(text)
}

/// Appends pieces of the summary line, one after another.
fn push_all(text: &mut String, pieces: &[&str]) -> Mem<()>
    ensures { IfOk result (λ _. string_bytes text.new
        ≡ string_bytes text.old ++ flat_map (λ p. p.now) pieces.now) }
{
    for piece in pieces {
        text.push_str(piece)?;
    }
    Ok(())
}

/// The summary line that a run of the load generator prints: of how many requests it was, how many
/// bytes they had, what was written, and how many rows the pod has at the end.
#[tactic(auto, unfolding(crate::specs::Summaries::summary_line))]
pub fn summary_line(
    alloc: Global,
    requests: u16,
    bytes_in: usize,
    written: &[u8],
    rows: usize,
) -> Mem<String>
    ensures { IfOk result (λ line. string_bytes line
        ≡ summary_line requests bytes_in written.now rows) }
{
    let mut first = Buffer::new();
    let mut second = Buffer::new();
    let mut third = Buffer::new();
    let mut fourth = Buffer::new();
    let digest = digest_text(alloc, written)?;
    let mut line = String::new(alloc);
    push_all(
        &mut line,
        &[
            "requests=",
            first.format(requests),
            " in=",
            second.format(bytes_in),
            " out=",
            third.format(written.len()),
            " rows=",
            fourth.format(rows),
            " sha256=",
            digest.as_str(),
            "\n",
        ],
    )?;
    Ok(line)
}
