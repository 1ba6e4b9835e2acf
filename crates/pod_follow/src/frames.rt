//! Frames: a length and a body.
ghost use Rattle.std.specs.Prelude.{◌≡◌, ◌++◌, IfSome, None};
ghost use Rattle.std.specs.Option.{option_map};
ghost use Rattle.stored_forms.specs.Readers.{number_at, piece_at};
ghost use Rattle.stored_forms.specs.StoredForms.{number_bytes};
ghost use Rattle.pod_follow.specs.Frames.{HasNoFrame, frame_of};

/// The head of a frame, which is the length of its body: eight bytes, the greatest first.
#[tactic(auto, unfolding(stored_forms::specs::StoredForms::number_bytes))]
pub fn frame_head(len: u64) -> [u8; 8]
    ensures { result ≡ number_bytes len }
{
    len.to_be_bytes()
}

/// Splits a number, as frames have it, from the bytes after it; none where there are fewer than
/// eight bytes.
#[tactic(auto, unfolding(stored_forms::specs::Readers::number_at))]
pub fn split_number(bytes: &[u8]) -> Option<(u64, &[u8])>
    ensures { option_map (λ r. (r.0, r.1.now)) result ≡ number_at bytes.entry.now }
{
    if bytes.len() < 8 {
        return None;
    }
    let (n, rest) = bytes.split_at(8);
    let number = u64::from_be_bytes([n[0], n[1], n[2], n[3], n[4], n[5], n[6], n[7]]);
    Some((number, rest))
}

/// Splits so many bytes after their number, as frames have them, from those that follow; none where
/// they aren't all there.
#[tactic(auto, unfolding(stored_forms::specs::Readers::piece_at))]
pub fn split_piece(bytes: &[u8]) -> Option<(&[u8], &[u8])>
    ensures { option_map (λ r. (r.0.now, r.1.now)) result ≡ piece_at bytes.entry.now }
{
    let (len, rest) = split_number(bytes)?;
    if (rest.len() as u64) < len {
        return None;
    }
    Some(rest.split_at(len as usize))
}

/// Splits the frame with which bytes begin into its body and what follows the frame; none where
/// they don't begin with a whole frame. It takes no memory, whatever length the frame claims.
pub fn split_frame(bytes: &[u8]) -> Option<(&[u8], &[u8])>
    ensures some { IfSome result (λ r. bytes.entry.now ≡ frame_of r.0.now ++ r.1.now) }
    ensures none { result ≡ None → HasNoFrame bytes.entry.now }
{
    split_piece(bytes)
}
