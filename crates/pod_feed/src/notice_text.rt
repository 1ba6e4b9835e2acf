//! [`notice`]: the text that reports an effect.
ghost use Rattle.std.specs.Prelude.{◌≡◌, IfOk};
ghost use Rattle.std.specs.String.{string_bytes};
ghost use Rattle.pod_feed.specs.Notices.{kind_word, notice_of, notice_text};

use iri_ref::Iri;
use pod_base::{Mem, Text};
use pod_pages::{Effect, EffectKind};
use std::alloc::Global;

/// The word of a notice for an effect, which is its name in ActivityStreams.
fn kind_word(kind: EffectKind) -> &'static str
    ensures { result.now ≡ kind_word kind }
{
    match kind {
        EffectKind::Create => "Create",
        EffectKind::Update => "Update",
        EffectKind::Delete => "Delete",
    }
}

/// The text of a notice with these parts, in JSON. An IRI has no character that JSON escapes.
fn notice_string(alloc: Global, seq: u64, object: &str, kind: &str) -> Mem<String>
    ensures { IfOk result (λ text. string_bytes text ≡ notice_text seq object.now kind.now) }
{
    let text = format!(in alloc;
        "{{\"@context\":\"https://www.w3.org/ns/activitystreams\",\"id\":\"urn:pod-entry:{seq}\",\"object\":\"{object}\",\"type\":\"{kind}\"}}"
    )?;
    Ok(text)
}

/// The notice of an effect in the pod with that base: an activity of ActivityStreams 2.0, as an
/// object of JSON without blanks.
#[tactic(auto, unfolding(crate::specs::Notices::notice_of))]
pub fn notice(alloc: Global, base: &Iri, effect: &Effect) -> Mem<Text>
    ensures { IfOk result (λ text. text ≡ notice_of base.now effect.now) }
{
    let object = effect.path.uri(alloc, base)?;
    let text = notice_string(alloc, effect.seq, object.as_str(), kind_word(effect.kind))?;
    Text::from_string(alloc, text)
}
