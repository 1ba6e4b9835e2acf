//! The IRIs that references and names mean.

ghost use Rattle.std.specs.Prelude.{◌≡◌, ◌≢◌, ◌++◌, not, Ok, Err, IfOk, IfErr, IsTrue};
ghost use Rattle.iri_ref.specs.Characters.{AllAllowed};
ghost use Rattle.std.specs.List.{filter};
ghost use Rattle.std.specs.Str.{IsUtf8};
ghost use Rattle.std.specs.String.{string_bytes};
ghost use Rattle.std.specs.FinMap as map;
ghost use Rattle.turtle_lex.specs.Tokens.{IsTokenOf};
ghost use Rattle.turtle_terms.specs.Escapes.{decoded};
ghost use Rattle.turtle_terms.specs.Values.{is_backslash, prefix_value, local_value};
ghost use Rattle.turtle_terms.specs.Meaning.{IsFault, IsReferenceMeaning, IsNameMeaning};
ghost use Rattle.turtle_terms.specs.Meaning.{IsIriOf, is_iri_kind};
ghost use Rattle.turtle_terms.specs.Faults.{fault_at};
ghost use Rattle.turtle_terms.specs.declared.fault.TurtleFault.TheVariants.{NoMemory};

use crate::escapes::{decode, has_backslash};
use crate::fault::{TurtleFault, TurtleKind};
use crate::recent_iris::RecentIris;
use crate::scope::Scope;
use crate::token_text::{iri_content, split_name, text_of};
use crate::vocabulary::{Vocabulary, Word, word_iri};
use iri_ref::{Iri, IriFault, iri_of_reference};
use pod_base::Mem;
use rdf_graph::copy_iri;
use std::alloc::Global;
use turtle_lex::{Token, TokenKind};

/// The fault of an IRI as that of the token at a position.
fn fault_at(at: usize, fault: IriFault) -> TurtleFault
    ensures { result ≡ fault_at at fault }
{
    match fault {
        IriFault::BadReference => TurtleFault::Bad {
            at,
            kind: TurtleKind::BadIri,
        },
        IriFault::NoMemory => TurtleFault::NoMemory,
    }
}

/// The IRI that a reference stands for, in memory of its own.
fn new_iri_at(alloc: Global, base: &Iri, at: usize, reference: &str) -> Result<Iri, TurtleFault>
    ensures iri { IfOk result (λ iri. IsReferenceMeaning base.now reference.now (Ok iri)) }
    ensures fault { IfErr result (λ fault. fault ≢ NoMemory → IsFault at
        (λ kind. IsReferenceMeaning base.now reference.now (Err kind)) fault) }
{
    match iri_of_reference(alloc, base, reference) {
        Ok(iri) => Ok(iri),
        Err(fault) => Err(fault_at(at, fault)),
    }
}

/// The IRI that a reference stands for.
fn iri_at(
    alloc: Global,
    recent: &mut RecentIris,
    base: &Iri,
    at: usize,
    reference: &str,
) -> Result<Iri, TurtleFault>
    ensures iri { IfOk result (λ iri. IsReferenceMeaning base.now reference.now (Ok iri)) }
    ensures fault { IfErr result (λ fault. fault ≢ NoMemory → IsFault at
        (λ kind. IsReferenceMeaning base.now reference.now (Err kind)) fault) }
{
    match recent.written(alloc, reference) {
        Some(iri) => Ok(iri),
        None => match new_iri_at(alloc, base, at, reference) {
            Ok(iri) => {
                recent.note(alloc, reference, &iri);
                Ok(iri)
            }
            Err(fault) => Err(fault),
        },
    }
}

/// The IRI that what stands between the brackets of an IRIREF stands for.
fn content_iri(
    alloc: Global,
    recent: &mut RecentIris,
    base: &Iri,
    at: usize,
    content: &str,
) -> Result<Iri, TurtleFault>
    requires { IsUtf8 (decoded content.now) }
    ensures iri { IfOk result (λ iri. IsReferenceMeaning base.now (decoded content.now) (Ok iri)) }
    ensures fault { IfErr result (λ fault. fault ≢ NoMemory → IsFault at
        (λ kind. IsReferenceMeaning base.now (decoded content.now) (Err kind)) fault) }
{
    if !has_backslash(content) {
        return iri_at(alloc, recent, base, at, content);
    }
    let reference = decode(alloc, content)?;
    iri_at(alloc, recent, base, at, reference.as_str())
}

/// A local name of an IRI without its backslashes.
fn without_backslashes(alloc: Global, text: &str) -> Mem<String>
    ensures { IfOk result (λ rest. string_bytes rest
        ≡ filter (λ b. not (is_backslash b)) text.now) }
{
    let mut rest = Vec::with_capacity(alloc, text.len())?;
    for byte in text.as_bytes() {
        if *byte != b'\\' {
            rest.push(*byte)?;
        }
    }
    match String::from_utf8(rest) {
        Ok(rest) => Ok(rest),
        Err(_) => unreachable!(),
    }
}

/// An IRI with a text appended that has no forbidden character, in memory of its own.
fn append_new(alloc: Global, prefix: &Iri, local: &str) -> Mem<Iri>
    requires { AllAllowed local.now }
    ensures { IfOk result (λ iri. iri ≡ prefix.now ++ local.now) }
{
    if local.is_empty() {
        copy_iri(alloc, prefix)
    } else {
        prefix.extended(alloc, local)
    }
}

/// An IRI with a text appended that has no forbidden character.
fn append(alloc: Global, recent: &mut RecentIris, prefix: &Iri, local: &str) -> Mem<Iri>
    requires { AllAllowed local.now }
    ensures { IfOk result (λ iri. iri ≡ prefix.now ++ local.now) }
{
    if let Some(iri) = recent.joined(alloc, prefix, local) {
        return Ok(iri);
    }
    let iri = append_new(alloc, prefix, local)?;
    recent.note(alloc, local, &iri);
    Ok(iri)
}

/// An IRI with a local name appended, whose escapes lose their backslashes. It has no forbidden
/// character then.
fn append_local(alloc: Global, recent: &mut RecentIris, prefix: &Iri, local: &str) -> Mem<Iri>
    requires { AllAllowed (filter (λ b. not (is_backslash b)) local.now) }
    ensures { IfOk result (λ iri. iri
        ≡ prefix.now ++ filter (λ b. not (is_backslash b)) local.now) }
{
    if !has_backslash(local) {
        return append(alloc, recent, prefix, local);
    }
    let local = without_backslashes(alloc, local)?;
    append(alloc, recent, prefix, local.as_str())
}

/// The IRI of a name.
fn name_iri(
    alloc: Global,
    recent: &mut RecentIris,
    scope: &Scope,
    at: usize,
    text: &str,
) -> Result<Iri, TurtleFault>
    requires { AllAllowed (local_value text.now) }
    ensures iri { IfOk result (λ iri. IsNameMeaning
        (map.get scope.now (prefix_value text.now)) (local_value text.now) (Ok iri)) }
    ensures fault { IfErr result (λ fault. fault ≢ NoMemory → IsFault at
        (λ kind. IsNameMeaning (map.get scope.now (prefix_value text.now))
        (local_value text.now) (Err kind)) fault) }
{
    let (prefix, local) = split_name(text);
    match scope.iri(prefix) {
        Some(iri) => Ok(append_local(alloc, recent, iri, local)?),
        None => Err(TurtleFault::Bad {
            at,
            kind: TurtleKind::Prefix,
        }),
    }
}

/// Whether tokens of the kind mean an IRI: IRIREF, the names, and `a`.
pub fn is_iri_kind(kind: TokenKind) -> bool
    ensures { result ≡ is_iri_kind kind }
{
    matches!(
        kind,
        TokenKind::IriRef | TokenKind::PnameNs | TokenKind::PnameLn | TokenKind::A
    )
}

/// The IRI that a token means. The IRIs of words are those of a vocabulary, where one is given.
#[tactic(auto, using(crate::proofs::LocalNames::namespace_allowed, crate::proofs::LocalNames::name_allowed))]
pub(crate) fn iri_of(
    alloc: Global,
    shared: Option<&Vocabulary>,
    recent: &mut RecentIris,
    base: &Iri,
    scope: &Scope,
    bytes: &[u8],
    token: &Token,
) -> Result<Iri, TurtleFault>
    requires of_bytes { IsTokenOf bytes.now token.now }
    requires kind { IsTrue (is_iri_kind token.now.kind) }
    ensures iri { IfOk result (λ iri. IsIriOf base.now scope.now bytes.now token.now (Ok iri)) }
    ensures fault { IfErr result (λ fault. fault ≢ NoMemory
        → IsIriOf base.now scope.now bytes.now token.now (Err fault)) }
{
    let text = text_of(bytes, token);
    match token.kind {
        TokenKind::IriRef => content_iri(alloc, recent, base, token.from, iri_content(text)),
        TokenKind::PnameNs => name_iri(alloc, recent, scope, token.from, text),
        TokenKind::PnameLn => name_iri(alloc, recent, scope, token.from, text),
        TokenKind::A => Ok(word_iri(alloc, shared, Word::RdfType)?),
        _ => unreachable!(),
    }
}
