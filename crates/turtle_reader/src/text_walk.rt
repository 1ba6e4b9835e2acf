//! [`walk`]: reads a whole text.

ghost use Rattle.std.specs.Prelude.{◌≡◌, ◌≢◌, ◌-◌, ◌<◌, true, false, [], ◌∷◌, length};
ghost use Rattle.std.specs.Prelude.{IfOk, IfErr, OnOk};
ghost use Rattle.turtle_terms.specs.declared.fault.TurtleFault.TheVariants.{NoMemory as NoMemoryFault};
ghost use Rattle.turtle_reader.specs.Faults.{document_fault};
ghost use Rattle.turtle_reader.specs.FirstFaults.{HasNoFault, IsFirstFault};
ghost use Rattle.turtle_reader.specs.Languages.{KeepsText, StaysKept};
ghost use Rattle.turtle_reader.specs.Walks.{HasKept, KeepsAll, SizesUp};

use crate::language::Language;
use crate::lexeme::Lexeme;
use crate::lexing::{is_string, next_lexeme};
use crate::progress::Progress;
use crate::reader::{Reader, fault_at};
use iri_ref::Iri;
use pod_base::Mem;
use std::alloc::Global;
use turtle_grammar::Production;
use turtle_lex::{LexFault, Lexer};
use turtle_terms::{TurtleFault, TurtleKind};

/// The fault of a lexer as that of the walk over a text.
fn document_fault(fault: LexFault) -> TurtleFault
    ensures { result ≡ document_fault fault }
{
    match fault {
        LexFault::NotText { at } => fault_at(at, TurtleKind::NotText),
        LexFault::BadToken { at } => fault_at(at, TurtleKind::BadToken),
        LexFault::NoMemory => TurtleFault::NoMemory,
    }
}

/// Keeps the triple that a production of the walk is.
fn keep_one<L: Language>(
    alloc: Global,
    bytes: &[u8],
    reader: &Reader,
    kept: &mut L,
    production: &Production,
) -> Mem<()>
    requires { L.is_sound bytes.now kept.old }
    ensures sound { OnOk result (L.is_sound bytes.now kept.new) }
    ensures kept { OnOk result (KeepsAll L.is_kept bytes.now reader.now (production.now ∷ [])
        kept.old kept.new) }
{
    match production {
        Production::Triple(symbolic) => {
            let triple = reader.triple(alloc, symbolic)?;
            kept.keep(alloc, bytes, triple)
        }
        Production::Prefix { .. } => Ok(()),
        Production::Base { .. } => Ok(()),
    }
}

/// Keeps the triples that productions of the walk are.
fn keep_all<L: Language>(
    alloc: Global,
    bytes: &[u8],
    reader: &Reader,
    kept: &mut L,
    productions: &[Production],
) -> Mem<()>
    requires { L.is_sound bytes.now kept.old }
    ensures sound { OnOk result (L.is_sound bytes.now kept.new) }
    ensures kept { OnOk result (KeepsAll L.is_kept bytes.now reader.now productions.now
        kept.old kept.new) }
{
    for production in productions {
        keep_one(alloc, bytes, reader, kept, production)?;
    }
    Ok(())
}

/// Where in a walk the triples are too large that are complete with the last lexeme, where this
/// comes next.
fn too_large<L: Language>(
    alloc: Global,
    bytes: &[u8],
    progress: &Progress,
    kept: &mut L,
    next: &Result<Option<Lexeme>, LexFault>,
) -> Mem<Option<usize>>
    requires { L.is_sound bytes.now kept.old }
    ensures sound { OnOk result (L.is_sound bytes.now kept.new) }
    ensures kept { OnOk result (StaysKept L.is_kept kept.old kept.new) }
    ensures sizes { IfOk result (SizesUp L.symbol L.is_kept L.is_large bytes.now progress.now
        next.now kept.old) }
{
    match progress.last {
        None => Ok(None),
        Some(at) => {
            let waiting = progress.completed(alloc, next)?;
            if kept.judge(alloc, bytes, waiting)? {
                Ok(Some(at))
            } else {
                Ok(None)
            }
        }
    }
}

/// Reads the next lexeme of a walk over a text under a base, unless the text ends.
fn read_next<'a, L: Language>(
    alloc: Global,
    _base: &Iri,
    bytes: &'a [u8],
    lexer: &mut Lexer<'a>,
    progress: &mut Progress,
    kept: &mut L,
) -> Result<bool, TurtleFault>
    requires bytes { lexer.old.bytes ≡ bytes.now }
    requires sound { L.is_sound bytes.now kept.old }
    requires so_far { HasKept L.is_kept (L.is_large _base.now bytes.now) L.symbol _base.now bytes.now
        lexer.old.from progress.old kept.old }
    ensures bytes { lexer.new.bytes ≡ bytes.now }
    ensures sound { OnOk result (L.is_sound bytes.now kept.new) }
    ensures more { IfOk result (λ more. more ≡ true → HasKept L.is_kept
        (L.is_large _base.now bytes.now) L.symbol _base.now bytes.now lexer.new.from progress.new
        kept.new) }
    ensures nearer { IfOk result (λ more. more ≡ true
        → length bytes.now - lexer.new.from < length bytes.now - lexer.old.from) }
    ensures text { IfOk result (λ more. more ≡ false
        → KeepsText L.is_kept L.symbol _base.now bytes.now kept.new) }
    ensures no_fault { IfOk result (λ more. more ≡ false
        → HasNoFault (L.is_large _base.now bytes.now) L.symbol _base.now bytes.now) }
    ensures fault { IfErr result (λ fault. fault ≢ NoMemoryFault → IsFirstFault
        (L.is_large _base.now bytes.now) L.symbol _base.now bytes.now fault) }
{
    let next = next_lexeme(lexer, bytes, L::start(), progress.after_string);
    match too_large(alloc, bytes, progress, kept, &next)? {
        Some(at) => Err(TurtleFault::TooLarge { at }),
        None => match next {
            Ok(Some(lexeme)) => match progress.reader.step(alloc, bytes, lexeme) {
                Ok(()) => {
                    let reader = &progress.reader;
                    keep_all(alloc, bytes, reader, kept, reader.produced())?;
                    progress.after_string = is_string(lexeme.symbol);
                    progress.last = Some(lexeme.from);
                    Ok(true)
                }
                Err(fault) => Err(fault),
            },
            Ok(None) if progress.reader.is_complete() => Ok(false),
            Ok(None) => Err(fault_at(bytes.len(), TurtleKind::Grammar)),
            Err(fault) => Err(document_fault(fault)),
        },
    }
}

/// Walks over a text under a base, and hands its triples out, in order of production. After an
/// error it isn't known which of them were kept.
///
/// # Errors
///
/// The first fault of the bytes, by the position and then in the order `NotText`, `BadToken`,
/// `Grammar`, `Prefix`, `BadIri`, `Depth`, and `TooLarge` as the language judges it.
pub fn walk<L: Language>(
    alloc: Global,
    base: &Iri,
    bytes: &[u8],
    kept: &mut L,
) -> Result<(), TurtleFault>
    requires sound { L.is_sound bytes.now kept.old }
    requires empty { L.is_kept bytes.now [] kept.old }
    ensures text { OnOk result (KeepsText L.is_kept L.symbol base.now bytes.now kept.new) }
    ensures no_fault { OnOk result (HasNoFault (L.is_large base.now bytes.now) L.symbol base.now
        bytes.now) }
    ensures fault { IfErr result (λ fault. fault ≢ NoMemoryFault → IsFirstFault
        (L.is_large base.now bytes.now) L.symbol base.now bytes.now fault) }
{
    let mut progress = Progress::new(alloc, L::start(), base)?;
    let mut lexer = Lexer::new(bytes);
    while read_next(alloc, base, bytes, &mut lexer, &mut progress, kept)? {}
    Ok(())
}
