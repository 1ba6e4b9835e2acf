//! How far a text is read.

ghost use Rattle.std.specs.Prelude.{◌≡◌, [], ◌&&◌, ℕ, List, None, false, IfOk};
ghost use Rattle.turtle_reader.specs.Readings.{IsReading};
ghost use Rattle.turtle_reader.specs.Texts.{adds_to_string};
ghost use Rattle.turtle_reader.specs.Walks.{if_complete, Completes};

use crate::lexeme::Lexeme;
use crate::lexing::adds_to_string;
use crate::reader::Reader;
use crate::referent::ResolvedTriple;
use iri_ref::Iri;
use pod_base::Mem;
use std::alloc::Global;
use turtle_grammar::{Start, SymbolicTriple};
use turtle_lex::LexFault;

/// How far a text is read. A String's own triple is complete only where neither a tag nor a
/// datatype follows.
#[derive(Drop)]
pub(crate) struct Progress {
    pub(crate) reader: Reader,
    /// Whether the last lexeme is a String.
    pub(crate) after_string: bool,
    /// The start of the last lexeme.
    pub(crate) last: Option<usize>,
}

/// The triple that waits where a text is read so far, unless something is added to its String.
fn if_complete(adds: bool, waiting: Option<SymbolicTriple>) -> Option<SymbolicTriple>
    ensures { result ≡ if_complete adds waiting }
{
    if adds { None } else { waiting }
}

impl Progress {
    /// The progress before the first lexeme.
    pub(crate) fn new(alloc: Global, start: Start, base: &Iri) -> Mem<Progress>
        ensures reading { IfOk result (λ p. (bytes : List ℕ)
            → IsReading start base.now bytes [] [] [] p.reader) }
        ensures string { IfOk result (λ p. p.after_string ≡ false) }
        ensures last { IfOk result (λ p. p.last ≡ None) }
    {
        let reader = Reader::new(alloc, start, base)?;
        Ok(Progress {
            reader,
            after_string: false,
            last: None,
        })
    }

    /// Whether the last lexeme is a String to which this adds something.
    fn is_added_to(&self, next: &Result<Option<Lexeme>, LexFault>) -> bool
        ensures { result ≡ (self.now.after_string && adds_to_string next.now) }
    {
        self.after_string && adds_to_string(next)
    }

    /// The triple of the last lexeme, where it is a String to which nothing is added.
    pub(crate) fn completed(
        &self,
        alloc: Global,
        next: &Result<Option<Lexeme>, LexFault>,
    ) -> Mem<Option<ResolvedTriple>>
        ensures { IfOk result (Completes next.now self.now) }
    {
        match if_complete(self.is_added_to(next), self.reader.waiting()) {
            Some(symbolic) => match self.reader.triple(alloc, &symbolic) {
                Ok(triple) => Ok(Some(triple)),
                Err(full) => Err(full),
            },
            None => Ok(None),
        }
    }
}
