//! [`Language`]: what keeps the triples of a text.

ghost use Rattle.std.specs.Prelude.{◌≡◌, ℕ, List, IfOk, OnOk};
ghost use Rattle.turtle_grammar.specs.declared.symbol.Start.{Start as StartOf};
ghost use Rattle.turtle_reader.specs.declared.lexeme.Lexeme.{Lexeme};
ghost use Rattle.turtle_reader.specs.declared.referent.ResolvedTriple.{ResolvedTriple as Resolved};
ghost use Rattle.turtle_reader.specs.Languages.{KeepsOn, StaysKept, Judges};

use crate::referent::ResolvedTriple;
use pod_base::Mem;
use std::alloc::Global;
use turtle_grammar::Start;

/// What keeps the triples of a text in one language.
pub trait Language {
    /// The start symbol of its texts.
    ghost symbol: { StartOf };

    /// It can keep more triples of a text of these bytes.
    ghost is_sound: { List ℕ → Self → Type 0 };

    /// It is what is kept of these triples of a text of these bytes.
    ghost is_kept: { List ℕ → List Resolved → Self → Type 0 };

    /// Under a base, the triples that are complete with these first lexemes of the bytes are too
    /// large.
    ghost is_large: { List ℕ → List ℕ → List Lexeme → Type 0 };

    /// The start symbol of the language, which also says how the text is cut into lexemes.
    fn start() -> Start
        ensures { result ≡ symbol };

    /// Keeps one triple more of the language's text.
    fn keep(&mut self, alloc: Global, bytes: &[u8], triple: ResolvedTriple) -> Mem<()>
        requires { is_sound bytes.now self.old }
        ensures sound { OnOk result (is_sound bytes.now self.new) }
        ensures kept { OnOk result (KeepsOn is_kept bytes.now triple self.old self.new) };

    /// Whether the triples of the language's text are too large, with the one that is complete only
    /// if nothing is added to its String.
    fn judge(&mut self, alloc: Global, bytes: &[u8], waiting: Option<ResolvedTriple>) -> Mem<bool>
        requires { is_sound bytes.now self.old }
        ensures sound { OnOk result (is_sound bytes.now self.new) }
        ensures kept { OnOk result (StaysKept is_kept self.old self.new) }
        ensures judges { IfOk result (Judges symbol is_kept is_large bytes.now waiting self.old) };
}
