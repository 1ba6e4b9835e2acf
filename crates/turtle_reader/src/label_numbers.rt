//! The numbers n of the labels `g` n that a document writes.

ghost use Rattle.std.specs.Prelude.{◌≡◌, ◌<◌, ◌^◌, ◌++◌, ◌∷◌, [], ℕ, List, true, drop, codes};
ghost use Rattle.std.specs.Prelude.{decimal};
ghost use Rattle.std.specs.Prelude.{IfOk, IfSome, IfNone, OnOk};
ghost use Rattle.std.specs.BTreeSet.{contains};
ghost use Rattle.std.specs.Ordering.{nat_cmp};
ghost use Rattle.turtle_lex.specs.Laws.{text_of};
ghost use Rattle.turtle_lex.specs.Tokens.{IsTokenOf, IsNext};
ghost use Rattle.turtle_reader.specs.Taken.{HasEnd};
ghost use Rattle.turtle_reader.specs.TokensBefore.{HasTokensBefore};
ghost use Rattle.turtle_reader.specs.Unnamed.{HasNumbersOf, HasNumbersIn, generated, is_free};
ghost use Rattle.turtle_reader.specs.Unnamed.{label_of};

use itoa::Buffer;
use pod_base::Mem;
use std::alloc::Global;
use std::collections::BTreeSet;
use turtle_lex::{Lexer, Token, TokenKind};

/// The number of a label `g` n, of which these are the decimal digits.
fn decimal_number(digits: &str) -> Option<u64>
    ensures some { IfSome result (λ n. digits.now ≡ decimal n) }
    ensures none { IfNone result ((n : ℕ) → n < 2 ^ 64 → digits.now ≡ decimal n → ⊥) }
{
    match digits.parse::<u64>() {
        Ok(number) => {
            let mut buffer = Buffer::new();
            if buffer.format(number) == digits {
                Some(number)
            } else {
                None
            }
        }
        Err(_) => None,
    }
}

/// The number of a label `g` n, of which these bytes are the decimal digits.
fn number_of_digits(digits: &[u8]) -> Option<u64>
    ensures some { IfSome result (λ n. digits.now ≡ decimal n) }
    ensures none { IfNone result ((n : ℕ) → n < 2 ^ 64 → digits.now ≡ decimal n → ⊥) }
{
    match std::str::from_utf8(digits) {
        Ok(digits) => decimal_number(digits),
        Err(_) => None,
    }
}

/// What follows the `g` of a label that may have a number.
fn after_g(label: &[u8]) -> Option<&[u8]>
    ensures some { IfSome result (λ digits. label.now ≡ codes "g" ++ digits.now) }
    ensures none { IfNone result ((digits : List ℕ) → label.now ≡ codes "g" ++ digits → ⊥) }
{
    label.strip_prefix(b"g")
}

/// The number n of a label that is `g` n.
fn number_of_label(label: &[u8]) -> Option<u64>
    ensures some { IfSome result (λ n. label.now ≡ generated n) }
    ensures none { IfNone result ((n : ℕ) → n < 2 ^ 64 → label.now ≡ generated n → ⊥) }
{
    match after_g(label) {
        Some(digits) => number_of_digits(digits),
        None => None,
    }
}

/// The label of a BLANK_NODE_LABEL, after its `_:`, which may have a number.
fn after_mark(text: &[u8]) -> &[u8]
    ensures { result.now ≡ drop 2 text.now }
{
    if text.len() < 2 {
        &text[text.len()..]
    } else {
        &text[2..]
    }
}

/// The number n of the label that a token writes, if that is `g` n.
fn number_of_token(bytes: &[u8], token: &Token) -> Option<u64>
    requires { IsTokenOf bytes.now token.now }
    ensures some { IfSome result (λ n.
        label_of token.now.kind (text_of bytes.now token.now) ≡ generated n ∷ []) }
    ensures none { IfNone result ((n : ℕ) → n < 2 ^ 64
        → is_free (label_of token.now.kind (text_of bytes.now token.now)) n ≡ true) }
{
    match token.kind {
        TokenKind::BlankLabel => number_of_label(after_mark(&bytes[token.from..token.to])),
        _ => None,
    }
}

/// Puts the number of a label among those that the document writes.
fn insert_one(taken: &mut BTreeSet<u64>, number: u64) -> Mem<()>
    ensures { OnOk result ((written more : List (List ℕ)) → more ≡ generated number ∷ []
        → HasNumbersOf (contains nat_cmp taken.old) written
        → HasNumbersOf (contains nat_cmp taken.new) (written ++ more)) }
{
    let _ = taken.insert(number)?;
    Ok(())
}

/// Puts the number of the label that a token writes among those of the document.
fn insert_number(taken: &mut BTreeSet<u64>, bytes: &[u8], token: &Token) -> Mem<()>
    requires { IsTokenOf bytes.now token.now }
    ensures { OnOk result ((written : List (List ℕ)) → HasNumbersOf (contains nat_cmp taken.old) written
        → HasNumbersOf (contains nat_cmp taken.new)
        (written ++ label_of token.now.kind (text_of bytes.now token.now))) }
{
    match number_of_token(bytes, token) {
        Some(number) => insert_one(taken, number),
        None => Ok(()),
    }
}

/// The next token that may write a label with a number, if the text has one.
fn next_token(lexer: &mut Lexer<'_>) -> Option<Token>
    ensures next { IfSome result (IsNext lexer.old.bytes lexer.old.from) }
    ensures of_bytes { IfSome result (IsTokenOf lexer.old.bytes) }
    ensures from { IfSome result (λ token. lexer.new.from ≡ token.to) }
    ensures end { IfNone result (HasEnd lexer.old.bytes lexer.old.from) }
    ensures bytes { lexer.new.bytes ≡ lexer.old.bytes }
{
    match lexer.next_token() {
        Ok(Some(token)) => Some(token),
        Ok(None) => None,
        Err(_) => None,
    }
}

/// The numbers n of the labels `g` n that the tokens of the bytes write.
pub(crate) fn taken_numbers(alloc: Global, bytes: &[u8]) -> Mem<BTreeSet<u64>>
    ensures written { IfOk result (λ taken. HasNumbersIn (contains nat_cmp taken) bytes.now) }
    ensures tokens { IfOk result (λ taken. HasTokensBefore bytes.now) }
{
    let mut taken = BTreeSet::new(alloc);
    let mut lexer = Lexer::new(bytes);
    while let Some(token) = next_token(&mut lexer) {
        insert_number(&mut taken, bytes, &token)?;
    }
    Ok(taken)
}
