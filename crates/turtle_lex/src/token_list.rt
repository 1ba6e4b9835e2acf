//! All tokens of a text.

ghost use Rattle.std.specs.Prelude.{◌≡◌, ◌≢◌, ◌++◌, ◌∷◌, [], IfOk, IfErr, OnOk};
ghost use Rattle.std.specs.List.{All};
ghost use Rattle.turtle_lex.specs.Tokens.{IsTokenOf, is_string, kind_after, listed_token};
ghost use Rattle.turtle_lex.specs.Tokens.{AreTokens, HasFault, AreAllTokens, IsOnlyFault};
ghost use Rattle.turtle_lex.specs.Tokens.{HasNoTokens, HasNoFault};
ghost use Rattle.turtle_lex.specs.declared.token.LexFault.TheVariants.{NoMemory};

use crate::lexer::Lexer;
use crate::token::{LexFault, Token, TokenKind};
use pod_base::List;
use std::alloc::Global;

/// The token as a list has it after another, which may be a String: after one `@prefix` and `@base`
/// are language tags. A reader over a [`Lexer`] applies it to each token, with
/// [`TokenKind::is_string`] of the token before.
pub fn listed_token(after_string: bool, token: Token) -> Token
    ensures { result ≡ listed_token after_string token }
{
    match token.kind {
        TokenKind::AtPrefix | TokenKind::AtBase if after_string => Token {
            kind: TokenKind::LangTag,
            ..token
        },
        _ => token,
    }
}

/// Appends a token to the list.
fn push_token(alloc: Global, list: &mut List<Token>, token: Token) -> Result<(), LexFault>
    ensures pushed { OnOk result (list.new.items ≡ list.old.items ++ token ∷ []) }
    ensures full { IfErr result (λ fault. fault ≡ NoMemory) }
{
    match list.push(alloc, token) {
        Ok(()) => Ok(()),
        Err(_) => Err(LexFault::NoMemory),
    }
}

/// The list of all tokens of the bytes, in order, or out of memory. Any other fault comes exactly
/// where the bytes have no tokens. After a String `@prefix` and `@base` are [`TokenKind::LangTag`].
pub fn tokens(alloc: Global, bytes: &[u8]) -> Result<List<Token>, LexFault>
    ensures tokens { IfOk result (λ list. AreTokens bytes.now list.items) }
    ensures of_bytes { IfOk result (λ list. All (IsTokenOf bytes.now) list.items) }
    ensures only_tokens { IfOk result (λ list.
        AreAllTokens bytes.now list.items × HasNoFault bytes.now) }
    ensures fault { IfErr result (λ fault. fault ≢ NoMemory → HasFault bytes.now fault) }
    ensures only_fault { IfErr result (λ fault. fault ≢ NoMemory
        → IsOnlyFault bytes.now fault × HasNoTokens bytes.now) }
{
    let mut list = List::new(alloc);
    let mut lexer = Lexer::new(bytes);
    let mut after_string = false;
    while let Some(token) = lexer.next_token()? {
        push_token(alloc, &mut list, listed_token(after_string, token))?;
        after_string = token.kind.is_string();
    }
    Ok(list)
}
