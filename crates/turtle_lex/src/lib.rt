//! The terminals of Turtle (RDF 1.1 Turtle, section 6.5), with the braces and variables of patches.
//!
//! [`tokens`] lists the tokens of a text, [`Lexer`] returns one after another, and [`next_token`]
//! returns the first from a position on. Only `tokens` takes memory.
//!
//! ```text
//! let bytes = b"ex:a <b> 'c'@en .";
//! let mut lexer = Lexer::new(bytes);
//! while let Some(token) = lexer.next_token()? {
//!     let text = &bytes[token.from..token.to];
//! }
//! ```
//!
//! Proved: a terminal is a pattern over characters (`specs/Terminals.antt`), and a token is the
//! longest text of any kind at its position (`IsToken` of `specs/Tokens.antt`). Each call returns
//! the one answer that the text has (clauses `answer`, `only`, `tokens`, `only_tokens`, `fault`,
//! `only_fault`), and each token is one of the bytes (`of_bytes`). [`laws`] has what proofs of
//! readers and writers cite: what of a text is UTF-8, where a name or a String is split, and that a
//! written term is read as its token.
//!
//! It depends on `pod_base` for its list and on `bstr` for decoding a character.
#![tactic(auto)]

mod blanks_and_comments;
mod char_runs;
mod chars;
mod classes;
mod delimited;
mod escapes;
pub mod laws;
mod lexer;
mod names;
mod numbers;
mod plain_run;
mod scan;
mod texts;
mod token;
mod token_groups;
mod token_list;
mod token_search;

pub use classes::Quote;
pub use lexer::Lexer;
pub use scan::strip_any_case;
pub use texts::{is_label, is_lang_tag};
pub use token::{LexFault, Token, TokenKind};
pub use token_list::{listed_token, tokens};
pub use token_search::next_token;
