//! Laws of patterns, tokens and lists of tokens, for the proofs of readers and writers.
//!
//! Each is the contract of a function that does nothing.

ghost use Rattle.turtle_lex.specs.Laws.{MatchesItsTexts, MatchesAllItsTexts, HasOneAnswer};
ghost use Rattle.turtle_lex.specs.Laws.{HasOneList, AreFirstTokens, TokensAreText, TokensEndText};
ghost use Rattle.turtle_lex.specs.Laws.{BadTokenEndsText, NotTextIsFirst, TokenTextIsOfKind};
ghost use Rattle.turtle_lex.specs.Laws.{TokenTextIsUtf8, StringStartsWithQuote, ThreeQuotesAreLong};
ghost use Rattle.turtle_lex.specs.Laws.{FewerQuotesAreShort, NameHasColon, FirstColonSplitsName};
ghost use Rattle.turtle_lex.specs.Laws.{FirstColonEndsPrefix, WrittenIri, WrittenString};
ghost use Rattle.turtle_lex.specs.Laws.{WrittenLabel, WrittenTag, WrittenWords};
ghost use Rattle.turtle_lex.specs.Laws.{WrittenTagAfterString, WrittenCarets, WrittenDot};
ghost use Rattle.turtle_lex.specs.Laws.{NextIsToken};

/// The law that a pattern matches exactly its texts, whatever follows them.
pub fn matches_texts()
    ensures only { MatchesItsTexts }
    ensures all { MatchesAllItsTexts }
{}

/// The law that a text has at most one answer of the lexer from a position on.
pub fn one_answer()
    ensures { HasOneAnswer }
{}

/// The law that a text has at most one list of tokens.
pub fn one_list()
    ensures { HasOneList }
{}

/// The law that tokens which were read are the first of those before the end of the text or its
/// fault.
pub fn first_tokens()
    ensures { AreFirstTokens }
{}

/// The law of what is UTF-8 in a text with tokens: all of it where it has tokens, the bytes up to
/// the last token that was read, and the bytes before a fault, which for
/// [`NotText`](crate::LexFault::NotText) can't be more.
pub fn utf8()
    ensures tokens { TokensAreText }
    ensures so_far { TokensEndText }
    ensures bad_token { BadTokenEndsText }
    ensures not_text { NotTextIsFirst }
{}

/// The law that the text of a token, its bytes without what follows them, is UTF-8 and of the
/// token's kind.
pub fn token_texts()
    ensures of_kind { TokenTextIsOfKind }
    ensures utf8 { TokenTextIsUtf8 }
{}

/// The law that a String begins with its quote, and is long exactly where three quotes begin it.
pub fn strings()
    ensures quote { StringStartsWithQuote }
    ensures long { ThreeQuotesAreLong }
    ensures short { FewerQuotesAreShort }
{}

/// The law that the first `:` of a name ends its prefix.
pub fn names()
    ensures colon { NameHasColon }
    ensures local { FirstColonSplitsName }
    ensures prefix { FirstColonEndsPrefix }
{}

/// The law that a term which is written is read as the token of its kind: an IRIREF whatever
/// follows it, a short String before anything but its quote, a label, a language tag and the dot
/// before a blank or the end. The tags `@prefix` and `@base` are the fixed words, and after a
/// String they are tags again.
pub fn written_terms()
    ensures iri { WrittenIri }
    ensures string { WrittenString }
    ensures label { WrittenLabel }
    ensures tag { WrittenTag }
    ensures words { WrittenWords }
    ensures tag_after_string { WrittenTagAfterString }
    ensures carets { WrittenCarets }
    ensures dot { WrittenDot }
{}

/// The law that a token after blanks and comments is the next one from their start on.
pub fn next_is_token()
    ensures { NextIsToken }
{}
