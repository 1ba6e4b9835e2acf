//! The classes of characters that terminals are made of (RDF 1.1 Turtle, section 6.5).

ghost use Rattle.std.specs.Prelude.{◌≡◌, ◌<◌, length, IfSome};
ghost use Rattle.std.specs.Option.{option_copied};
ghost use Rattle.turtle_lex.specs.Classes.{is_blank, is_line_end, is_in_line, is_iri_char};
ghost use Rattle.turtle_lex.specs.Classes.{quote_char, is_line_char, is_long_char, is_escaped};
ghost use Rattle.turtle_lex.specs.Classes.{is_local_escaped, is_sign, is_exponent_mark};
ghost use Rattle.turtle_lex.specs.Classes.{is_pn_chars_base, is_pn_chars_u, is_pn_chars};
ghost use Rattle.turtle_lex.specs.ClassOf.{in_class};
ghost use Rattle.turtle_lex.specs.Pattern.{one, MatchesOnly};

use crate::chars::first_char;

/// The quote of a String, which laws name.
#[derive(Clone, Copy, Debug, PartialEq, Eq)]
pub enum Quote {
    Double,
    Single,
}

impl Quote {
    /// The byte of the quote.
    pub(crate) fn byte(self) -> u8
        ensures { result ≡ quote_char self }
    {
        match self {
            Quote::Double => b'"',
            Quote::Single => b'\'',
        }
    }
}

/// A class of characters.
#[derive(Clone, Copy, Debug, PartialEq, Eq)]
pub(crate) enum Class {
    /// WS.
    Blank,
    /// LF and CR, before which a comment ends.
    LineEnd,
    /// What a comment may hold.
    InLine,
    /// What an IRIREF may hold, beside escapes.
    InIri,
    /// What a String between single quotes may hold, beside escapes.
    InLineString(Quote),
    /// What a String between three quotes may hold, beside quotes and escapes.
    InLongString(Quote),
    /// What follows the backslash of an ECHAR.
    Escaped,
    /// What follows the backslash of a PN_LOCAL_ESC.
    LocalEscaped,
    Digit,
    HexDigit,
    Letter,
    LetterOrDigit,
    Sign,
    /// What an EXPONENT begins with.
    ExponentMark,
    /// PN_CHARS_BASE.
    NameBase,
    /// PN_CHARS_U.
    NameFirst,
    /// PN_CHARS.
    NamePart,
}

impl Class {
    #[inline(always)]
    pub(crate) fn contains(self, c: char) -> bool
        ensures { result ≡ in_class self c }
    {
        match self {
            Class::Blank => is_blank(c),
            Class::LineEnd => is_line_end(c),
            Class::InLine => is_in_line(c),
            Class::InIri => is_iri_char(c),
            Class::InLineString(quote) => is_line_char(quote, c),
            Class::InLongString(quote) => is_long_char(quote, c),
            Class::Escaped => is_escaped(c),
            Class::LocalEscaped => is_local_escaped(c),
            Class::Digit => c.is_ascii_digit(),
            Class::HexDigit => c.is_ascii_hexdigit(),
            Class::Letter => c.is_ascii_alphabetic(),
            Class::LetterOrDigit => c.is_ascii_alphanumeric(),
            Class::Sign => is_sign(c),
            Class::ExponentMark => is_exponent_mark(c),
            Class::NameBase => is_pn_chars_base(c),
            Class::NameFirst => is_pn_chars_u(c),
            Class::NamePart => is_pn_chars(c),
        }
    }
}

/// What follows a character of the class.
#[inline(always)]
pub(crate) fn strip_one(text: &[u8], class: Class) -> Option<&[u8]>
    ensures matches { MatchesOnly (one (in_class class)) text.now (option_copied result) }
    ensures shorter { IfSome result (λ rest. length rest.now < length text.now) }
{
    match first_char(text) {
        Some((c, rest)) => if class.contains(c) { Some(rest) } else { None },
        None => None,
    }
}

/// Whether the character is of the class WS.
#[tactic(auto, unfolding(crate::specs::Classes::is_blank))]
fn is_blank(c: char) -> bool
    ensures { result ≡ is_blank c }
{
    matches!(c, ' ' | '\t' | '\r' | '\n')
}

/// Whether the character is of the class of LF and CR, before which a comment ends.
#[tactic(auto, unfolding(crate::specs::Classes::is_line_end))]
fn is_line_end(c: char) -> bool
    ensures { result ≡ is_line_end c }
{
    matches!(c, '\n' | '\r')
}

/// Whether the character is of the class that a comment may hold.
#[tactic(auto, unfolding(crate::specs::Classes::is_in_line))]
fn is_in_line(c: char) -> bool
    ensures { result ≡ is_in_line c }
{
    !matches!(c, '\n' | '\r')
}

/// Whether the character is of the class that an IRIREF may hold, beside escapes.
#[tactic(auto, unfolding(crate::specs::Classes::is_iri_char))]
pub(crate) fn is_iri_char(c: char) -> bool
    ensures { result ≡ is_iri_char c }
{
    !matches!(
        c,
        '\0'..=' ' | '<' | '>' | '"' | '{' | '}' | '|' | '^' | '`' | '\\'
    )
}

/// Whether the character is of the class that a String between single quotes may hold, beside
/// escapes.
#[tactic(auto, unfolding(crate::specs::Classes::is_line_char))]
fn is_line_char(quote: Quote, c: char) -> bool
    ensures { result ≡ is_line_char quote c }
{
    match quote {
        Quote::Double => !matches!(c, '"' | '\\' | '\n' | '\r'),
        Quote::Single => !matches!(c, '\'' | '\\' | '\n' | '\r'),
    }
}

/// Whether the character is of the class that a String between three quotes may hold, beside quotes
/// and escapes.
#[tactic(auto, unfolding(crate::specs::Classes::is_long_char))]
fn is_long_char(quote: Quote, c: char) -> bool
    ensures { result ≡ is_long_char quote c }
{
    match quote {
        Quote::Double => !matches!(c, '"' | '\\'),
        Quote::Single => !matches!(c, '\'' | '\\'),
    }
}

/// Whether the character is of the class that follows the backslash of an ECHAR.
#[tactic(auto, unfolding(crate::specs::Classes::is_escaped))]
fn is_escaped(c: char) -> bool
    ensures { result ≡ is_escaped c }
{
    matches!(c, 't' | 'b' | 'n' | 'r' | 'f' | '"' | '\'' | '\\')
}

/// Whether the character is of the class that follows the backslash of a PN_LOCAL_ESC.
#[tactic(auto, unfolding(crate::specs::Classes::is_local_escaped))]
fn is_local_escaped(c: char) -> bool
    ensures { result ≡ is_local_escaped c }
{
    matches!(
        c,
        '_' | '~'
            | '.'
            | '-'
            | '!'
            | '$'
            | '&'
            | '\''
            | '('
            | ')'
            | '*'
            | '+'
            | ','
            | ';'
            | '='
            | '/'
            | '?'
            | '#'
            | '@'
            | '%'
    )
}

/// Whether the character is of the class of signs.
#[tactic(auto, unfolding(crate::specs::Classes::is_sign))]
fn is_sign(c: char) -> bool
    ensures { result ≡ is_sign c }
{
    matches!(c, '+' | '-')
}

/// Whether the character is of the class that an EXPONENT begins with.
#[tactic(auto, unfolding(crate::specs::Classes::is_exponent_mark))]
fn is_exponent_mark(c: char) -> bool
    ensures { result ≡ is_exponent_mark c }
{
    matches!(c, 'e' | 'E')
}

/// Whether the character is of the class PN_CHARS_BASE.
#[tactic(auto, unfolding(crate::specs::Classes::is_pn_chars_base))]
fn is_pn_chars_base(c: char) -> bool
    ensures { result ≡ is_pn_chars_base c }
{
    matches!(c, 'A'..='Z' | 'a'..='z' | '\u{C0}'..='\u{D6}' | '\u{D8}'..='\u{F6}'
        | '\u{F8}'..='\u{2FF}' | '\u{370}'..='\u{37D}' | '\u{37F}'..='\u{1FFF}'
        | '\u{200C}'..='\u{200D}' | '\u{2070}'..='\u{218F}' | '\u{2C00}'..='\u{2FEF}'
        | '\u{3001}'..='\u{D7FF}' | '\u{F900}'..='\u{FDCF}' | '\u{FDF0}'..='\u{FFFD}'
        | '\u{10000}'..='\u{EFFFF}')
}

/// Whether the character is of the class PN_CHARS_U.
#[tactic(auto, unfolding(crate::specs::Classes::is_pn_chars_u))]
fn is_pn_chars_u(c: char) -> bool
    ensures { result ≡ is_pn_chars_u c }
{
    is_pn_chars_base(c) || c == '_'
}

/// Whether the character is of the class PN_CHARS.
#[tactic(auto, unfolding(crate::specs::Classes::is_pn_chars))]
fn is_pn_chars(c: char) -> bool
    ensures { result ≡ is_pn_chars c }
{
    is_pn_chars_u(c)
        || matches!(c, '-' | '0'..='9' | '\u{B7}' | '\u{300}'..='\u{36F}' | '\u{203F}'..='\u{2040}')
}
