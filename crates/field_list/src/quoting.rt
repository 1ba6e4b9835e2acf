//! [`Quoting`]: what ends a quoted string.

ghost use Rattle.std.specs.Prelude.{◌≡◌, ◌&&◌, ◌==◌};
ghost use Rattle.field_list.specs.Places as spec;

/// How a backslash counts in quotes.
#[derive(Clone, Copy, Debug, PartialEq, Eq)]
pub enum Quoting {
    /// It escapes the byte after it: a quoted string (RFC 9110, section 5.6.4).
    Strings,
    /// It is a byte like others: an entity tag (RFC 9110, section 8.8.3).
    Tags,
}

/// Where a byte is.
#[derive(Clone, Copy, Debug, PartialEq, Eq)]
pub enum Place {
    /// Outside of quotes.
    Outside,
    /// In quotes.
    Inside,
    /// In quotes, after a backslash that escapes it.
    Escaped,
}

/// Whether a quoted string has escapes: a backslash in quotes escapes the byte after it.
fn has_escapes(quoting: Quoting) -> bool
    ensures { result ≡ spec.has_escapes quoting }
{
    match quoting {
        Quoting::Strings => true,
        Quoting::Tags => false,
    }
}

/// The place, in quotes or outside of them, of what follows a byte.
pub(crate) fn next_place(quoting: Quoting, place: Place, byte: u8) -> Place
    ensures { result ≡ spec.next_place quoting place byte }
{
    match place {
        Place::Outside => {
            if byte == b'"' {
                Place::Inside
            } else {
                Place::Outside
            }
        }
        Place::Inside => {
            if byte == b'"' {
                Place::Outside
            } else if byte == b'\\' && has_escapes(quoting) {
                Place::Escaped
            } else {
                Place::Inside
            }
        }
        Place::Escaped => Place::Inside,
    }
}

/// Whether a byte is a separator outside of quotes.
pub(crate) fn separates(separator: u8, place: Place, byte: u8) -> bool
    ensures { result ≡ spec.separates separator place byte }
{
    match place {
        Place::Outside => byte == separator,
        Place::Inside | Place::Escaped => false,
    }
}
