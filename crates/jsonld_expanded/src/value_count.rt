//! How many values a JSON text has, counted before they are made.

/// The most values of a JSON text that is read, each counted: arrays, objects, strings, numbers and
/// the three words. Keys aren't values.
pub const VALUES_LIMIT: u32 = 1_000_000;

/// Where a byte of a JSON text is.
#[derive(Clone, Copy, Debug, PartialEq, Eq)]
enum Place {
    /// Between values.
    Between,
    /// In a number or a word.
    Scalar,
    /// In a string.
    Quoted,
    /// In a string, after a backslash that escapes it.
    Escaped,
    /// After a string, which is a key where a colon follows.
    Closed,
}

/// Whether a byte is white space of JSON (RFC 8259, section 2).
fn is_blank(byte: u8) -> bool {
    matches!(byte, b' ' | b'\t' | b'\n' | b'\r')
}

/// Whether a byte of JSON opens an array or an object.
fn opens(byte: u8) -> bool {
    byte == b'[' || byte == b'{'
}

/// Whether a byte of JSON is a token by itself, outside of strings.
fn is_structural(byte: u8) -> bool {
    opens(byte) || matches!(byte, b']' | b'}' | b',' | b':')
}

/// The place of what follows a byte of JSON outside of strings, for the count of values.
fn place_outside(place: Place, byte: u8) -> Place {
    if byte == b'"' {
        Place::Quoted
    } else if is_structural(byte) {
        Place::Between
    } else if !is_blank(byte) {
        Place::Scalar
    } else if place == Place::Closed {
        Place::Closed
    } else {
        Place::Between
    }
}

/// The place of what follows a byte of JSON in a string, for the count of values.
fn place_inside(byte: u8) -> Place {
    match byte {
        b'"' => Place::Closed,
        b'\\' => Place::Escaped,
        _ => Place::Quoted,
    }
}

/// The place of what follows a byte of JSON, for the count of values.
fn next_place(place: Place, byte: u8) -> Place {
    match place {
        Place::Escaped => Place::Quoted,
        Place::Quoted => place_inside(byte),
        Place::Between | Place::Scalar | Place::Closed => place_outside(place, byte),
    }
}

/// Whether a byte of JSON counts for one value more: it begins one, or the string before it was no
/// key.
fn shows_value(place: Place, byte: u8) -> bool {
    match place {
        Place::Escaped | Place::Quoted => false,
        Place::Closed => byte != b':' && !is_blank(byte),
        Place::Scalar => opens(byte),
        Place::Between => opens(byte) || place_outside(place, byte) == Place::Scalar,
    }
}

/// Whether a JSON text has at most [`VALUES_LIMIT`] values, counted before they are made. Of a
/// malformed text the parts that look like values count.
pub(crate) fn has_few_values(text: &[u8]) -> bool {
    let mut left = VALUES_LIMIT;
    let mut place = Place::Between;
    for byte in text {
        if shows_value(place, *byte) {
            if left == 0 {
                return false;
            }
            left -= 1;
        }
        place = next_place(place, *byte);
    }
    place != Place::Closed || left > 0
}
