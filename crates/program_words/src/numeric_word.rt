//! Words that are numbers.
ghost use Rattle.std.specs.Prelude.{◌≡◌, true, nat_le, if◌then◌else◌, Some, None};
ghost use Rattle.std.specs.Char.{is_ascii_digit};
ghost use Rattle.std.specs.List.{list_all};
ghost use Rattle.program_words.specs.Readings as spec;

/// The most digits of a number.
pub const DIGITS_LIMIT: usize = 5;

/// The most requests of a `load`.
pub const LOAD_LIMIT: u16 = 10_000;

/// Whether the bytes of a numeric word are digits alone.
fn are_digits(bytes: &[u8]) -> bool
    ensures { result ≡ list_all is_ascii_digit bytes.now }
{
    bytes.iter().all(|byte| byte.is_ascii_digit())
}

/// Whether a word is numeric: one to [`DIGITS_LIMIT`] digits.
fn is_number(word: &str) -> bool
    ensures { result ≡ spec.is_number word.now }
{
    !word.is_empty() && word.len() <= DIGITS_LIMIT && are_digits(word.as_bytes())
}

/// The number of a numeric word, up to a limit.
fn limited(word: &str, most: u16) -> Option<u16>
    requires { spec.is_number word.now ≡ true }
    ensures { result ≡ (if nat_le (spec.number_after 0 word.now) most
        then Some (spec.number_after 0 word.now) else None) }
{
    match word.parse::<u16>() {
        Ok(number) => { if number <= most { Some(number) } else { None } }
        Err(_) => None,
    }
}

/// The number of a numeric word, up to a limit: one to [`DIGITS_LIMIT`] digits, the first of which
/// may be 0.
pub fn number_up_to(word: &str, most: u16) -> Option<u16>
    ensures { result ≡ spec.number_up_to most word.now }
{
    if is_number(word) {
        limited(word, most)
    } else {
        None
    }
}
