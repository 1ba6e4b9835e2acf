//! Golden cases as data: each line of standard input is a case, and is printed with its answer as
//! one more field. The fields of a case are separated by tabs. In a field `\t`, `\n` and `\r` stand
//! for those bytes, `\xHH` for any byte (a backslash is `\x5C`), and `\*N;` repeats what follows it
//! N times, up to the next `\*` or the end of the field.
use std::alloc::{AllocError, Global};
use std::io;

/// The most bytes that [`shown`] prints one by one.
const SHOWN_LIMIT: usize = 200;

/// The value of a hexadecimal digit, 0 for any other byte.
fn digit_value(byte: u8) -> u8 {
    match byte {
        b'0'..=b'9' => byte - b'0',
        b'A'..=b'F' => byte - b'A' + 10,
        b'a'..=b'f' => byte - b'a' + 10,
        _ => 0,
    }
}

/// The byte of the escape at the head of a piece, without its backslash, and what follows it.
fn read_escape(piece: &[u8]) -> (u8, &[u8]) {
    match piece {
        [b't', rest @ ..] => (b'\t', rest),
        [b'n', rest @ ..] => (b'\n', rest),
        [b'r', rest @ ..] => (b'\r', rest),
        [b'x', high, low, rest @ ..] => (digit_value(*high) << 4 | digit_value(*low), rest),
        _ => (b'\\', piece),
    }
}

/// Appends a text whose escapes are replaced by their bytes.
fn push_unescaped(bytes: &mut Vec<u8>, text: &str) -> Result<(), AllocError> {
    let mut pieces = text.split('\\');
    if let Some(first) = pieces.next() {
        bytes.extend_from_slice(first.as_bytes())?;
    }
    for piece in pieces {
        let (byte, rest) = read_escape(piece.as_bytes());
        bytes.push(byte)?;
        bytes.extend_from_slice(rest)?;
    }
    Ok(())
}

/// Appends the text after `N;`, N times.
fn push_repeated(bytes: &mut Vec<u8>, piece: &str) -> Result<(), AllocError> {
    let (count, text) = piece.split_once(';').unwrap_or(("1", piece));
    for _ in 0..count.parse::<u32>().unwrap_or(0) {
        push_unescaped(bytes, text)?;
    }
    Ok(())
}

/// The bytes of a field.
pub fn bytes(alloc: Global, field: &str) -> Result<Vec<u8>, AllocError> {
    let mut bytes = Vec::new(alloc);
    let mut pieces = field.split("\\*");
    if let Some(first) = pieces.next() {
        push_unescaped(&mut bytes, first)?;
    }
    for piece in pieces {
        push_repeated(&mut bytes, piece)?;
    }
    Ok(bytes)
}

/// Appends the bytes of a piece: hexadecimal digits, and after a space what they are.
pub fn push_hex(bytes: &mut Vec<u8>, piece: &str) -> Result<(), AllocError> {
    let digits = piece.split(' ').next().unwrap_or("");
    for pair in digits.as_bytes().chunks(2) {
        if let [high, low] = pair {
            bytes.push(digit_value(*high) << 4 | digit_value(*low))?;
        }
    }
    Ok(())
}

/// The text of a field, or `not UTF-8`.
pub fn text(alloc: Global, field: &str) -> Result<String, AllocError> {
    match String::from_utf8(bytes(alloc, field)?) {
        Ok(text) => Ok(text),
        Err(_) => String::from_str(alloc, "not UTF-8"),
    }
}

/// The hexadecimal digit of a value under 16, in upper case.
fn digit_of(value: u8) -> char {
    match value {
        0..=9 => char::from(b'0' + value),
        _ => char::from(b'A' + value % 16 - 10),
    }
}

/// Appends the escape of a byte.
fn push_escape(shown: &mut String, byte: u8) -> Result<(), AllocError> {
    shown.push('\\')?;
    match byte {
        b'\t' => shown.push('t'),
        b'\n' => shown.push('n'),
        b'\r' => shown.push('r'),
        _ => {
            shown.push('x')?;
            shown.push(digit_of(byte / 16))?;
            shown.push(digit_of(byte % 16))
        }
    }
}

/// Bytes as a field in ASCII: printable characters as they are, the others as escapes. More than
/// 200 bytes are shown by their number alone.
pub fn shown(alloc: Global, bytes: &[u8]) -> Result<String, AllocError> {
    if bytes.len() > SHOWN_LIMIT {
        return format!(in alloc; "{} bytes", bytes.len());
    }
    shown_whole(alloc, bytes)
}

/// Bytes as a field, whatever their number.
pub fn shown_whole(alloc: Global, bytes: &[u8]) -> Result<String, AllocError> {
    let mut shown = String::new(alloc);
    for byte in bytes {
        match byte {
            b' '..=b'[' | b']'..=b'~' => shown.push(char::from(*byte))?,
            _ => push_escape(&mut shown, *byte)?,
        }
    }
    Ok(shown)
}

/// Runs the cases on standard input: prints each line with the answer to its fields as one more
/// field. An empty line, and one that begins with `#`, is printed as it is.
///
/// # Errors
///
/// Fails where the input can't be read, the output can't be written, or the answer is out of
/// memory.
pub fn run<R: Input + Print + AllocGlobal, F: Fn(Global, &[&str]) -> Result<String, AllocError>>(
    rt: &R,
    answer: F,
) -> io::Result<()>
    requires { F.IsAlwaysCallable answer }
{
    let alloc = rt.alloc();
    let text = io::read_to_string(alloc, rt.reader())?;
    for line in text.as_str().lines() {
        if line.is_empty() || line.starts_with('#') {
            println!(rt; "{line}")?;
            continue;
        }
        let fields: Vec<&str> = line.split('\t').collect(alloc)?;
        let answer = answer(alloc, fields.as_slice())?;
        println!(rt; "{line}\t{answer}")?;
    }
    Ok(())
}
