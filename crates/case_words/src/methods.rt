//! Methods, numbers, and what is known unless memory ran out.

use pod_base::{Mem, Method, NoMemory};
use std::alloc::{AllocError, Global};

/// The method of a name.
pub fn method_of(word: &str) -> Method {
    match word {
        "GET" => Method::Get,
        "HEAD" => Method::Head,
        "OPTIONS" => Method::Options,
        "POST" => Method::Post,
        "PUT" => Method::Put,
        "PATCH" => Method::Patch,
        "DELETE" => Method::Delete,
        _ => Method::Other,
    }
}

/// The number of a word, 0 where it is none.
pub fn number_of(word: &str) -> u64 {
    word.parse::<u64>().unwrap_or(0)
}

/// The numbers of a field, with a separator between them. Other pieces are passed over.
pub fn numbers_of(alloc: Global, field: &str, separator: char) -> Mem<Vec<u64>> {
    let mut numbers = Vec::new(alloc);
    for piece in field.split(separator) {
        if let Ok(number) = piece.parse::<u64>() {
            numbers.push(number)?;
        }
    }
    Ok(numbers)
}

/// The first word of a field, and what follows it.
pub fn first_word(field: &str) -> (&str, &str) {
    field.split_once(' ').unwrap_or((field, ""))
}

/// The value, unless memory ran out.
pub fn known<T>(found: Mem<T>) -> Result<T, AllocError> {
    match found {
        Ok(value) => Ok(value),
        Err(NoMemory) => Err(AllocError),
    }
}
