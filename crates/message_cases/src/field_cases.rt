//! Cases of what the fields of a request say. A FIELD is a name, `: ` and a value.
//!
//! | Fields | Answer |
//! |---|---|
//! | `strings` or `tags`, VALUE | the elements of a list, with quotes of strings or of tags |
//! | `accept` VALUE, or nothing | the choice between Turtle and JSON-LD |
//! | `tag` TYPE BODY MARK | the tag of a representation |
//! | `judge` METHOD SECOND MARKS FIELD.. | the verdict on preconditions |
//! | `needs-read` FIELD.. | whether the preconditions need a reader |
//! | `ranges` VALUE SIZE | the parts of a body |
//! | `multipart` TYPE BODY VALUE | the boundary and the text of a response with several parts |
//! | `stem` SLUG, or nothing | the stem of a slug, or without one |
//! | `name` CONTAINER SLUG KIND ROW.. | the path of a new member; `folder` is the KIND of containers |
//! | `unnamed` CONTAINER KIND ROW.. | that without a slug |
//! | `tokens` TABLE | whether a text is a token table |
//! | `agent` TABLE FIELD.. | who makes a request |
//! | `accept-key` KEY | the key that accepts an upgrade |
//!
//! The resource of `judge` was changed at SECOND and has tags with these MARKS. There is none where
//! SECOND is `none`.

use crate::{
    accept_choice, field_forms, field_lists, member_names, preconditions, ranges, tokens, upgrades,
};
use std::alloc::{AllocError, Global};

/// What the libraries answer to the fields of a case.
pub(crate) fn answer(alloc: Global, fields: &[&str]) -> Result<String, AllocError> {
    match fields {
        ["strings", value] => field_lists::strings(alloc, value),
        ["tags", value] => field_lists::tags(alloc, value),
        ["accept"] => String::from_str(alloc, accept_choice::chosen(None)),
        ["accept", value] => accept_choice::answer(alloc, value),
        ["tag", ctype, body, mark] => preconditions::tag(alloc, ctype, body, mark),
        ["judge", method, second, marks, lines @ ..] => {
            preconditions::judged(alloc, method, second, marks, lines)
        }
        ["needs-read", lines @ ..] => preconditions::needs_read(alloc, lines),
        ["ranges", value, size] => ranges::answer(alloc, value, size),
        ["multipart", ctype, body, value] => ranges::text(alloc, ctype, body, value),
        ["stem"] => member_names::item(alloc),
        ["stem", slug] => member_names::stem_answer(alloc, slug),
        ["name", container, slug, kind, rows @ ..] => {
            member_names::for_slug(alloc, container, slug, kind, rows)
        }
        ["unnamed", container, kind, rows @ ..] => {
            member_names::answer(alloc, container, None, kind, rows)
        }
        ["tokens", table] => tokens::table(alloc, table),
        ["agent", table, lines @ ..] => tokens::agent(alloc, table, lines),
        ["accept-key", key] => upgrades::answer(alloc, key),
        _ => field_forms::answer(alloc, fields),
    }
}
