//! Cases of the responses of a pod.
//!
//! The base is `https://pod.example/`, and every response was made at the moment 784,111,777. A
//! response is its status, its fields, each after `|`, and its body after `||`.
//!
//! | Fields | Answer |
//! |---|---|
//! | `date` SECOND | the date of a moment |
//! | `allowed` METHOD PATH | whether the path takes the method |
//! | `shown` PATH TYPE, and `ranges` where parts may be asked for | the response to a read |
//! | `part` PATH TYPE RANGE | the response to a read of a part |
//! | `parts` PATH TYPE | the response to a read of several parts |
//! | `created` TARGET PATH | the response to a request that made a resource |
//! | `changed` | the response to another change |
//! | `options` PATH | what a path, or the server (`*`), takes |
//! | `not-modified` | the response where the client has the representation |
//! | `upgraded` ACCEPT | the response to an upgrade |
//! | `admit` METHOD TARGET AGENT | what a request is about, or its refusal |
//! | `refusal` STATUS WORD | a refusal with that status |
//! | `unauthorized` WORD | the refusal of an agent that isn't known |
//! | `not-allowed` PATH | the refusal of a method that the path doesn't take |
//! | `unsupported` METHOD PATH | the refusal of a body of another type |
//! | `unsatisfiable` SIZE | the refusal of ranges that lie outside the body |

use crate::{admission, change_responses, read_responses, refusal_responses};
use std::alloc::{AllocError, Global};

/// What the library answers to the fields of a case.
pub(crate) fn answer(alloc: Global, fields: &[&str]) -> Result<String, AllocError> {
    match fields {
        ["date", second] => read_responses::date(alloc, second),
        ["allowed", method, path] => change_responses::allowed(alloc, method, path),
        ["shown", path, ctype] => read_responses::shown_at(alloc, path, ctype, false),
        ["shown", path, ctype, "ranges"] => read_responses::shown_at(alloc, path, ctype, true),
        ["part", path, ctype, range] => read_responses::part(alloc, path, ctype, Some(range)),
        ["parts", path, ctype] => read_responses::part(alloc, path, ctype, None),
        ["created", target, path] => change_responses::created_at(alloc, target, path),
        ["changed"] => change_responses::other(alloc),
        ["options", path] => change_responses::options_at(alloc, path),
        ["not-modified"] => read_responses::same(alloc),
        ["upgraded", accept] => read_responses::opened(alloc, accept),
        ["admit", method, target, asked] => admission::answer(alloc, method, target, asked),
        _ => refusal_responses::answer(alloc, fields),
    }
}
