//! The methods of requests.

/// A request's method (RFC 9110 section 9). `Other` is every method that this server doesn't
/// implement.
#[derive(Clone, Copy, Debug, PartialEq, Eq, Hash)]
pub enum Method {
    Get,
    Head,
    Options,
    Post,
    Put,
    Patch,
    Delete,
    Other,
}
