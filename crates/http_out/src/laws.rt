//! Laws of the bytes of responses. Each is the contract of a function that does nothing.

ghost use Rattle.http_out.specs.Text.{NoBodyWithoutLength};

/// The bytes of a response whose status has no length (1xx, 204 and 304) hold no byte of a body
/// (RFC 9112, section 6.3), whatever body the response has.
pub fn no_body_without_length()
    ensures { NoBodyWithoutLength }
{}
