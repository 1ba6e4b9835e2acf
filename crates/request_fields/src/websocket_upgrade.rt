//! Whether a request asks to go on as a WebSocket (RFC 6455, section 4.2.1).

ghost use Rattle.std.specs.Prelude.{◌≡◌, length};
ghost use Rattle.std.specs.Option.{option_copied};
ghost use Rattle.request_fields.specs.Upgrades as spec;

use base64::engine::general_purpose::STANDARD;
use field_list::{only_value, some_has_word};
use pod_base::{Fields, Method, Request};

/// The length of a key of 16 bytes in base64.
const KEY_LEN: usize = 24;

/// Whether the key of a request's upgrade to a WebSocket is the base64 of 16 bytes, by its length.
fn has_16_bytes(key: &[u8]) -> bool
    requires { length key.now ≡ KEY_LEN }
    ensures { result ≡ spec.has_16_bytes key.now }
{
    let mut bytes = [0u8; KEY_LEN];
    match STANDARD.decode_slice(key, &mut bytes) {
        Ok(count) => count == 16,
        Err(_) => false,
    }
}

/// Whether a text is the key of a request's upgrade to a WebSocket: 24 characters that are the
/// base64 of 16 bytes.
fn is_key(key: &[u8]) -> bool
    ensures { result ≡ spec.is_key key.now }
{
    key.len() == KEY_LEN && has_16_bytes(key)
}

/// Whether a request's upgrade to a WebSocket has version 13 of the protocol, which stands once.
fn has_version_13(fields: &Fields) -> bool
    ensures { result ≡ spec.has_version_13 fields.now }
{
    match only_value(fields, "sec-websocket-version") {
        Some(value) => value == b"13".as_slice(),
        None => false,
    }
}

/// Whether a request asks for the upgrade to a WebSocket, and not to close the connection.
fn asks_for_websocket(fields: &Fields) -> bool
    ensures { result ≡ spec.asks_for_websocket fields.now }
{
    some_has_word(fields, "upgrade", "websocket")
        && some_has_word(fields, "connection", "upgrade")
        && !some_has_word(fields, "connection", "close")
}

/// Whether a request may be an upgrade to a WebSocket by its method and version.
fn is_upgradable(request: &Request) -> bool
    ensures { result ≡ spec.is_upgradable request.now }
{
    request.method == Method::Get && request.minor == 1
}

/// The key of a request that is an upgrade to a WebSocket; none where the request isn't one.
///
/// An upgrade is a GET of HTTP/1.1. Its Upgrade has the word `websocket`, and its Connection the
/// word `upgrade` and not `close`, in any case. `Sec-WebSocket-Version` stands once and is 13.
/// `Sec-WebSocket-Key` stands once and has 24 characters that are the base64 of 16 bytes.
pub fn upgrade_key<'a>(request: &'a Request) -> Option<&'a [u8]>
    ensures { option_copied result ≡ spec.upgrade_key request.entry.now }
{
    if !is_upgradable(request) {
        return None;
    }
    if !asks_for_websocket(&request.fields) {
        return None;
    }
    if !has_version_13(&request.fields) {
        return None;
    }
    match only_value(&request.fields, "sec-websocket-key") {
        Some(key) => { if is_key(key) { Some(key) } else { None } }
        None => None,
    }
}
