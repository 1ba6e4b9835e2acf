//! The key that accepts an upgrade.

ghost use Rattle.std.specs.Prelude.{◌≡◌, IfOk};
ghost use Rattle.websocket.specs.Handshake.{accept_key_of};

use pod_base::{Bytes, Mem};
use std::alloc::Global;
use websocket::handshake::derive_accept_key;

/// The value of `Sec-WebSocket-Accept` for the value of `Sec-WebSocket-Key` (RFC 6455, section
/// 4.2.2): base64 of the SHA-1 of the key and the GUID of the protocol.
pub fn accept_of(alloc: Global, key: &[u8]) -> Mem<Bytes>
    ensures { IfOk result (λ accept. accept ≡ accept_key_of key.now) }
{
    let accept = derive_accept_key(key);
    Bytes::of(alloc, &accept)
}
