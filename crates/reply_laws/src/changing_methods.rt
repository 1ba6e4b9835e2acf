//! [`is_change`]: which methods may change a pod.
ghost use Rattle.std.specs.Prelude.{◌≡◌};
ghost use Rattle.reply_laws.specs.Granted.{is_change};

use pod_base::Method;

/// Whether a request of this method may change the pod.
pub fn is_change(method: Method) -> bool
    ensures { result ≡ is_change method }
{
    matches!(
        method,
        Method::Post | Method::Put | Method::Patch | Method::Delete
    )
}
