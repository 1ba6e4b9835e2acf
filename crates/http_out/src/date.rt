//! The date of a moment, as HTTP writes it.

ghost use Rattle.std.specs.Prelude.{◌≡◌};
ghost use Rattle.http_out.specs.Calendar.{date_text};

use httpdate::HttpDate;
use pod_base::{Moment, moment_of};

/// The date of a moment, as HTTP writes it (RFC 9110, section 5.6.7). One after the year 9999 has
/// the date of that year's last second.
pub fn date_of(moment: Moment) -> [u8; 29]
    ensures { result ≡ date_text moment.0 }
{
    let date = HttpDate::from_unix_secs(moment_of(moment.0).0).unwrap();
    date.to_bytes()
}
