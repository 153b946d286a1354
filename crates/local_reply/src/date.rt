// The text of a moment.
ghost use Rattle.std.specs.Prelude.{◌≡◌};
ghost use Rattle.h1_model.specs.Moment.{moment_text};

use httpdate::HttpDate;

/// How many nanoseconds a second has.
const NANOS_IN_SECOND: u64 = 1_000_000_000;

/// The text of a moment, which is a number of nanoseconds since 1970: the HTTP date of the second in which it falls
/// (RFC 9110 section 5.6.7).
pub fn moment_text(now: u64) -> [u8; 29]
    ensures { result ≡ moment_text now }
{
    HttpDate::from_unix_secs(now / NANOS_IN_SECOND)
        .unwrap()
        .to_bytes()
}
