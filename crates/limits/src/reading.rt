// Readings, and whether one is within its limits.
ghost use Rattle.std.specs.Prelude.{◌≡◌};
ghost use Rattle.limits.specs.Readings.{ok_limit, ok_snr, ok_echo};

use crate::values::{ok_db, ok_share};

// A reading is missing or carries its value: an SNR, an echo share, an echo limit.
pub type Reading = Option<f64>;

// (What the next two have in common is the library's `is_none_or`. What is left to each is its test, and the name that its callers have for it: a generic
// one would have each caller name the test.)
// Whether an echo limit is within its limits; a missing one is.
pub fn ok_limit(l: Reading) -> bool
    ensures { result ≡ ok_limit l }
{
    l.is_none_or(ok_share)
}

// Whether an SNR reading is within its limits; a missing one is.
pub fn ok_snr(x: Reading) -> bool
    ensures { result ≡ ok_snr x }
{
    x.is_none_or(ok_db)
}

// Whether an echo reading is within its limits; of a missing share the SNR is not looked at.
// (The two are the arguments of the source's `observe_echo`: a struct of them would be made of those, to be taken apart here.)
pub fn ok_echo(share: Reading, snr_db: f64) -> bool
    ensures { result ≡ ok_echo share snr_db }
{
    share.is_none_or(|x| ok_share(x) && ok_db(snr_db))
}
