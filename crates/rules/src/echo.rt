// Document 01's section "Echo and silence", as far as single values go.
ghost use Rattle.std.specs.Prelude.{◌≡◌, Some};
ghost use Rattle.rules.specs.Echo.{smooth, smooth_snr, smooth_echo, over_limit};

use account::fixed::{ECHO_OLD, ECHO_WEIGHT, SNR_NEW, SNR_OLD};
use limits::reading::Reading;

// What was smoothed before and a new value, by their weights; the first value as it is.
fn smooth(old: f64, new: f64, before: Reading, x: f64) -> f64
    ensures { Some result ≡ smooth old new before x }
{
    before.map_or(x, |so_far| old * so_far + new * x)
}

// The smoothed SNR after a reading; a missing one, as of a slot in which nothing came, is no news.
pub fn smooth_snr(before: Reading, snr: Reading) -> Reading
    ensures { result ≡ smooth_snr before snr }
{
    snr.map_or(before, |x| Some(smooth(SNR_OLD, SNR_NEW, before, x)))
}

// The smoothed echo after a share.
pub fn smooth_echo(before: Reading, x: f64) -> Reading
    ensures { result ≡ smooth_echo before x }
{
    Some(smooth(ECHO_OLD, ECHO_WEIGHT, before, x))
}

// Whether an echo is over a limit.
pub fn over_limit(limit: Reading, echo: Reading) -> bool
    ensures { result ≡ over_limit limit echo }
{
    limit.zip(echo).is_some_and(|(l, e)| e > l)
}
