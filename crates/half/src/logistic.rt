// The exponential, and the logistic: the chance that a frame decodes.
ghost use Rattle.std.specs.Prelude.{◌≡◌};
ghost use Rattle.half.specs.Logistic.{exp, decode_probability, ok_arguments, probability, AnswersFromZeroToOne};

use crate::power::half;
use limits::refusal::Refusal;
use limits::values::{ok_db, ok_slope};

// e ^ y.
#[tactic(auto, unfolding(crate::specs::Logistic::exp))]
pub fn exp(y: f64) -> f64
    ensures { result ≡ exp y }
{
    if y <= 0.0 {
        half(-y * 1.4426950408889634)
    } else {
        1.0 / half(y * 1.4426950408889634)
    }
}

// ---- the logistic
// (The three numbers of document 01's "d = (SNR - threshold)/slope" meet here only: a struct of them would be made at each call, to be taken apart there.)
// The chance that a frame decodes: a logistic through 90 % at the threshold, which is where a rung loses one frame in ten. For inner use: the prior may
// pass the limits on dB values.
#[tactic(auto, unfolding(crate::specs::Logistic::decode_probability))]
pub fn logistic(snr_db: f64, threshold_db: f64, slope_db: f64) -> f64
    ensures { result ≡ decode_probability snr_db threshold_db slope_db }
{
    let d = (snr_db - threshold_db) / slope_db;
    if d < -40.0 {
        return 0.0;
    }
    1.0 / (1.0 + exp(-d) / 9.0)
}

// Whether all three are within their limits.
fn ok_arguments(snr_db: f64, threshold_db: f64, slope_db: f64) -> bool
    ensures { result ≡ ok_arguments snr_db threshold_db slope_db }
{
    ok_db(snr_db) && ok_db(threshold_db) && ok_slope(slope_db)
}

// The chance that a frame decodes, from 0 to 1; refused (8) where an argument is outside its limits.
#[tactic(auto, unfolding(crate::specs::Logistic::probability))]
pub fn decode_probability(snr_db: f64, threshold_db: f64, slope_db: f64) -> Result<f64, Refusal>
    ensures value { result ≡ probability snr_db threshold_db slope_db }
    ensures from_zero_to_one { AnswersFromZeroToOne result }
{
    if ok_arguments(snr_db, threshold_db, slope_db) {
        Ok(logistic(snr_db, threshold_db, slope_db))
    } else {
        Err(Refusal::OutsideLimits)
    }
}
