// The logistic.
ghost use Rattle.std.specs.Prelude.{◌≡◌};
ghost use Rattle.half.specs.Logistic.{probability};
ghost use Rattle.exports.specs.Numbers.{status_of, written_of};

use crate::status::minus_number;

// 0, and the probability in p; or minus the refusal's number, and p is left as it was. (Its parameters are as
// turmexol.h declares them; why it matches: see status.rt.)
#[unsafe(no_mangle)]
pub extern "C" fn rate_decode_probability(
    snr_db: f64,
    threshold_db: f64,
    slope_db: f64,
    p: &mut f64,
) -> i64
    ensures status { result ≡ status_of (probability snr_db threshold_db slope_db) }
    ensures written { p.new ≡ written_of (probability snr_db threshold_db slope_db) p.old }
{
    match half::logistic::decode_probability(snr_db, threshold_db, slope_db) {
        Ok(x) => {
            *p = x;
            0
        }
        Err(why) => minus_number(why),
    }
}
