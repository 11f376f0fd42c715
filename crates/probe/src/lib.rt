// The half-power and the exponential, for the comparison with the Rust: document 01 has them "for inner use only", so neither is a call of
// turmexol.h, and tools/compare gets them from here.
#![tactic(auto)]

ghost use Rattle.std.specs.Prelude.{◌≡◌};
ghost use Rattle.half.specs.Power.{half};
ghost use Rattle.half.specs.Logistic.{exp};

// Document 01's half-power, which it means for t finite and at least 0; at any other t what the same steps give.
#[unsafe(no_mangle)]
pub extern "C" fn rate_half(t: f64) -> f64
    ensures { result ≡ half t }
{
    half::power::half(t)
}

// e^y over the half-power.
#[unsafe(no_mangle)]
pub extern "C" fn rate_exp(y: f64) -> f64
    ensures { result ≡ exp y }
{
    half::logistic::exp(y)
}
