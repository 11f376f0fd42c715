// An f64 by its bit pattern, and the pattern of an f64, for every pattern and every f64.
ghost use Rattle.std.specs.Prelude.{◌≡◌};
ghost use Rattle.std.specs.Float.{binary64};
ghost use Rattle.std.specs.Float.Ieee.{to_bits};
ghost use Rattle.float.specs.Numbers.{f64};

use std::num::{f64_from_bits_with_nan, f64_to_bits_with_nan};

// The f64 of a bit pattern; every NaN pattern gives a NaN.
pub fn float_of(bits: u64) -> f64
    ensures { result ≡ f64 bits }
{
    f64_from_bits_with_nan(bits)
}

// The bit pattern of an f64; of a NaN the quiet one with its sign clear.
pub fn bits_of(x: f64) -> u64
    ensures { result ≡ to_bits binary64 x }
{
    f64_to_bits_with_nan(x)
}
