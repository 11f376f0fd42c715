// Whether a value is within its limits, ends included; NaN and infinities are outside.
ghost use Rattle.std.specs.Prelude.{◌≡◌};
ghost use Rattle.float.specs.Numbers.{within};
ghost use Rattle.limits.specs.Values.{ok_db, ok_slope, ok_air, ok_length, ok_bytes, ok_burst, ok_share};

// Whether `x` is within two ends. (`(lo..=hi).contains(&x)` is no plainer than the two comparisons. It goes by `partial_cmp`, which compiles to a third.)
fn is_within(lo: f64, hi: f64, x: f64) -> bool
    ensures { result ≡ within lo hi x }
{
    lo <= x && x <= hi
}

// ---- each kind of value
// (`is_within` is what the next four and `ok_share` have in common. What is left to each is its ends, and the name by which a test is handed on, as in
// `all(ok_db)`: a generic one would have each caller name the ends. Of the two counts each is one comparison.)
// A value in dB.
pub fn ok_db(x: f64) -> bool
    ensures { result ≡ ok_db x }
{
    is_within(-200.0, 200.0, x)
}

// The logistic's slope, in dB.
pub fn ok_slope(x: f64) -> bool
    ensures { result ≡ ok_slope x }
{
    is_within(0.125, 16.0, x)
}

// A frame time or an air, in seconds.
pub fn ok_air(x: f64) -> bool
    ensures { result ≡ ok_air x }
{
    is_within(0.001, 60.0, x)
}

// A control length or the gap, in seconds.
pub fn ok_length(x: f64) -> bool
    ensures { result ≡ ok_length x }
{
    is_within(0.0, 60.0, x)
}

// A payload or a capacity, in bytes.
pub fn ok_bytes(n: u32) -> bool
    ensures { result ≡ ok_bytes n }
{
    n <= 4096
}

// A burst count, in frames.
pub fn ok_burst(n: u32) -> bool
    ensures { result ≡ ok_burst n }
{
    n <= 1000
}

// An echo share or an echo limit.
pub(crate) fn ok_share(x: f64) -> bool
    ensures { result ≡ ok_share x }
{
    is_within(0.0, 1.0, x)
}
