// The numbers that document 01 fixes, each by the source's name where it has one; specs/Fixed.antt has the same for the definitions. Why a number is what
// it is, where the source knows, stands here.

// ---- "Fixed: half-life 12, prior weight 2, wait 6 to 48, slope 0.5, echo weight 0.4, echo floor -6 dB."
// In how many frames of its own rung's air an account falls to half.
pub const HALF_LIFE: f64 = 12.0;

// How many frames the prior weighs.
pub const PRIOR_FRAMES: f64 = 2.0;

// The shortest and the longest wait before a rung is tried, in full transmissions at it.
pub const PROBE_EVERY: u32 = 6;

pub const PROBE_WAIT_MAX: u32 = 48;

// How wide the prior's logistic is, in dB.
pub const SLOPE_DB: f64 = 0.5;

// What a new echo share weighs against those before, and the SNR, in dB, under which one is not looked at.
pub const ECHO_WEIGHT: f64 = 0.4;

pub const ECHO_MIN_SNR_DB: f64 = -6.0;

// ---- "SNR smooths 0.7 old + 0.3 new; echo 0.6 old + 0.4 new"
pub const SNR_OLD: f64 = 0.7;

pub const SNR_NEW: f64 = 0.3;

pub const ECHO_OLD: f64 = 0.6;

// ---- "clamped to -5..20": the ends of an offset, in dB
pub const LEAST_OFFSET_DB: f64 = -5.0;

pub const MOST_OFFSET_DB: f64 = 20.0;

// ---- a try: "over at 3 frames or 6 calls"
// One frame more than the prior weighs, and twice as many transmissions.
pub const TRY_FRAMES: u32 = 3;

pub const TRY_CALLS: u32 = 6;

// ---- `decide`: "over 2 decayed frames", and "wait - 1e-9"
// Above the choice only a rung counts whose own frames outweigh its prior.
pub const ENOUGH_FRAMES: f64 = 2.0;

// How far under its wait, in seconds, a time may be: six full transmissions are the wait of six, whatever the last bit of their sum.
pub const WAIT_TOLERANCE_S: f64 = 1e-9;
