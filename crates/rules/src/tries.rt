// Judging and trying, as far as single values go.
ghost use Rattle.std.specs.Prelude.{◌≡◌, ltb};
ghost use Rattle.std.specs.Bool.{beq};
ghost use Rattle.rules.specs.Tries.{tries, longer, try_over};
ghost use Rattle.rules.specs.bridges.Pass.{is_own, count_own};

use crate::types::Frame;
use account::fixed::{PROBE_WAIT_MAX, TRY_CALLS, TRY_FRAMES};
use account::types::Try;
use ladder::types::{Rung, Table};

// Twice the wait, at most the longest.
pub fn longer(w: u32) -> u32
    ensures { result ≡ longer w }
{
    w.saturating_mul(2).min(PROBE_WAIT_MAX)
}

// Whether the rung r is being tried.
pub fn is_trying(trying: Option<Try>, r: Rung) -> bool
    ensures { result ≡ tries trying r.0 }
{
    trying.is_some_and(|running| running.rung == r)
}

// Whether a frame went at the rung being tried.
fn is_own(trying: Option<Try>, f: Frame) -> bool
    ensures { result ≡ is_own trying f }
{
    is_trying(trying, f.rung)
}

// The count with a frame, no further than what decides.
// (Only the frames of the try's own count, and a count past 3 stays: `min` would say neither.)
pub(crate) fn count_own(trying: Option<Try>, f: Frame, n: u32) -> u32
    ensures { result ≡ count_own trying f n }
{
    if is_own(trying, f) && n < TRY_FRAMES {
        n + 1
    } else {
        n
    }
}

// Whether a try is over with this call: so many own frames with the call's, and so many calls before it. One frame is a coin toss either way, so it takes
// more of its own than the prior weighs, or, a frame or none a transmission, twice the transmissions that this takes.
pub fn try_over(frames: u64, calls: u32) -> bool
    ensures { result ≡ try_over frames calls }
{
    frames >= TRY_FRAMES as u64 || calls >= TRY_CALLS - 1
}

// Whether two rungs are of one family.
pub fn same_family(t: &Table, a: Rung, b: Rung) -> bool
    ensures { result ≡ beq (ltb a.0 t.now.air.floors) (ltb b.0 t.now.air.floors) }
{
    t.is_floor(a) == t.is_floor(b)
}
