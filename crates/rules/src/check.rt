// Which frames of a lent list are refused.
ghost use Rattle.std.specs.Prelude.{◌≡◌};
ghost use Rattle.rules.specs.Check.{frame_verdict, first_bad};

use crate::types::Frame;
use ladder::types::Table;
use limits::refusal::{Refusal, Verdict};

// A frame against a table. Refused: 6, 8.
pub(crate) fn frame_verdict(t: &Table, f: Frame) -> Verdict
    ensures { result ≡ frame_verdict t.now f }
{
    if !t.has(f.rung) {
        Err(Refusal::UnknownRung)
    } else if limits::values::ok_air(f.air) && limits::values::ok_bytes(f.capacity) {
        Ok(())
    } else {
        Err(Refusal::OutsideLimits)
    }
}

// All frames of a lent list, in order: the first bad one's verdict.
pub fn check_frames(t: &Table, frames: &[Frame]) -> Verdict
    ensures { result ≡ first_bad t.now frames.now }
{
    for f in frames {
        frame_verdict(t, *f)?;
    }
    Ok(())
}
