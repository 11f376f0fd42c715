// How far each family's rungs are read under the SNR: each frame that was not combined moves its family's offset by its surprise, what was expected of it
// less what it did, so that a family that fails is walked down.
ghost use Rattle.std.specs.Prelude.{◌≡◌, cond};
ghost use Rattle.float.specs.Numbers.{f0, f1};
ghost use Rattle.rules.specs.Booking.{clamp, moved, offset_step};
ghost use Rattle.rules.specs.bridges.Pass.{offsets_by};

use crate::types::Frame;
use account::fixed::{LEAST_OFFSET_DB, MOST_OFFSET_DB};
use account::types::Offsets;
use ladder::types::Table;
use limits::reading::Reading;

// An offset held to its ends.
fn clamp_offset(x: f64) -> f64
    ensures { result ≡ clamp x }
{
    x.clamp(LEAST_OFFSET_DB, MOST_OFFSET_DB)
}

// What a frame showed of its chance.
fn hit(decoded: bool) -> f64
    ensures { result ≡ cond decoded f1 f0 }
{
    f64::from(decoded)
}

// Both offsets after a frame, at a known SNR: that of its family is moved by the gain times the surprise.
// (Each family's field is written by its name: a `&mut` to the one or the other field, chosen by an `if`, says no longer of which it is, and the proof is
// three answers by hand.)
fn move_family(t: &Table, snr: f64, f: Frame, o: Offsets) -> Offsets
    ensures { result ≡ offset_step t.now snr f o }
{
    let moved = |off| {
        let p = account::price::prior_p(t, f.rung, off, snr);
        clamp_offset(off + t.air.gain * (p - hit(f.decoded)))
    };
    if f.combined {
        o
    } else if t.is_floor(f.rung) {
        Offsets {
            floor: moved(o.floor),
            ..o
        }
    } else {
        Offsets {
            ofdm: moved(o.ofdm),
            ..o
        }
    }
}

// Both offsets after a frame.
pub(crate) fn move_offsets(t: &Table, snr: Reading, f: Frame, o: Offsets) -> Offsets
    ensures { result ≡ offsets_by t.now snr f o }
{
    snr.map_or(o, |x| move_family(t, x, f, o))
}
