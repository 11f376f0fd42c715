// The calls by value, for tools/bench: what a question file holds, made call by call on a controller that is one value.
// Each call promises the sum of the choices that the definitions give; the bench holds it to the Rust's besides.
#![tactic(auto)]

ghost use Rattle.std.specs.Prelude.{◌≡◌};
ghost use Rattle.by_value.specs.Sums.{added, events_of, frames_of_first};

use ladder::types::Rung;
use question::body::frames_of;
use question::bytes::{past, reading_of};
use question::event::answer_event;
use question::file::{air, body_at};
use question::reader::Reader;
use question::start::fresh_for;

// The sum of the choices so far, and the sum of these sums: in it each choice counts by its place. By default there is no choice yet.
#[derive(Clone, Copy, Default)]
struct Sums {
    plain: u32,
    placed: u32,
}

impl Sums {
    // One choice more.
    fn add(self, choice: Rung) -> Sums
        ensures { result ≡ added self choice.0 }
    {
        let plain = self.plain.wrapping_add(choice.0);
        Sums {
            plain,
            placed: self.placed.wrapping_add(plain),
        }
    }
}

// The two C functions below share `Sums` and no loop: one for both would be handed what it walks and a closure that makes the call, and would have to
// promise of any closure what each of the two promises of its own call.
//
// Each event is a call.
#[unsafe(no_mangle)]
pub extern "C" fn by_value_events(file: &[u8]) -> u32
    ensures { result ≡ events_of file.now }
{
    let mut k = fresh_for(air(file));
    let mut sums = Sums::default();
    for body in Reader::new(file) {
        k = answer_event(k, body).controller;
        sums = sums.add(k.choice());
    }
    sums.placed
}

// Each of the 256 frames of the first event is a call, the same reading with each. They are read before the first call.
#[unsafe(no_mangle)]
#[tactic(auto, using(crate::proofs::Turns::frame_turn, crate::proofs::Turns::frame_end, ladder::proofs::Arrays::of_parts))]
pub extern "C" fn by_value_frames(file: &[u8]) -> u32
    ensures { result ≡ frames_of_first file.now }
{
    let body = body_at(file, 0);
    let snr = reading_of(past(body, 1));
    let frames: [_; 256] = frames_of(body);
    let mut k = fresh_for(air(file));
    let mut sums = Sums::default();
    for frame in &frames {
        k = k.observe_frame(*frame, snr).controller;
        sums = sums.add(k.choice());
    }
    sums.placed
}
