// What a frame does to the accounts: it ages those of the other rungs by its air, and its own by one frame, which then gains. Whatever rung the air went
// at, an account ages by it in frames of its own rung.
ghost use Rattle.std.specs.Prelude.{◌≡◌, ◌&&◌, ◌≤◌, length};
ghost use Rattle.std.specs.Float.Ieee.{lt, eq};
ghost use Rattle.float.specs.Numbers.{f0};
ghost use Rattle.ladder.specs.Types.{rung_count};
ghost use Rattle.rules.specs.Booking.{aged, gained, book_frame};
ghost use Rattle.rules.specs.bridges.Pass.{factor, fade_at, no_fades, fades_for};
ghost use Rattle.rules.specs.bridges.Ageing.{aged_by, booked_by};

use crate::types::Frame;
use account::fixed::HALF_LIFE;
use account::types::Account;
use ladder::types::{Rung, Table};

// What a frame's own rung ages by: half(1/12), 12 the half-life.
const OWN_FADE: f64 = 0.9438743126816935;

// ---- one account
// An account aged by a factor.
fn age_account(by: f64, a: Account) -> Account
    ensures { result ≡ aged by a }
{
    Account {
        bytes: a.bytes * by,
        air: a.air * by,
        frames: a.frames * by,
    }
}

// The account of a frame's own rung, aged already, with the frame.
// (All three fields change, so `..a` would take none over.)
fn gain_frame(f: Frame, a: Account) -> Account
    ensures { result ≡ gained f a }
{
    Account {
        bytes: if f.decoded {
            a.bytes + f.capacity as f64
        } else {
            a.bytes
        },
        air: a.air + f.air,
        frames: a.frames + 1.0,
    }
}

// ---- factors
// The factor that rungs of one frame time age by. A time of 0.0: there is none yet.
// (An Option here, and in `Fades` below, would spare no test: equal floats are the same value only where they are no zeros, so the last one would be
// tested against 0.0 all the same, and a 0.0 says that there is none.)
#[derive(Clone, Copy)]
struct Fade {
    time: f64,
    by: f64,
}

// Whether there is a last value, and this is the same.
// (The test against 0.0 is needed with an Option too: see `Fade`.)
pub(crate) fn is_same(x: f64, last: f64) -> bool
    ensures { result ≡ (lt f0 last && eq x last) }
{
    last > 0.0 && x == last
}

// The factor for a rung: the last one where the frame time is the same.
fn fade_for(air: f64, time: f64, last: Fade) -> Fade
    ensures { result ≡ fade_at air time last }
{
    if is_same(time, last.time) {
        return last;
    }
    Fade {
        time,
        by: half::power::half(air / (HALF_LIFE * time)),
    }
}

// The factors of all rungs for a frame, and the air of that frame, for which they are kept. An air of 0.0: there are none yet.
#[derive(Clone, Copy)]
pub struct Fades {
    pub by: [f64; 32],
    pub air: f64,
}

impl Fades {
    // Before the first frame.
    // (Nothing reads these ones. Zeros are made by a call of `memset`, and 900 SNR readings, each by a player of its own as in question's `answer_event`,
    // take 1.4 times as long.)
    pub fn none() -> Fades
        ensures { result ≡ no_fades }
    {
        Fades {
            by: [1.0; 32],
            air: 0.0,
        }
    }

    // The factors of all rungs in use, for a frame's air. One is computed anew only where the frame time differs from the rung's before.
    #[tactic(auto, unfolding(crate::specs::bridges::Pass::fades_for), using(crate::proofs::Fade::fade_carried, crate::proofs::Fade::filled_more, crate::proofs::Fade::filled_done))]
    pub(crate) fn fill(&mut self, t: &Table, air: f64)
        ensures { self.new ≡ fades_for t.now air self.old }
    {
        let mut fade = Fade { time: 0.0, by: 1.0 };
        let n = t.rung_count() as usize;
        for (i, by) in self.by[..n].iter_mut().enumerate() {
            fade = fade_for(air, t.row(Rung(i as u32)).time, fade);
            *by = fade.by;
        }
        self.air = air;
    }
}

// ---- all accounts
// The first accounts, each aged by its factor.
// (The factor is taken by the entry's number: of what is written through a zip of `iter_mut` Rattle's proofs know nothing.)
#[tactic(auto, using(crate::proofs::Ageing::aged_turn, crate::proofs::Ageing::aged_done))]
fn age(accounts: &mut [Account], by: &[f64; 32])
    requires { length accounts.old ≤ 32 }
    ensures { accounts.new ≡ aged_by (length accounts.old) 0 by.now accounts.old }
{
    for (i, a) in accounts.iter_mut().enumerate() {
        *a = age_account(by[i], *a);
    }
}

// All accounts after a frame, by the factors given: all are aged, and the frame's own rung as it was before ages by its own factor and gains.
#[tactic(auto, using(crate::proofs::Ageing::books_own, crate::proofs::Ageing::books_others))]
pub(crate) fn book_frame(t: &Table, accounts: &mut [Account; 32], fades: &Fades, f: Frame)
    ensures { accounts.new ≡ booked_by t.now fades.now.by f accounts.old }
{
    let n = t.rung_count() as usize;
    if !t.has(f.rung) {
        age(&mut accounts[..n], &fades.by);
        return;
    }
    let r = f.rung.0 as usize;
    let own = accounts[r];
    age(&mut accounts[..n], &fades.by);
    accounts[r] = gain_frame(f, age_account(OWN_FADE, own));
}
