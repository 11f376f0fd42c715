// The front: the rungs of a ladder that are worth offering. Only what the columns say of themselves is tested here; a table's other refusals are
// table.rt's.
ghost use Rattle.std.specs.Prelude.{◌≡◌, ◌≤◌, length};
ghost use Rattle.ladder.specs.Front.{data_of, worth, usable_of, usable_by_payload};
ghost use Rattle.ladder.specs.bridges.Worths.{beats_with, beaten_with};
ghost use Rattle.ladder.specs.Airs.{wide_thresholds, wide_payloads, wide_times};

use crate::airs::{AWGN_THRESHOLD_DB, FRAME_S, PAYLOAD_BYTES};
use crate::columns::{all_air, all_bytes, all_db, ok_size};
use crate::types::{Front, Rung};
use limits::refusal::{Refusal, Verdict};

// What a DATA frame's header takes of its payload, in bytes: `DATA_HEADER` of the source's frames.rs.
pub const DATA_HEADER: u32 = 3;

// The columns that a front is made of. (A `Columns` holds capacities, limits and a floor count too, which callers of `usable_modes_by_rate`, as C's
// `rate_usable_modes`, do not have.)
#[derive(Clone, Copy)]
pub(crate) struct FrontColumns<'a> {
    pub thresholds: &'a [f64],
    pub payloads: &'a [u32],
    pub times: &'a [f64],
}

// The data bytes of a frame.
fn data_of(payload: u32) -> u32
    ensures { result ≡ data_of payload }
{
    payload.saturating_sub(DATA_HEADER)
}

// A rung's data bytes per second.
fn worth(payload: u32, time: f64) -> f64
    ensures { result ≡ worth payload time }
{
    data_of(payload) as f64 / time
}

// What a front compares of a rung: its threshold, and its worth, which is divided once.
#[derive(Clone, Copy)]
struct Offer {
    threshold: f64,
    worth: f64,
}

// What stands past the last rung.
const NO_OFFER: Offer = Offer {
    threshold: 0.0,
    worth: 0.0,
};

impl Offer {
    // Whether it is worth at least as much as another, with a threshold at most as high.
    fn beats(&self, other: &Offer) -> bool
        ensures { result ≡ beats_with self.now other.now }
    {
        self.worth >= other.worth && self.threshold <= other.threshold
    }
}

// Whether rung `m` with that offer is left off: the offer of another rung beats it.
fn is_beaten(offers: &[Offer], m: usize, offer: &Offer) -> bool
    ensures { result ≡ beaten_with offers.now m offer.now }
{
    offers
        .iter()
        .enumerate()
        .any(|(n, other)| n != m && other.beats(offer))
}

impl FrontColumns<'_> {
    ghost use Rattle.ladder.specs.Front.{worth_at, front_of, front_as, front_verdict};
    ghost use Rattle.ladder.specs.bridges.Worths.{offer_at, offers_of};

    // The worth of rung `m`; past the last rung no data bytes in a frame time of 1.0, which is 0.0.
    fn worth_at(&self, m: usize) -> f64
        ensures { result ≡ worth_at self.now.payloads.now self.now.times.now m }
    {
        worth(
            self.payloads.get(m).copied().unwrap_or(0),
            self.times.get(m).copied().unwrap_or(1.0),
        )
    }

    // The offer of rung `m`.
    fn offer_at(&self, m: usize) -> Offer
        ensures { result ≡ offer_at self.now.thresholds.now self.now.payloads.now self.now.times.now m }
    {
        Offer {
            threshold: self.thresholds.get(m).copied().unwrap_or(0.0),
            worth: self.worth_at(m),
        }
    }

    // The offer of each rung, and past the last rung none. (Not by `array::from_fn`: of few rungs it would make 32 places one by one, with a division for
    // each. Inlined, and answered as an array: put into a slice that is lent, the offers of 16 rungs and more are compared at 1.4 times the time.)
    #[inline(always)]
    fn offers(&self) -> [Offer; 32]
        requires { length self.now.thresholds.now ≤ 32 }
        ensures { result ≡ offers_of self.now.thresholds.now self.now.payloads.now self.now.times.now }
    {
        let mut offers = [NO_OFFER; 32];
        let n = self.thresholds.len();
        for (m, offer) in offers[..n].iter_mut().enumerate() {
            *offer = self.offer_at(m);
        }
        offers
    }

    // The rungs that no other beats, ascending. (An array is filled by its count: document 01's form of a vector: "32-entry arrays with a count", into
    // which what a `filter` leaves cannot be collected.)
    #[tactic(auto, using(crate::proofs::Filling::filling_takes, crate::proofs::Filling::filling_leaves, crate::proofs::Filling::filling_ends, crate::proofs::Worths::beaten_by_worths, crate::proofs::Worths::offers_taken), unfolding(crate::specs::Front::front_of))]
    pub(crate) fn front(&self) -> Front
        requires thresholds_len_bound { length self.now.thresholds.now ≤ 32 }
        ensures { result ≡ front_as (front_of self.now.thresholds.now self.now.payloads.now self.now.times.now) }
    {
        let all = self.offers();
        let offers = &all[..self.thresholds.len()];
        let mut rungs = [Rung(0); 32];
        let mut places = 0;
        for (m, offer) in offers.iter().enumerate() {
            if !is_beaten(offers, m, offer) {
                rungs[places] = Rung(m as u32);
                places += 1;
            }
        }
        Front {
            rungs,
            count: places as u32,
        }
    }

    // Why a front of these columns is refused, if it is. (These are tests that `Columns` makes of its columns too, each with the conditions of more
    // columns between them. To make those of these would be to have both definitions in another order, for no shorter a function.)
    #[tactic(auto, unfolding(crate::specs::Front::front_verdict))]
    fn front_verdict(&self) -> Verdict
        ensures { result ≡ front_verdict self.now.thresholds.now self.now.payloads.now self.now.times.now }
    {
        let n = self.thresholds.len();
        if !(ok_size(n) && ok_size(self.payloads.len()) && ok_size(self.times.len())) {
            return Err(Refusal::ColumnSize);
        }
        if self.payloads.len() != n || self.times.len() != n {
            return Err(Refusal::ColumnsDiffer);
        }
        if !(all_db(self.thresholds) && all_bytes(self.payloads) && all_air(self.times)) {
            return Err(Refusal::TableValue);
        }
        Ok(())
    }
}

// The front of any table: a rung that another one beats on both counts, threshold and worth, is never worth choosing. Worth is data bytes per second,
// which tells the floor's long frames from the ordinary ones. It is of data, and not of payload, since a header weighs more in a short frame: by payload
// a frame of 15 bytes in 1.054 s would beat one of 75 in 5.36 s, which carries more data a second.
#[tactic(auto, using(crate::proofs::Accepted::front_columns), unfolding(crate::specs::Front::usable_of))]
pub fn usable_modes_by_rate(
    thresholds: &[f64],
    payload: &[u32],
    frame_s: &[f64],
) -> Result<Front, Refusal>
    ensures { result ≡ usable_of thresholds.now payload.now frame_s.now }
{
    let columns = FrontColumns {
        thresholds,
        payloads: payload,
        times: frame_s,
    };
    columns.front_verdict()?;
    Ok(columns.front())
}

// The front of any table, comparing data bytes a frame: right where every frame is as long as the others.
#[tactic(auto, using(crate::proofs::Arrays::first_equal), unfolding(crate::specs::Front::usable_by_payload, crate::specs::Front::usable_of, crate::specs::Front::front_verdict))]
pub fn usable_modes_of(thresholds: &[f64], payload: &[u32]) -> Result<Front, Refusal>
    ensures { result ≡ usable_by_payload thresholds.now payload.now }
{
    let n = thresholds.len();
    if n > 32 {
        return Err(Refusal::ColumnSize);
    }
    usable_modes_by_rate(thresholds, payload, &[1.0; 32][..n])
}

// The wide air's front.
pub fn usable_modes() -> Result<Front, Refusal>
    ensures { result ≡ usable_of wide_thresholds wide_payloads wide_times }
{
    usable_modes_by_rate(&AWGN_THRESHOLD_DB, &PAYLOAD_BYTES, &FRAME_S)
}
