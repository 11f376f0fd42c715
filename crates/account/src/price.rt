// What a rung is rated by, of a table, the prices set and a state that are lent.
ghost use Rattle.std.specs.Prelude.{◌≡◌};
ghost use Rattle.account.specs.Price.{offset, prior_p, prior, estimate_at, estimate, lossless, burst, control, overhead_of, priced, value, lossless_price, full_air, wait_s};

use crate::fixed::{PRIOR_FRAMES, SLOPE_DB};
use crate::types::{Families, State, Tariff, Terms};
use ladder::types::{Rung, Table};
use limits::reading::Reading;

// ---- prior and estimate
// How far a rung is read under the SNR: its family's offset.
// (This, `control` and what moves an offset in rules each choose one of two fields by one `if`. The fields have document 01's words, floor and OFDM for
// rungs, floor and ordinary for lengths: one struct of both families, generic in what it holds, would rename them and need the same `if`.)
fn offset(t: &Table, s: &State, r: Rung) -> f64
    ensures { result ≡ offset t.now s.now r.0 }
{
    if t.is_floor(r) {
        s.core.offsets.floor
    } else {
        s.core.offsets.ofdm
    }
}

// The prior's chance that a frame decodes, read `off` under the SNR.
#[tactic(auto, unfolding(crate::specs::Price::prior_p))]
pub fn prior_p(t: &Table, r: Rung, off: f64, snr: f64) -> f64
    ensures { result ≡ prior_p t.now r.0 off snr }
{
    half::logistic::logistic(snr - off - t.air.margin, t.row(r).threshold, SLOPE_DB)
}

// What the prior expects of a frame, in bytes: 0 without an SNR.
#[tactic(auto, unfolding(crate::specs::Price::prior_p))]
fn prior(t: &Table, r: Rung, off: f64, snr: Reading) -> f64
    ensures { result ≡ prior t.now r.0 off snr }
{
    snr.map_or(0.0, |x| t.row(r).capacity as f64 * prior_p(t, r, off, x))
}

// Data bytes a second of air at the rung delivers, measured and prior together, at an SNR.
#[tactic(auto, unfolding(crate::specs::Price::estimate_at, crate::specs::Price::prior_p))]
fn estimate_at(t: &Table, s: &State, r: Rung, snr: Reading) -> f64
    ensures { result ≡ estimate_at t.now s.now r.0 snr }
{
    let a = s.account(r);
    let prior = prior(t, r, offset(t, s, r), snr);
    (a.bytes + PRIOR_FRAMES * prior) / (a.air + PRIOR_FRAMES * t.row(r).time)
}

// The same at the smoothed SNR.
pub fn estimate(t: &Table, s: &State, r: Rung) -> f64
    ensures { result ≡ estimate t.now s.now r.0 }
{
    estimate_at(t, s, r, s.core.snr)
}

// Data bytes a second of a rung's frames carries, nothing lost.
#[tactic(auto, unfolding(crate::specs::Price::lossless))]
pub fn lossless(t: &Table, r: Rung) -> f64
    ensures { result ≡ lossless t.now r.0 }
{
    let row = t.row(r);
    row.capacity as f64 / row.time
}

// ---- price
impl Tariff {
    // A rung's burst count, if it is given. (`counted` is a count and no rung, so the number is held against it. A slice of the first `counted` would have
    // none, where a rung under `counted` and past the array has 0.)
    fn burst(&self, r: Rung) -> Option<u32>
        ensures { result ≡ burst self.now r.0 }
    {
        (r.0 < self.counted).then(|| self.bursts.get(r.0 as usize).copied().unwrap_or(0))
    }

    // A control frame's length, on the floor or not. (A bool here and in `overhead`, as in `Families`.)
    fn control(&self, floor: bool) -> f64
        ensures { result ≡ control self.now floor }
    {
        if floor { self.floor } else { self.ordinary }
    }

    // What an exchange takes beside its data frames, of a rung that is floor or not: the control frame that announces them, the other station's answer, and
    // the gaps before the answer and after it.
    fn overhead(&self, families: Option<Families>, floor: bool) -> f64
        ensures { result ≡ overhead_of self.now families floor }
    {
        let set = families.unwrap_or(Families {
            own_floor: floor,
            other_floor: floor,
        });
        self.control(set.own_floor) + self.control(set.other_floor) + self.gap
    }
}

impl Terms<'_> {
    // A rate per second of air as one per second of a whole exchange; itself where unpriced or the burst count is 0 or absent.
    #[tactic(auto, unfolding(crate::specs::Price::priced))]
    fn priced(self, r: Rung, x: f64) -> f64
        ensures { result ≡ priced self.entry.table.now self.entry.prices.now r.0 x }
    {
        let Some(tariff) = &self.prices.tariff else {
            return x;
        };
        let n = tariff.burst(r).unwrap_or(0);
        if n == 0 {
            return x;
        }
        let a = n as f64 * self.table.row(r).time;
        x * a / (a + tariff.overhead(self.prices.families, self.table.is_floor(r)))
    }

    // ---- value
    // What the rungs are ranked by, at an SNR: the estimate there, per second of a whole exchange where lengths are set.
    pub fn value_at(self, s: &State, r: Rung, snr: Reading) -> f64
        ensures { result ≡ priced self.entry.table.now self.entry.prices.now r.0 (estimate_at self.entry.table.now s.now r.0 snr) }
    {
        self.priced(r, estimate_at(self.table, s, r, snr))
    }

    // The same at the smoothed SNR.
    #[tactic(auto, unfolding(crate::specs::Price::value))]
    pub fn value(self, s: &State, r: Rung) -> f64
        ensures { result ≡ value self.entry.table.now self.entry.prices.now s.now r.0 }
    {
        self.value_at(s, r, s.core.snr)
    }

    // The most that a rung could be worth: `lossless` priced.
    #[tactic(auto, unfolding(crate::specs::Price::lossless_price))]
    pub fn lossless_price(self, r: Rung) -> f64
        ensures { result ≡ lossless_price self.entry.table.now self.entry.prices.now r.0 }
    {
        self.priced(r, lossless(self.table, r))
    }

    // ---- air and wait
    // The air of a full transmission at a rung: one frame where its burst count is absent.
    #[tactic(auto, unfolding(crate::specs::Price::full_air))]
    fn full_air(self, r: Rung) -> f64
        ensures { result ≡ full_air self.entry.table.now self.entry.prices.now.tariff r.0 }
    {
        let given = self
            .prices
            .tariff
            .as_ref()
            .and_then(|tariff| tariff.burst(r));
        given.unwrap_or(1) as f64 * self.table.row(r).time
    }

    // The air to let go by before a rung is tried: so many full transmissions at that rung. (Counted in transmissions of whatever was sent, it would be six
    // long ones at the floor before a try of an OFDM rung.)
    #[tactic(auto, unfolding(crate::specs::Price::wait_s))]
    pub fn wait_s(self, s: &State, r: Rung) -> f64
        ensures { result ≡ wait_s self.entry.table.now self.entry.prices.now.tariff s.now r.0 }
    {
        s.wait(r) as f64 * self.full_air(r)
    }
}
