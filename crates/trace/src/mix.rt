// What a controller is and what its reads answer, as one hash: a word more is xored in, the bits are turned left by 29, and a constant is added.
// A missing thing is the word 0, and one that is there has a 1 before it; a refused one is its number, and an accepted one has a 0 before it. The same
// words of the Rust, in this order, are those of tools/judge/src/words.rs.
use account::types::{Account, Families, Offsets, Tariff, Try};
use ladder::types::{Front, Rung};
use limits::reading::Reading;
use limits::refusal::{Refusal, Verdict};
use rate::types::{Answer, RateController};

// The SNRs that `first_mode` is asked at: of a weak, a fair and a strong path, the highest within the limits, and one past them.
const SNRS: [f64; 5] = [-10.0, 5.0, 20.0, 200.0, 201.0];

// A rung past every table.
const FAR: Rung = Rung(40);

// A hash so far.
#[derive(Clone, Copy)]
pub(crate) struct Mix(u64);

// ---- the words of a value
impl Mix {
    // The hash of nothing.
    pub(crate) const START: Mix = Mix(0xcbf2_9ce4_8422_2325);

    // The hash itself.
    pub(crate) fn hash(self) -> u64 {
        self.0
    }

    fn word(self, w: u64) -> Mix {
        Mix(
            (self.0 ^ w)
                .rotate_left(29)
                .wrapping_add(0x9e37_79b9_7f4a_7c15),
        )
    }

    fn number(self, n: u32) -> Mix {
        self.word(u64::from(n))
    }

    fn float(self, x: f64) -> Mix {
        self.word(float::bits::bits_of(x))
    }

    fn flag(self, on: bool) -> Mix {
        self.word(u64::from(on))
    }

    fn reading(self, x: Reading) -> Mix {
        x.map_or(self.word(0), |v| self.word(1).float(v))
    }

    // A rung that may be missing.
    fn mark(self, m: Option<Rung>) -> Mix {
        m.map_or(self.word(0), |r| self.word(1).number(r.0))
    }

    fn verdict(self, v: Verdict) -> Mix {
        self.number(v.err().map_or(0, |why| why.number()))
    }

    // A number that a rung may be refused.
    fn rated(self, x: Result<f64, Refusal>) -> Mix {
        x.map_or_else(|why| self.number(why.number()), |v| self.word(0).float(v))
    }

    // A rung that may be refused.
    fn found(self, x: Result<Rung, Refusal>) -> Mix {
        x.map_or_else(
            |why| self.number(why.number()),
            |r| self.word(0).number(r.0),
        )
    }

    fn trying(self, y: Option<Try>) -> Mix {
        y.map_or(self.word(0), |t| {
            self.word(1)
                .number(t.rung.0)
                .number(t.calls)
                .number(t.frames)
        })
    }

    fn account(self, a: Account) -> Mix {
        self.float(a.bytes).float(a.air).float(a.frames)
    }

    fn offsets(self, o: Offsets) -> Mix {
        self.float(o.floor).float(o.ofdm)
    }

    fn families(self, f: Option<Families>) -> Mix {
        f.map_or(self.word(0), |f| {
            self.word(1).flag(f.own_floor).flag(f.other_floor)
        })
    }

    // The burst counts that are given.
    fn bursts(self, t: &Tariff) -> Mix {
        let mut all = self.number(t.counted);
        for n in t.bursts.iter().take(t.counted as usize) {
            all = all.number(*n);
        }
        all
    }

    fn tariff(self, t: Option<Tariff>) -> Mix {
        t.map_or(self.word(0), |t| {
            self.word(1)
                .float(t.floor)
                .float(t.ordinary)
                .float(t.gap)
                .bursts(&t)
        })
    }

    // The rungs of a front.
    fn front(self, f: &Front) -> Mix {
        let mut all = self.number(f.count);
        for r in f.rungs() {
            all = all.number(r.0);
        }
        all
    }
}

// ---- the words of a controller
impl Mix {
    // What the calls move but for the rungs' arrays: choice, try, SNR, echo, offsets, the failed mark and the clean mark.
    fn core(self, k: &RateController) -> Mix {
        let c = &k.state.core;
        self.number(c.place.0)
            .trying(c.trying)
            .reading(k.snr_db())
            .reading(k.echo())
            .offsets(k.family_offsets())
            .flag(c.failed)
            .mark(c.clean)
    }

    // The prices and the families last set.
    fn prices(self, k: &RateController) -> Mix {
        self.tariff(k.prices.tariff).families(k.families())
    }

    // What the calls move of a rung: its account, its time since a try, and its wait.
    fn moved(self, k: &RateController, r: Rung) -> Mix {
        self.account(k.state.account(r))
            .float(k.state.since(r))
            .number(k.state.wait(r))
    }

    // All of a controller but its table.
    fn state(self, k: &RateController) -> Mix {
        let mut all = self.core(k).prices(k);
        for r in 0..k.table.air.count {
            all = all.moved(k, Rung(r));
        }
        all
    }

    // The rungs that it names: to use, tried, usable, and to start at from each SNR.
    fn named(self, k: &RateController) -> Mix {
        let mut all = self
            .number(k.recommend().0)
            .mark(k.probing())
            .front(&k.modes());
        for snr_db in SNRS {
            all = all.found(k.first_mode(snr_db));
        }
        all
    }

    // What it answers of a rung, which may be outside the table.
    fn asked(self, k: &RateController, r: Rung) -> Mix {
        self.account(k.account(r))
            .reading(k.threshold_db(r))
            .rated(k.value(r))
            .rated(k.estimate(r))
            .float(k.lossless(r))
            .flag(k.refuses(r))
    }

    // A controller: its state and what it answers, of the rungs of its table, of the next one past them, and of one far past them.
    pub(crate) fn controller(self, k: &RateController) -> Mix {
        let mut all = self.state(k).named(k);
        for r in 0..k.table.air.count {
            all = all.asked(k, Rung(r));
        }
        all.asked(k, Rung(k.table.air.count)).asked(k, FAR)
    }

    // What a call by value returns and leaves.
    pub(crate) fn answer(self, a: &Answer) -> Mix {
        self.verdict(a.verdict)
            .flag(a.ended)
            .flag(a.begun)
            .state(&a.controller)
    }
}
