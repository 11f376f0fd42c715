// The calls that only read a controller.
ghost use Rattle.std.specs.Prelude.{◌≡◌};
ghost use Rattle.limits.specs.Refusals.{unless};
ghost use Rattle.limits.specs.declared.refusal.Refusal.TheVariants.{UnknownRung};
ghost use Rattle.ladder.specs.Types.{in_table};
ghost use Rattle.rules.specs.Echo.{refuses};
ghost use Rattle.rate.specs.Reads.{value_of, estimate_of, account_of, lossless_of, threshold_of, choice_of, probing_of, recommend_of, first_mode, modes_of, ofdm_refused};

use crate::moves::in_limits;
use crate::types::{RateController, terms};
use account::price;
use account::types::{Account, Families, Offsets};
use ladder::types::{Front, Rung};
use limits::reading::Reading;
use limits::refusal::{Refusal, Verdict};

impl RateController {
    // The families last set.
    pub fn families(&self) -> Option<Families>
        ensures { result ≡ self.now.prices.families }
    {
        self.prices.families
    }

    // Whether the rung's family is refused on this path.
    pub fn refuses(&self, mode: Rung) -> bool
        ensures { result ≡ refuses self.now.table self.now.state mode.0 }
    {
        steps::echo::refuses(&self.table, &self.state, mode)
    }

    // Whether every OFDM rung is refused: the first one is past the floor rungs, and what is said of it is said of all.
    pub fn refuses_ofdm(&self) -> bool
        ensures { result ≡ ofdm_refused self.now }
    {
        self.refuses(Rung(self.table.air.floors))
    }

    // A rung that is not in the table is refused: 6.
    fn known(&self, mode: Rung) -> Verdict
        ensures { result ≡ unless (in_table self.now.table mode.0) UnknownRung }
    {
        self.table
            .has(mode)
            .then_some(())
            .ok_or(Refusal::UnknownRung)
    }

    // What the rungs are ranked by. Refused: 6.
    #[tactic(auto, unfolding(crate::specs::Reads::value_of))]
    pub fn value(&self, mode: Rung) -> Result<f64, Refusal>
        ensures { result ≡ value_of self.now mode.0 }
    {
        self.known(mode)?;
        Ok(terms(&self.table, &self.prices).value(&self.state, mode))
    }

    // Data bytes a second of air at the rung delivers, measured and prior together. Refused: 6.
    #[tactic(auto, unfolding(crate::specs::Reads::estimate_of))]
    pub fn estimate(&self, mode: Rung) -> Result<f64, Refusal>
        ensures { result ≡ estimate_of self.now mode.0 }
    {
        self.known(mode)?;
        Ok(price::estimate(&self.table, &self.state, mode))
    }

    // Data bytes a second of the rung's frames carries, nothing lost; 0.0 outside the table.
    // (An `if`, here and in `account`: `then(..).unwrap_or(..)` would be a closure more, and make an Option to take it apart.)
    #[tactic(auto, unfolding(crate::specs::Reads::lossless_of))]
    pub fn lossless(&self, mode: Rung) -> f64
        ensures { result ≡ lossless_of self.now mode.0 }
    {
        if self.table.has(mode) {
            price::lossless(&self.table, mode)
        } else {
            0.0
        }
    }

    // The families' offsets.
    pub fn family_offsets(&self) -> Offsets
        ensures { result ≡ self.now.state.core.offsets }
    {
        self.state.core.offsets
    }

    // A rung's account so far; zero outside the table.
    #[tactic(auto, unfolding(crate::specs::Reads::account_of))]
    pub fn account(&self, mode: Rung) -> Account
        ensures { result ≡ account_of self.now mode.0 }
    {
        if self.table.has(mode) {
            self.state.account(mode)
        } else {
            Account::NONE
        }
    }

    // The usable rungs, ascending.
    pub fn modes(&self) -> Front
        ensures { result ≡ modes_of self.now }
    {
        self.table.front
    }

    // The rung to use: the one being tried, else the choice.
    pub fn recommend(&self) -> Rung
        ensures { result ≡ recommend_of self.now }
    {
        self.probing().unwrap_or(self.choice())
    }

    // The choice, whatever is being tried.
    pub fn choice(&self) -> Rung
        ensures { result ≡ choice_of self.now }
    {
        self.state.choice(&self.table)
    }

    // The rung being tried, if one is.
    pub fn probing(&self) -> Option<Rung>
        ensures { result ≡ probing_of self.now }
    {
        self.state.core.trying.map(|y| y.rung)
    }

    // The smoothed SNR.
    pub fn snr_db(&self) -> Reading
        ensures { result ≡ self.now.state.core.snr }
    {
        self.state.core.snr
    }

    // The path's echo, smoothed.
    pub fn echo(&self) -> Reading
        ensures { result ≡ self.now.state.core.echo }
    {
        self.state.core.echo
    }

    // The threshold of a rung; missing outside the table.
    #[tactic(auto, unfolding(crate::specs::Reads::threshold_of))]
    pub fn threshold_db(&self, mode: Rung) -> Reading
        ensures { result ≡ threshold_of self.now mode.0 }
    {
        self.table.has(mode).then(|| self.table.row(mode).threshold)
    }

    // The rung that a session starts at from one reading. Refused: 8.
    #[tactic(auto, unfolding(crate::specs::Reads::first_mode))]
    pub fn first_mode(&self, snr_db: f64) -> Result<Rung, Refusal>
        ensures { result ≡ first_mode self.now snr_db }
    {
        in_limits(limits::values::ok_db(snr_db))?;
        let terms = terms(&self.table, &self.prices);
        let place = steps::echo::first_place(terms, &self.state, snr_db);
        Ok(self.table.rung_at(place))
    }
}
