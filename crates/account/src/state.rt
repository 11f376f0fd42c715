// How the state is read, changed and fresh. Outside the arrays the source's own defaults are read, and nothing is stored, so each function is total.
ghost use Rattle.std.specs.Prelude.{◌≡◌, not, ◌&&◌, ◌||◌, is_some, slice_set};
ghost use Rattle.account.specs.State.{account, since_of, wait_of, choice, with_since, with_wait, cancel_try};

use crate::fixed::PROBE_EVERY;
use crate::types::{Account, Core, Offsets, State, Try};
use ladder::types::{Place, Rung, Table};

impl Account {
    // The account of a rung never sent at, or outside the table.
    pub const NONE: Account = Account {
        bytes: 0.0,
        air: 0.0,
        frames: 0.0,
    };
}

// Sets a rung's entry of an array by rung; nothing where there is no such rung.
// (A test and a store by index: of a slice's `get_mut` the library's contract says which entry it lends, and of what the slice ends as nothing.)
fn store<T: Copy>(entries: &mut [T; 32], r: Rung, x: T)
    ensures { entries.new ≡ slice_set entries.old r.0 x }
{
    if r.0 < 32 {
        entries[r.0 as usize] = x;
    }
}

impl State {
    // ---- reading
    // (Each read is one chain of the library's methods, with the default in it: a function for all would take array, rung and default, and hide `get`.)
    // A rung's account.
    pub fn account(&self, r: Rung) -> Account
        ensures { result ≡ account self.now r.0 }
    {
        self.accounts
            .get(r.0 as usize)
            .copied()
            .unwrap_or(Account::NONE)
    }

    // A rung's time since its last try, in seconds of air.
    pub fn since(&self, r: Rung) -> f64
        ensures { result ≡ since_of self.now r.0 }
    {
        self.since.get(r.0 as usize).copied().unwrap_or(0.0)
    }

    // A rung's wait, in full transmissions.
    pub fn wait(&self, r: Rung) -> u32
        ensures { result ≡ wait_of self.now r.0 }
    {
        self.wait.get(r.0 as usize).copied().unwrap_or(PROBE_EVERY)
    }

    // The chosen rung.
    pub fn choice(&self, t: &Table) -> Rung
        ensures { result.0 ≡ choice t.now self.now }
    {
        t.rung_at(self.core.place)
    }

    // ---- changing: nothing where there is no such rung
    pub fn set_since(&mut self, r: Rung, x: f64)
        ensures { self.new ≡ with_since self.old r.0 x }
    {
        store(&mut self.since, r, x);
    }

    pub fn set_wait(&mut self, r: Rung, n: u32)
        ensures { self.new ≡ with_wait self.old r.0 n }
    {
        store(&mut self.wait, r, n);
    }
}

// ---- the running try
impl State {
    // A running try, if one runs, is off.
    pub fn cancel_try(&mut self)
        ensures { self.new ≡ cancel_try self.old }
    {
        self.core.trying = None;
    }
}

// Whether a try that ran before does not run on: none runs, or another was begun.
pub fn was_ended(before: Option<Try>, after: Option<Try>, begun: bool) -> bool
    ensures { result ≡ (is_some before && (begun || not (is_some after))) }
{
    before.is_some() && (begun || after.is_none())
}

// ---- fresh
impl State {
    // The state of a fresh controller.
    pub const FRESH: State = State {
        accounts: [Account::NONE; 32],
        since: [0.0; 32],
        wait: [PROBE_EVERY; 32],
        core: Core {
            trying: None,
            snr: None,
            echo: None,
            place: Place(0),
            offsets: Offsets {
                floor: 0.0,
                ofdm: 0.0,
            },
            failed: false,
            clean: None,
        },
    };
}
