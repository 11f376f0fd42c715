// Document 01's section "Echo and silence", in place.
ghost use Rattle.std.specs.Prelude.{◌≡◌, ◌&&◌, not, None};
ghost use Rattle.ladder.specs.Lists.{some_from};
ghost use Rattle.ladder.specs.Types.{rung_at, place_count};
ghost use Rattle.rules.specs.Echo.{echo_out, usable, end_if_out, echoed, highest, observe_echo, silent, first_place, seed, observe_snr, ofdm_at, all_out, refuses};
ghost use Rattle.rules.specs.Lowest.{improved, greatest};
ghost use Rattle.steps.specs.bridges.PlaceValue.{place_value};

use account::fixed::ECHO_MIN_SNR_DB;
use account::types::{State, Terms};
use ladder::types::{Place, Rung, Table};
use limits::reading::Reading;
use rules::lowest::{Found, best_place};

// ---- what the echo allows
// Whether a rung is out.
pub(crate) fn echo_out(t: &Table, s: &State, r: Rung) -> bool
    ensures { result ≡ echo_out t.now s.now r.0 }
{
    rules::echo::over_limit(t.row(r).limit, s.core.echo)
}

// Whether a place exists and its rung is not out.
// (The place's number is tested: `place_count` is a count, and no `Place`.)
pub(crate) fn usable(t: &Table, s: &State, i: Place) -> bool
    ensures { result ≡ usable t.now s.now i.0 }
{
    i.0 < t.place_count() && !echo_out(t, s, t.rung_at(i))
}

// ---- the lowest of greatest value
// The best by value at an SNR of the usable ones among the first n places.
#[tactic(auto, using(crate::proofs::Front::start_usable, crate::proofs::Front::met_under, crate::proofs::Front::rung_under, crate::proofs::Front::usable_here, rules::proofs::Greatest::one_place, rules::proofs::Greatest::at_end))]
fn best_among(terms: Terms, s: &State, snr: Reading, n: u32) -> Option<Found>
    ensures { result ≡ greatest n 0 (usable terms.entry.table.now s.now) (place_value terms.entry.table.now terms.entry.prices.now s.now snr) None }
{
    let front = terms.table.front();
    let mut best = None;
    for (i, r) in front[..front.len().min(n as usize)].iter().enumerate() {
        if !echo_out(terms.table, s, *r) {
            best = rules::lowest::better_of(best, Place(i as u32), terms.value_at(s, *r, snr));
        }
    }
    best
}

// ---- the calls
// A running try ends if the echo now rules its rung out.
fn end_if_out(t: &Table, s: &mut State)
    ensures { s.new ≡ end_if_out t.now s.old s.old.core.trying }
{
    if s.core
        .trying
        .is_some_and(|running| echo_out(t, s, running.rung))
    {
        s.cancel_try();
    }
}

// What an echo that was just smoothed does to try and choice.
#[tactic(auto, unfolding(account::specs::Price::value))]
fn obey_echo(terms: Terms, s: &mut State)
    ensures { s.new ≡ echoed terms.entry.table.now terms.entry.prices.now s.old }
{
    end_if_out(terms.table, s);
    let here = s.choice(terms.table);
    if echo_out(terms.table, s, here) {
        s.core.place = best_place(best_among(terms, s, s.core.snr, s.core.place.0));
    }
}

// A frame's echo reading: a missing share, or an SNR under the echo floor, changes nothing. (A NaN is not under it: so says `lt` of the rule.)
// (Share and SNR, as in the source's call: see rate's calls.rt.)
#[tactic(auto, unfolding(rules::specs::Echo::observe_echo))]
pub fn observe_echo(terms: Terms, s: &mut State, share: Reading, snr: f64)
    ensures { s.new ≡ observe_echo terms.entry.table.now terms.entry.prices.now s.old share snr }
{
    if let Some(x) = share {
        if !(snr < ECHO_MIN_SNR_DB) {
            s.core.echo = rules::echo::smooth_echo(s.core.echo, x);
            obey_echo(terms, s);
        }
    }
}

// The highest usable place at or under top, else place 0. No place past 31 is usable, so the walk down starts there at the latest.
#[tactic(auto, using(rules::proofs::Walks::highest_capped, rules::proofs::Walks::highest_further))]
fn highest_from(t: &Table, s: &State, top: Place) -> Place
    ensures { result.0 ≡ highest t.now s.now top.0 }
{
    for i in (1..=top.0.min(31)).rev() {
        if usable(t, s, Place(i)) {
            return Place(i);
        }
    }
    Place(0)
}

// A transmission went unanswered: a try ends, and the choice steps down as the link engine steps its own, to a rung that the echo allows.
#[tactic(auto, unfolding(rules::specs::Echo::silent))]
pub fn silent(t: &Table, s: &mut State, steps: u32)
    ensures { s.new ≡ silent t.now s.old steps }
{
    let top = Place(s.core.place.0.saturating_sub(steps));
    s.core.place = highest_from(t, s, top);
    s.cancel_try();
}

// The place that a session starts at from one reading, with no steps in hand: the best that the prior, which is an optimist, makes of it.
pub fn first_place(terms: Terms, s: &State, snr: f64) -> Place
    ensures { result.0 ≡ first_place terms.entry.table.now terms.entry.prices.now s.now snr }
{
    best_place(best_among(terms, s, Some(snr), terms.table.place_count()))
}

// Starts from a reading, unless an SNR is known.
#[tactic(auto, unfolding(rules::specs::Echo::seed))]
pub fn seed(terms: Terms, s: &mut State, snr: f64)
    ensures { s.new ≡ seed terms.entry.table.now terms.entry.prices.now s.old snr }
{
    if s.core.snr.is_none() {
        s.core.place = first_place(terms, s, snr);
        s.core.snr = Some(snr);
    }
}

// Takes an SNR reading and nothing else.
pub fn observe_snr(s: &mut State, snr: Reading)
    ensures { s.new ≡ observe_snr s.old snr }
{
    s.core.snr = rules::echo::smooth_snr(s.core.snr, snr);
}

// ---- `refuses`
// (Two questions of the front's rungs, each one chain that ends in the library's `any`.)
// Whether the front has OFDM rungs.
fn has_ofdm(t: &Table) -> bool
    ensures { result ≡ some_from (place_count t.now) 0 (ofdm_at t.now) }
{
    t.front().iter().any(|r| !t.is_floor(*r))
}

// Whether the front has OFDM rungs that are not out.
fn has_ofdm_in(t: &Table, s: &State) -> bool
    ensures { result ≡ some_from (place_count t.now) 0 (λ i. ofdm_at t.now i && not (echo_out t.now s.now (rung_at t.now i))) }
{
    t.front()
        .iter()
        .any(|r| !t.is_floor(*r) && !echo_out(t, s, *r))
}

// Whether the front has OFDM rungs and all are out.
#[tactic(auto, unfolding(rules::specs::Echo::all_out))]
fn is_all_out(t: &Table, s: &State) -> bool
    ensures { result ≡ all_out t.now s.now }
{
    !has_ofdm_in(t, s) && has_ofdm(t)
}

// Whether a rung's family is refused on this path: never the floor's; OFDM once the choice has gone to the floor after OFDM frames that delivered nothing,
// or where the echo rules every OFDM rung out.
#[tactic(auto, unfolding(rules::specs::Echo::refuses))]
pub fn refuses(t: &Table, s: &State, r: Rung) -> bool
    ensures { result ≡ refuses t.now s.now r.0 }
{
    !t.is_floor(r) && (s.core.failed && t.is_floor(s.choice(t)) || is_all_out(t, s))
}
