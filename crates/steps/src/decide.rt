// `decide` of document 01's section "A transmission", in place.
ghost use Rattle.std.specs.Prelude.{◌≡◌, ◌&&◌, ◌<◌, eqb, Some, None, if◌then◌else◌};
ghost use Rattle.std.specs.Bool.{beq};
ghost use Rattle.ladder.specs.Types.{rung, rung_at, place_count, is_floor};
ghost use Rattle.account.specs.Price.{value};
ghost use Rattle.account.specs.State.{choice, wait_of};
ghost use Rattle.rules.specs.Tries.{candidate, choose, waited, clean_climb, above, begins, decided, decide_try, decide};

use crate::echo::echo_out;
use crate::judge::usable_above;
use account::fixed::{ENOUGH_FRAMES, PROBE_EVERY, WAIT_TOLERANCE_S};
use account::types::{State, Terms, Try};
use ladder::types::{Place, Rung, Table};
use rules::lowest::Found;

// ---- the best place
// Whether a place on the front may be chosen: its rung not out, and down any rung (of one never sent the estimate is its prior), but up only one whose own
// frames outweigh its prior: a try's, or frames that went there for another reason.
fn is_candidate(t: &Table, s: &State, i: Place, r: Rung) -> bool
    requires { (i.0 < place_count t.now) × (r.0 ≡ rung_at t.now i.0) }
    ensures { result ≡ candidate t.now s.now i.0 }
{
    !echo_out(t, s, r) && (i <= s.core.place || s.account(r).frames > ENOUGH_FRAMES)
}

// The lowest of greatest value.
// (`best_among` of echo.rt walks so by another test and to another end. One walk for both would take the test as a closure, and promise, for every rule
// that the closure may answer by, what is found by that rule: more than the few lines that stand twice.)
#[tactic(auto, unfolding(rules::specs::Tries::choose), using(rules::proofs::Greatest::from_start, rules::proofs::Greatest::one_place, rules::proofs::Greatest::at_end, crate::proofs::Front::rung_here))]
fn choose_place(terms: Terms, s: &State) -> Option<Found>
    ensures { result ≡ choose terms.entry.table.now terms.entry.prices.now s.now }
{
    let mut best = None;
    for (i, r) in terms.table.front().iter().enumerate() {
        let place = Place(i as u32);
        if is_candidate(terms.table, s, place, *r) {
            best = rules::lowest::better_of(best, place, terms.value(s, *r));
        }
    }
    best
}

// ---- whether a try begins; v is the choice's value, read once
// Whether a rung has waited long enough.
fn waited(terms: Terms, s: &State, r: Rung) -> bool
    ensures { result ≡ waited terms.entry.table.now terms.entry.prices.now s.now r.0 }
{
    s.since(r) >= terms.wait_s(s, r) - WAIT_TOLERANCE_S
}

// Whether the rung above needs no wait: every frame at the choice in the last transmission was decoded alone, both rungs are of one family, no try of the
// upper one failed since it last carried (its wait is the shortest), and it is rated above the choice.
#[tactic(auto, unfolding(rules::specs::Tries::clean_climb))]
fn clean_climb(terms: Terms, s: &State, up: Rung, v: f64) -> bool
    requires { v ≡ value terms.table.now terms.prices.now s.now (choice terms.table.now s.now) }
    ensures { result ≡ clean_climb terms.entry.table.now terms.entry.prices.now s.now up.0 }
{
    let here = s.choice(terms.table);
    s.core.clean == Some(here)
        && rules::tries::same_family(terms.table, up, here)
        && s.wait(up) == PROBE_EVERY
        && terms.value(s, up) > v
}

// The rung above, if it is tried now.
fn rung_to_try(terms: Terms, s: &State, v: f64) -> Option<Rung>
    requires { v ≡ value terms.table.now terms.prices.now s.now (choice terms.table.now s.now) }
    ensures { result ≡ (if begins terms.entry.table.now terms.entry.prices.now s.now then Some (rung (above terms.entry.table.now s.now)) else None) }
{
    let up = usable_above(terms.table, s)?;
    let is_tried = terms.lossless_price(up) > v
        && (waited(terms, s, up) || clean_climb(terms, s, up, v));
    is_tried.then_some(up)
}

// ---- what it leaves
// The try: one that runs goes on if its rung is exactly above, and ends where the choice has moved from under it; where none runs one of the rung above
// begins, or none. Answers whether one was begun.
fn decide_try(terms: Terms, s: &mut State, v: f64) -> bool
    requires { v ≡ value terms.table.now terms.prices.now s.old (choice terms.table.now s.old) }
    ensures { decided s.new result ≡ decide_try terms.entry.table.now terms.entry.prices.now s.old s.old.core.trying }
{
    match s.core.trying {
        None => {
            let Some(rung) = rung_to_try(terms, s, v) else {
                return false;
            };
            s.set_since(rung, 0.0);
            s.core.trying = Some(Try {
                rung,
                calls: 0,
                frames: 0,
            });
            true
        }
        Some(running) => {
            if usable_above(terms.table, s) != Some(running.rung) {
                s.cancel_try();
            }
            false
        }
    }
}

// Chooses a place, and begins, keeps or ends a try of the rung above it. Answers whether one was begun.
#[tactic(auto, unfolding(rules::specs::Tries::decide))]
pub(crate) fn decide(terms: Terms, s: &mut State) -> bool
    ensures { decided s.new result ≡ decide terms.entry.table.now terms.entry.prices.now s.old }
{
    match choose_place(terms, s) {
        None => {
            s.core.place = Place(0);
            s.cancel_try();
            false
        }
        Some(found) => {
            s.core.place = found.place;
            decide_try(terms, s, found.value)
        }
    }
}
