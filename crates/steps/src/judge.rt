// Document 01's section "A transmission", in place: judging the rungs sent, and the running try.
ghost use Rattle.std.specs.Prelude.{◌≡◌, suc, Option, Some, None, unwrap_or, if◌then◌else◌};
ghost use Rattle.ladder.specs.Types.{rung, place_count};
ghost use Rattle.ladder.specs.declared.types.Place.{Place};
ghost use Rattle.rules.specs.Echo.{usable};
ghost use Rattle.rules.specs.Tries.{better, judge_try, place_from, full_wait, end_probe, counted, above};
ghost use Rattle.rules.specs.bridges.Sets.{judge_one, judge_set};

use crate::echo::usable;
use account::fixed::PROBE_EVERY;
use account::types::{State, Terms, Try};
use ladder::types::{Place, Rung, Table};

// ---- judging a rung
// Whether a rung's value is greater than the choice's.
fn is_better(terms: Terms, s: &State, r: Rung) -> bool
    ensures { result ≡ better terms.entry.table.now terms.entry.prices.now s.now r.0 }
{
    terms.value(s, r) > terms.value(s, s.choice(terms.table))
}

// What frames at a rung above the choice said of it, a try's or others (a copy that still goes at its first rung, a measurement): it is better than the
// choice, or its next try waits twice as long.
#[tactic(auto, unfolding(rules::specs::Tries::judge_try))]
fn judge_try(terms: Terms, s: &mut State, r: Rung) -> bool
    ensures value { result ≡ better terms.entry.table.now terms.entry.prices.now s.old r.0 }
    ensures state { s.new ≡ judge_try terms.entry.table.now terms.entry.prices.now s.old r.0 }
{
    let better = is_better(terms, s, r);
    if better {
        s.set_wait(r, PROBE_EVERY);
    } else {
        s.set_wait(r, rules::tries::longer(s.wait(r)));
        s.set_since(r, 0.0);
    }
    better
}

// A rung that was sent.
fn judge_one(terms: Terms, s: &mut State, r: Rung)
    ensures { s.new ≡ judge_one terms.entry.table.now terms.entry.prices.now s.old r.0 }
{
    if s.choice(terms.table) < r && !rules::tries::is_trying(s.core.trying, r) {
        judge_try(terms, s, r);
    }
}

// All rungs of the set, from lowest to highest. (By document 01's form of a set of rungs: "trailing zeros give the next rung, ones give how many are
// left".)
#[tactic(auto, using(rules::proofs::Set::lowest, rules::proofs::Set::some, rules::proofs::Set::shift, rules::proofs::Set::judge_next, rules::proofs::Set::judge_done))]
pub(crate) fn judge_sent(terms: Terms, s: &mut State, sent: u32)
    ensures { s.new ≡ judge_set sent terms.entry.table.now terms.entry.prices.now s.old }
{
    let mut left = sent;
    while left.count_ones() > 0 {
        let r = left.trailing_zeros();
        judge_one(terms, s, Rung(r));
        left -= 1 << r;
    }
}

// ---- the place above
// The rung of the next place, if that is usable. (No place is past 31, so it is no matter that the last number counts as its own next.)
pub(crate) fn usable_above(t: &Table, s: &State) -> Option<Rung>
    ensures { result ≡ (if usable t.now s.now (suc s.now.core.place.0) then Some (rung (above t.now s.now)) else None) }
{
    let next = Place(s.core.place.0.saturating_add(1));
    usable(t, s, next).then(|| t.rung_at(next))
}

// ---- a running try
// The place of a rung on the front, if it has one: whatever place d stands for none, it is the rung's place else d.
fn place_of(t: &Table, r: Rung) -> Option<Place>
    ensures { (d : Place) → (unwrap_or result d).0 ≡ place_from (place_count t.now) 0 t.now r.0 d.0 }
{
    t.front()
        .iter()
        .position(|here| *here == r)
        .map(|i| Place(i as u32))
}

// The rung above, if usable, gets its full wait as time: a climb that works goes on, with a try of the next rung at the next transmission.
#[tactic(auto, unfolding(rules::specs::Tries::full_wait))]
fn full_wait(terms: Terms, s: &mut State)
    ensures { s.new ≡ full_wait terms.entry.table.now terms.entry.prices.now s.old }
{
    if let Some(up) = usable_above(terms.table, s) {
        s.set_since(up, terms.wait_s(s, up));
    }
}

// What the end of a try of the rung r does, the try being off already: it is judged if it had a frame, and a won one moves the choice.
#[tactic(auto, unfolding(rules::specs::Tries::end_probe, rules::specs::Tries::won))]
fn end_probe(terms: Terms, s: &mut State, r: Rung, frames: u64)
    ensures { s.new ≡ end_probe terms.entry.table.now terms.entry.prices.now s.old r.0 frames }
{
    if frames > 0 && judge_try(terms, s, r) {
        s.core.place = place_of(terms.table, r).unwrap_or(s.core.place);
        full_wait(terms, s);
    }
}

// A running try counts the call and its own n frames; it is over at 3 frames or 6 calls. Both counts are summed wider than they are held, and held only
// while they are under 3 and 6.
#[tactic(auto, unfolding(rules::specs::Tries::counted))]
pub(crate) fn count_try(terms: Terms, s: &mut State, n: u32)
    ensures { s.new ≡ counted terms.entry.table.now terms.entry.prices.now n s.old s.old.core.trying }
{
    if let Some(running) = s.core.trying {
        let frames = running.frames as u64 + n as u64;
        if rules::tries::try_over(frames, running.calls) {
            s.cancel_try();
            end_probe(terms, s, running.rung, frames);
        } else {
            s.core.trying = Some(Try {
                calls: running.calls + 1,
                frames: frames as u32,
                ..running
            });
        }
    }
}
