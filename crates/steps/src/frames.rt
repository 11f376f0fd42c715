// What a transmission leaves once its frames are booked.
ghost use Rattle.std.specs.Prelude.{◌≡◌};
ghost use Rattle.ladder.specs.Types.{place_count};
ghost use Rattle.account.specs.State.{with_all_since};
ghost use Rattle.rules.specs.Booking.{passed};
ghost use Rattle.rules.specs.Tries.{decided};
ghost use Rattle.rules.specs.bridges.Pass.{decided_pass};

use crate::decide::decide;
use crate::judge::{count_try, judge_sent};
use account::types::{State, Terms};
use ladder::types::Table;
use rules::pass::Pass;

// The times since each front rung's try, with the call's air.
#[tactic(auto, using(crate::proofs::Passed::one_place, crate::proofs::Passed::at_end, crate::proofs::Front::rung_here))]
fn pass_times(t: &Table, s: &mut State, air: f64)
    ensures { s.new ≡ with_all_since s.old (passed (place_count t.now) 0 t.now air s.old.since) }
{
    for r in t.front() {
        s.set_since(*r, s.since(*r) + air);
    }
}

// After the pass: times go on, the rungs sent are judged, a running try is counted, and `decide` has the last word. Answers whether a try was begun.
#[tactic(auto, unfolding(rules::specs::bridges::Pass::decided_pass, rules::specs::bridges::Pass::finish_pass))]
pub fn transmit(terms: Terms, s: &mut State, pass: &Pass) -> bool
    ensures { decided s.new result ≡ decided_pass terms.entry.table.now terms.entry.prices.now s.old pass.now }
{
    pass_times(terms.table, s, pass.air);
    pass.finish(terms.table, &mut s.core);
    judge_sent(terms, s, pass.sent);
    count_try(terms, s, pass.own);
    decide(terms, s)
}
