// What a question file starts with: a fresh controller with its air's table and settings.
ghost use Rattle.std.specs.Prelude.{◌≡◌};
ghost use Rattle.question.specs.Start.{fresh_for};

use crate::types::Bandwidth;
use ladder::airs::{narrow_table, wide_table};
use ladder::table::for_air;
use rate::make::fresh;
use rate::types::RateController;

// The controller of an air by its number; one that names none stands for narrow. It takes the number, since `run` and `by_value` start on what a file
// holds without asking whether that names an air: each would else answer for one that does not. `for_air` takes a bool, as document 01 writes it.
#[tactic(auto, unfolding(crate::specs::Start::fresh_for), using(crate::proofs::Starting::wide_made, crate::proofs::Starting::narrow_made))]
pub fn fresh_for(air: u32) -> RateController
    ensures { result ≡ fresh_for air }
{
    match Bandwidth::try_from(air) {
        Ok(Bandwidth::Wide) => fresh(for_air(wide_table().unwrap(), true)),
        Ok(Bandwidth::Narrow) | Err(_) => fresh(for_air(narrow_table().unwrap(), false)),
    }
}
