// The lowest of greatest value: the best place found so far, and whether one place more is better.
ghost use Rattle.std.specs.Prelude.{◌≡◌, cond};
ghost use Rattle.rules.specs.Lowest.{found, exceeds, best_place};

use ladder::types::Place;

// A place that was found, and its value.
#[derive(Clone, Copy, PartialEq, Debug)]
pub struct Found {
    pub place: Place,
    pub value: f64,
}

// The better of the best so far and a place with its value: of equal values the earlier, which is the lower.
pub fn better_of(best: Option<Found>, place: Place, value: f64) -> Option<Found>
    ensures { result ≡ cond (exceeds value best) (found place value) best }
{
    if best.is_none_or(|so_far| value > so_far.value) {
        Some(Found { place, value })
    } else {
        best
    }
}

// The best place, place 0 where there is none.
pub fn best_place(best: Option<Found>) -> Place
    ensures { result.0 ≡ best_place best }
{
    best.map_or(Place(0), |found| found.place)
}
