// Making a controller.
ghost use Rattle.std.specs.Prelude.{◌≡◌};
ghost use Rattle.ladder.specs.bridges.Lent.{lent};
ghost use Rattle.rate.specs.Calls.{fresh_controller};
ghost use Rattle.rate.specs.Reads.{made, for_air_of};

use crate::types::RateController;
use account::types::{Prices, State};
use ladder::columns::Columns;
use ladder::table::table_for;
use ladder::types::Table;
use limits::refusal::Refusal;

// A fresh controller of a table.
pub fn fresh(table: Table) -> RateController
    ensures { result ≡ fresh_controller table }
{
    RateController {
        table,
        prices: Prices::default(),
        state: State::FRESH,
    }
}

impl RateController {
    // One for an air's table. Refused: 1 to 5.
    #[tactic(auto, unfolding(crate::specs::Reads::made))]
    pub fn for_table(columns: &Columns) -> Result<RateController, Refusal>
        ensures { result ≡ made (lent columns.now) }
    {
        Ok(fresh(table_for(columns)?))
    }

    // The same controller with the settings of its air.
    // (The bool is document 01's own: `for_air(true)`.)
    #[tactic(auto, unfolding(crate::specs::Reads::for_air_of))]
    pub fn for_air(self, wide: bool) -> RateController
        ensures { result ≡ for_air_of self wide }
    {
        RateController {
            table: ladder::table::for_air(self.table, wide),
            ..self
        }
    }
}
