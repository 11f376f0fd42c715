// A controller that is played in place, call after call: the ageing factors of the last frame's air are kept beside it for the next.
// Its calls are in moves.rt.
ghost use Rattle.std.specs.Prelude.{◌≡◌};

use crate::types::RateController;
use rules::accounts::Fades;
use std::marker::Model;

// A controller, and the ageing factors of the last frame's air.
#[derive(Drop)]
pub struct Player {
    pub(crate) controller: RateController,
    pub(crate) fades: Fades,
}

// A contract sees the controller alone.
impl Model for Player {
    ghost use Rattle.rules.specs.bridges.Pass.{Kept};
    ghost use Rattle.rate.specs.declared.types.RateController.{RateController};

    ghost Value = { RateController };

    ghost view = { λ p. p.controller };

    ghost invariant = { λ p. Kept p.controller.table p.fades };
}

impl Player {
    // A player of a controller, before whose first frame no factors are kept.
    pub fn new(controller: RateController) -> Player
        ensures { result ≡ controller }
    {
        Player {
            controller,
            fades: Fades::none(),
        }
    }

    // The controller as the calls so far left it.
    pub fn controller(&self) -> &RateController
        ensures { result.now ≡ self.now }
    {
        &self.controller
    }
}
