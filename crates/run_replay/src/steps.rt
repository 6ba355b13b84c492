//! The steps of a run.

use pi_model::Step;
use std::marker::Model;

/// Steps in order.
pub struct Steps {
    pub items: Vec<Step>,
}

impl Drop for Steps {
    fn drop(self) {
        let Steps { items } = self;
        drop(items);
    }
}

impl Model for Steps {
    ghost use Rattle.std.specs.Prelude.{List, map};
    ghost use Rattle.spec_calculus.specs.Runs as calculus;

    ghost Value = { List calculus.Step };

    ghost use Rattle.pi_model.specs.Steps.{step_of};

    ghost view = { λ a. map step_of a.items.items };
}
