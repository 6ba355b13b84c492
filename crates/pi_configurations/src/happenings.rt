//! Events that were performed.

use pi_tree::Values;
use std::marker::Model;

/// An event that was performed, numbered from 1, with the values of its arguments.
pub struct Happened {
    pub event: u32,
    pub args: Values,
}

impl Drop for Happened {
    fn drop(self) {
        let Happened { event: _, args } = self;
        drop(args);
    }
}

/// Events in the order in which they were performed.
pub struct Happenings {
    pub items: Vec<Happened>,
}

impl Drop for Happenings {
    fn drop(self) {
        let Happenings { items } = self;
        drop(items);
    }
}

impl Model for Happenings {
    ghost use Rattle.std.specs.Prelude.{List, map};
    ghost use Rattle.spec_calculus.specs.Runs as calculus;
    ghost use Rattle.spec_calculus.specs.Codes.{coded_performed};

    ghost Value = { List calculus.Performed };

    ghost coded = { coded_performed };

    ghost use Rattle.pi_configurations.specs.Happenings.{performed_of};

    ghost view = { λ a. map performed_of a.items.items };
}
