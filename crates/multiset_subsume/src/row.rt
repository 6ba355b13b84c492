//! Rows of positions.

use std::marker::Model;

/// Positions of hypotheses in a clause, counted from 1.
#[derive(Debug, Drop)]
pub struct Row {
    pub items: Vec<u32>,
}

impl Model for Row {
    ghost use Rattle.std.specs.Prelude.{ℕ, List};
    ghost use Rattle.std.specs.Coded.{coded_ℕ, coded_list};

    ghost Value = { List ℕ };

    ghost coded = { coded_list coded_ℕ };

    ghost view = { λ a. a.items.items };
}
