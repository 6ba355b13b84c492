//! Goal rows.

use std::alloc::AllocError;
use std::marker::Model;

/// Positions of hypotheses, from 1, one for each event of an alternative.
#[derive(Drop)]
pub struct Positions {
    pub items: Vec<u32>,
}

impl Model for Positions {
    ghost use Rattle.std.specs.Prelude.{ℕ, List};
    ghost use Rattle.std.specs.Coded.{coded_ℕ, coded_list};

    ghost Value = { List ℕ };

    ghost coded = { coded_list coded_ℕ };

    ghost view = { λ a. a.items.items };
}

/// The number of an alternative, from 1, and for each of its events the position of a hypothesis.
#[derive(Drop)]
pub struct QueryRow {
    pub alternative: u32,
    pub positions: Positions,
}

impl Positions {
    ghost use Rattle.std.specs.Prelude.{◌≡◌, ◌∷◌, IfOk};

    /// The positions with one more in front.
    pub(crate) fn behind(self, position: u32) -> Result<Positions, AllocError>
        ensures { IfOk result (λ row. row ≡ position ∷ self) }
    {
        let mut items = self.items;
        items.insert(0, position)?;
        Ok(Positions { items })
    }
}
