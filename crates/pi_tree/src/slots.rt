//! What may be bound.

ghost use Rattle.std.specs.Prelude.{◌≡◌};
ghost use Rattle.spec_calculus.specs.Values.{same_name};
ghost use Rattle.pi_tree.specs.Slots.{name_of};

/// What is bound: a variable by its number, or the name of the restriction at a point.
#[derive(Clone, Copy, Debug)]
pub enum Slot {
    Var(u32),
    Made(u32),
}

impl Slot {
    /// Whether two slots are the same.
    pub fn is(self, other: Slot) -> bool
        ensures { result ≡ same_name (name_of self) (name_of other) }
    {
        match self {
            Slot::Var(number) => match other {
                Slot::Var(another) => number == another,
                Slot::Made(_) => false,
            },
            Slot::Made(point) => match other {
                Slot::Var(_) => false,
                Slot::Made(another) => point == another,
            },
        }
    }
}
