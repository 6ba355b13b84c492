//! Steps of a run.

use std::marker::Model;

/// Numbers in order, of known values or of rules.
#[derive(Debug)]
pub struct Numbers {
    pub items: Vec<u32>,
}

impl Drop for Numbers {
    fn drop(self) {
        let Numbers { items } = self;
        drop(items);
    }
}

impl Model for Numbers {
    ghost use Rattle.std.specs.Prelude.{ℕ, List};

    ghost Value = { List ℕ };

    ghost view = { λ a. a.items.items };
}

/// A step of a run. Threads, known values, constructors, destructors, rules, parts and entries are numbered from 1;
/// the first four steps are the attacker's, and what they make becomes the last known value.
#[derive(Debug)]
pub enum Step {
    /// The attacker applies the constructor, 0 for the tuple, to known values.
    Build(u32, Numbers),
    /// The attacker applies the rule, the second number, of the destructor to known values.
    Reduce(u32, u32, Numbers),
    /// The attacker takes the part, the second number, of a known data value.
    Part(u32, u32),
    /// The attacker makes a name.
    Fresh,
    /// The thread at a parallel composition goes on as its left process; its right one is a new last thread.
    Split(u32),
    /// The thread at a replication gives one more copy, a new last thread.
    Copy(u32),
    /// The thread's restriction makes a name.
    Make(u32),
    /// The first thread, at an output, sends to the second, at an input.
    Pass(u32, u32),
    /// The attacker hears the message of the thread at an output.
    Hear(u32),
    /// The thread at an input receives the known value, the second number, from the attacker.
    Say(u32, u32),
    /// The thread at a `let` goes on with the value of that label: the numbers of the rules by which its destructors are
    /// applied, those of arguments before that of the destructor on them, from left to right; 0 alone where it has none.
    Take(u32, Numbers),
    /// The thread at a `let` goes to its else branch.
    Fail(u32),
    /// The thread performs its event.
    Mark(u32),
    /// The next phase begins.
    Next,
    /// The thread writes its entry into its table.
    Insert(u32),
    /// The thread at a `get` takes the entry, the second number.
    Get(u32, u32),
    /// The thread at a `get` goes to its else branch.
    Miss(u32),
}

impl Drop for Step {
    fn drop(self) {
        match self {
            Step::Build(_, part) => drop(part),
            Step::Reduce(_, _, part) => drop(part),
            Step::Part(_, _) => {}
            Step::Fresh => {}
            Step::Split(_) => {}
            Step::Copy(_) => {}
            Step::Make(_) => {}
            Step::Pass(_, _) => {}
            Step::Hear(_) => {}
            Step::Say(_, _) => {}
            Step::Take(_, part) => drop(part),
            Step::Fail(_) => {}
            Step::Mark(_) => {}
            Step::Next => {}
            Step::Insert(_) => {}
            Step::Get(_, _) => {}
            Step::Miss(_) => {}
        }
    }
}
