//! Plans of a search: in which manners clauses are made more general, and how far each goes.

use clause_generalize::{Cut, Links, Manner};
use std::alloc::{AllocError, Global};

/// By what a hypothesis of a clause is chosen, on which it is resolved, or that the clause rests.
#[derive(Clone, Copy)]
pub enum Choice {
    /// The first of the largest hypotheses that can be selected; solved clauses rest.
    Selected,
    /// The first of the largest of those that don't unify with a hypothesis from which a clause concludes another like it; clauses that do
    /// so rest.
    Avoiding,
}

/// What a search tries: in which manner clauses are made more general, and by what a hypothesis is chosen.
#[derive(Clone, Copy)]
pub struct Plan {
    pub manner: Manner,
    pub choice: Choice,
}

/// The budget, in clauses, where none is given.
pub const DEFAULT_BUDGET: u32 = 800;

/// A round of a search, in which each plan may keep so much of the budget.
#[derive(Clone, Copy)]
pub(crate) enum Round {
    Quarter,
    Whole,
}

/// In their order: what takes little is tried first.
pub(crate) const ROUNDS: [Round; 2] = [Round::Quarter, Round::Whole];

impl Round {
    /// How many clauses a plan may keep.
    pub(crate) fn most(self, budget: u32) -> usize {
        let whole = budget as usize;
        match self {
            Round::Quarter => whole / 4,
            Round::Whole => whole,
        }
    }
}

/// How many symbols a plan may look at for each clause that it may keep.
const SYMBOLS_EACH: u64 = 10_000;

/// How many symbols a plan may look at that may keep so many clauses.
pub(crate) fn most_symbols(clauses: usize) -> u64 {
    SYMBOLS_EACH.saturating_mul(clauses as u64)
}

/// Which terms are cut: wherever they stand, and in arguments of names.
#[derive(Clone, Copy)]
struct Depth {
    cut: Option<Cut>,
    names: Option<u32>,
}

/// Terms of the usual depth.
const USUAL: Cut = Cut {
    functions: 3,
    tuples: 8,
};

/// Terms of little depth.
const FLAT: Cut = Cut {
    functions: 1,
    tuples: 2,
};

/// No terms are cut.
const WHOLE: Depth = Depth {
    cut: None,
    names: None,
};

impl Depth {
    /// The manner in which these terms are cut.
    fn manner(self, links: Links, has_diffs: bool) -> Manner {
        Manner {
            links,
            cut: self.cut,
            names: self.names,
            has_diffs,
        }
    }
}

/// In the order in which they are tried.
const DEPTHS: [Depth; 5] = [
    Depth {
        cut: Some(USUAL),
        names: None,
    },
    WHOLE,
    Depth {
        cut: None,
        names: Some(2),
    },
    Depth {
        cut: Some(USUAL),
        names: Some(2),
    },
    Depth {
        cut: Some(FLAT),
        names: None,
    },
];

/// In the order in which they are tried.
const LINKS: [Links; 4] = [Links::All, Links::Variable, Links::Term, Links::Unknown];

/// What the clauses of a search have: plans differ in what they do with it.
#[derive(Clone, Copy)]
pub(crate) struct Content {
    /// Events that the query asks for. Where it asks for none, clauses keep none.
    pub events: bool,
    /// Constraints.
    pub diffs: bool,
}

/// Adds the plans by selection that cut these terms: those that keep constraints, and where there are some one that doesn't.
fn add_plans(plans: &mut Vec<Plan>, depth: Depth, content: Content) -> Result<(), AllocError> {
    'each: for links in LINKS {
        if content.events || links == Links::All {
            plans.push(Plan {
                manner: depth.manner(links, true),
                choice: Choice::Selected,
            })?;
        }
    }
    if content.diffs {
        plans.push(Plan {
            manner: depth.manner(Links::All, false),
            choice: Choice::Selected,
        })?;
    }
    Ok(())
}

/// All plans for such clauses, in the order in which they are tried.
pub(crate) fn all_plans(alloc: Global, content: Content) -> Result<Vec<Plan>, AllocError> {
    let mut plans = Vec::new(alloc);
    'each: for depth in DEPTHS {
        add_plans(&mut plans, depth, content)?;
    }
    plans.push(Plan {
        manner: WHOLE.manner(Links::All, true),
        choice: Choice::Avoiding,
    })?;
    Ok(plans)
}
