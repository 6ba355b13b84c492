//! In which manner clauses are made more general.

/// Which events that must have run stay among the hypotheses, of those that the query asks for.
#[derive(Clone, Copy, PartialEq)]
pub enum Links {
    /// All of them.
    All,
    /// Those that share a variable with the conclusion, or with a hypothesis that can be selected.
    Variable,
    /// Those of which each argument stands in the conclusion, or in a hypothesis that can be selected.
    Term,
    /// Those with a variable of which it isn't only said that the attacker has it.
    Unknown,
}

/// How deep terms may be.
#[derive(Clone, Copy)]
pub struct Cut {
    /// How often a function or a name may stand above itself, itself counted.
    pub functions: usize,
    /// How many tuples may stand above one another.
    pub tuples: usize,
}

/// In which manner clauses are made more general.
#[derive(Clone, Copy)]
pub struct Manner {
    pub links: Links,
    /// Terms that are deeper become variables, wherever they stand.
    pub cut: Option<Cut>,
    /// In the arguments of names, terms below so many symbols, and names, become variables.
    pub names: Option<u32>,
    /// Whether clauses keep their constraints.
    pub has_diffs: bool,
}
