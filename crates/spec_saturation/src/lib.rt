//! The saturation log of clauses. The definitions stand in `specs/`; the functions here have empty bodies, and say in
//! their contracts what holds of the definitions.
#![tactic(auto)]

ghost use Rattle.std.specs.Prelude.{◌≡◌, ℕ, List};
ghost use Rattle.spec_terms.specs.Term.{Term};
ghost use Rattle.spec_clauses.specs.Fact.{Clause};
ghost use Rattle.spec_clauses.specs.Norm.{IsNormal};
ghost use Rattle.spec_clauses.specs.Inclusion.{Has};
ghost use Rattle.spec_saturation.specs.Key.{Entry};
ghost use Rattle.spec_saturation.specs.End.{End, Closed, IsLog};
ghost use Rattle.spec_saturation.specs.Common.{with_goal, CommonEnd, IsPart, IsCommonLog, GoesOn};
ghost use Rattle.spec_saturation.specs.Live.{AreLive, MeetsCovers};

/// Given clauses and a budget have one log at most, with one end.
pub fn one_log()
    ensures { (given : List (Clause Term)) (budget : ℕ) (log other : List Entry) (end stop : End) →
        IsLog given budget log end → IsLog given budget other stop → (log ≡ other) × (end ≡ stop) }
{}

/// The live clauses of a closed log of normal clauses are normal and cover all that a closed list has to: the given
/// clauses, the goal among them, and what each solved one of them gives with each unsolved one.
pub fn closed_logs_cover()
    ensures { (given : List (Clause Term)) (budget : ℕ) (log : List Entry)
        (live : List (Clause Term)) →
        ((c : Clause Term) → Has given c → IsNormal c) →
        IsLog given budget log Closed → AreLive log live → MeetsCovers given live }
{}

/// The part of a log before its goal doesn't depend on the goal: what is that part with one goal is it with each.
pub fn goals_share_the_part_before()
    ensures { (clauses : List (Clause Term)) (goal : Clause Term) (budget : ℕ) (log : List Entry)
        (end : CommonEnd) → IsPart (with_goal clauses goal) budget log end →
        IsCommonLog clauses budget log end }
{}

/// Clauses and a budget have one such part at most, with one end.
pub fn one_common_log()
    ensures { (clauses : List (Clause Term)) (budget : ℕ) (log other : List Entry)
        (end stop : CommonEnd) → IsCommonLog clauses budget log end →
        IsCommonLog clauses budget other stop → (log ≡ other) × (end ≡ stop) }
{}

/// The log of clauses and a goal goes on from the common part of the clauses where the goal is due there, and else is that
/// part, and ends as it does.
pub fn logs_have_the_common_part()
    ensures { (clauses : List (Clause Term)) (goal : Clause Term) (budget : ℕ) (log : List Entry)
        (end : End) → IsLog (with_goal clauses goal) budget log end →
        (part : List Entry) × (stop : CommonEnd) × IsCommonLog clauses budget part stop ×
        GoesOn (with_goal clauses goal) part stop log end }
{}
