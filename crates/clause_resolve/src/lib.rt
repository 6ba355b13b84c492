//! Resolution of a clause with another, on one of its hypotheses, as the selected one of an unsolved clause (Blanchet
//! 2001, section 4; resolution with free selection, Bachmair and Ganzinger 2001).
#![tactic(auto)]

ghost use Rattle.std.specs.Prelude.{List};
ghost use Rattle.spec_terms.specs.Term.{Term};
ghost use Rattle.spec_calculus.specs.Bounds.{most_symbols};
ghost use Rattle.spec_clauses.specs.Fact.{Clause as ClauseOf};
ghost use Rattle.spec_clauses.specs.Norm.{IsNormal};
ghost use Rattle.spec_clauses.specs.Limits.{IsWithinLimit};
ghost use Rattle.spec_clauses.specs.Variables.{AreBelow, all_terms};
ghost use Rattle.term_tree.specs.Bank.{Grows};
ghost use Rattle.clause_resolve.specs.declared.apart.Apart.{Apart};
ghost use Rattle.clause_resolve.specs.Apart.{IsApartIn, IsApart};

mod apart;
mod applying;
mod clash;
mod lifting;
mod meeting;
pub mod met;
mod parts;
mod resolving;
mod spending;
mod stop;

pub use crate::apart::{Apart, set_apart};
pub use crate::met::{Met, meet};
pub use crate::resolving::{Resolved, resolve_apart, resolvents, resolvents_at};
pub use spec_derivations::resolution_keeps_chosen_instances;

/// A clause that is set apart stays so as the bank grows, and its ids name trees.
pub fn what_is_apart_outlasts_growth()
    ensures apart { (old new : List Term) (unsolved : ClauseOf Term) (apart : Apart) →
        Grows old new → IsApart old unsolved apart → IsApart new unsolved apart }
    ensures known { (all : List Term) (unsolved : ClauseOf Term) (apart : Apart) →
        IsApart all unsolved apart → IsApartIn all apart }
{}

/// A clause that is its own norm within the limit of size has variables below the limit, those in its constraints too.
pub fn normal_clauses_have_low_variables()
    ensures { (c : ClauseOf Term) → IsNormal c → IsWithinLimit c →
        AreBelow most_symbols (all_terms c) }
{}
