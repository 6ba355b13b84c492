//! Which hypotheses can be selected (Blanchet 2016, section 3.3.1).

ghost use Rattle.std.specs.Prelude.{◌≡◌, map};
ghost use Rattle.spec_clauses.specs.Fact.{is_variable_known as is_variable_known_fact};
ghost use Rattle.spec_clauses.specs.Selection.{is_selectable as is_selectable_fact, is_solved};
ghost use Rattle.clause_form.specs.Facts.{fact_of};
ghost use Rattle.clause_form.specs.Seen.{fact_at, IsFactIn, AreFactsIn};

use crate::facts::Fact;
use term_tree::{Bank, Node};

/// Whether the fact is `att` of a variable. Takes no memory.
pub fn is_variable_known<B: Bank>(bank: &B, fact: &Fact) -> bool
    requires { IsFactIn (B.trees bank.now) (fact_of fact.now) }
    ensures { result ≡ is_variable_known_fact (fact_at (B.trees bank.now) (fact_of fact.now)) }
{
    match fact {
        Fact::Att(_, term) => match bank.node(*term) {
            Node::Var(_) => true,
            Node::App(_, _) => false,
        },
        _ => false,
    }
}

/// Whether a hypothesis can be selected: no `mev`, and no `att` of a variable. Takes no memory.
pub fn is_selectable<B: Bank>(bank: &B, fact: &Fact) -> bool
    requires { IsFactIn (B.trees bank.now) (fact_of fact.now) }
    ensures { result ≡ is_selectable_fact (fact_at (B.trees bank.now) (fact_of fact.now)) }
{
    match fact {
        Fact::Att(_, term) => match bank.node(*term) {
            Node::Var(_) => false,
            Node::App(_, _) => true,
        },
        Fact::Mev(..) => false,
        _ => true,
    }
}

/// Whether none of the hypotheses can be selected. Takes no memory.
pub fn are_solved<B: Bank>(bank: &B, hyps: &[Fact]) -> bool
    requires { AreFactsIn (B.trees bank.now) (map fact_of hyps.now) }
    ensures { result ≡ is_solved (map (fact_at (B.trees bank.now)) (map fact_of hyps.now)) }
{
    for hyp in hyps {
        if is_selectable(bank, hyp) {
            return false;
        }
    }
    true
}
