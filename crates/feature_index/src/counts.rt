//! How many symbols terms and facts have. Sums stop at the greatest number of 64 bits.

ghost use Rattle.std.specs.Prelude.{◌≡◌, ◌+◌, ◌<◌, length, map};
ghost use Rattle.spec_clauses.specs.Fact.{total};
ghost use Rattle.spec_features.specs.Features.{symbols as symbols_of, fact_symbols};
ghost use Rattle.term_tree.specs.Bank.{tree_at, AreKnown};
ghost use Rattle.clause_form.specs.Facts.{fact_of};
ghost use Rattle.clause_form.specs.Seen.{fact_at, IsFactIn};
ghost use Rattle.feature_index.specs.Lanes.{told};

use clause_form::Fact;
use term_tree::{Bank, Id, Node, SIZE_LIMIT};

/// So many symbols, and the function and name symbols of a term. Takes no memory.
fn symbols_of_term<B: Bank>(bank: &B, id: Id, found: u64) -> u64
    requires { id.index < length (B.trees bank.now) }
    ensures { result ≡ told (found + symbols_of (tree_at (B.trees bank.now) id)) }
{
    let size = bank.size(id);
    if size < SIZE_LIMIT && bank.is_ground(id) {
        return found.saturating_add(size);
    }
    match bank.node(id) {
        Node::Var(_) => found,
        Node::App(_, arguments) => {
            let mut symbols = found.saturating_add(1);
            'each: for argument in arguments {
                symbols = symbols_of_term(bank, *argument, symbols);
            }
            symbols
        }
    }
}

/// The same of terms.
fn symbols_of_terms<B: Bank>(bank: &B, terms: &[Id], found: u64) -> u64
    requires { AreKnown (B.trees bank.now) terms.now }
    ensures { result ≡ told
        (found + total symbols_of (map (tree_at (B.trees bank.now)) terms.now)) }
{
    let mut symbols = found;
    for term in terms {
        symbols = symbols_of_term(bank, *term, symbols);
    }
    symbols
}

/// The same of a fact's terms.
pub(crate) fn symbols_of_fact<B: Bank>(bank: &B, fact: &Fact, found: u64) -> u64
    requires { IsFactIn (B.trees bank.now) (fact_of fact.now) }
    ensures { result ≡ told
        (found + fact_symbols (fact_at (B.trees bank.now) (fact_of fact.now))) }
{
    let terms = fact.terms();
    symbols_of_terms(bank, terms.as_slice(), found)
}
