//! Keys of facts: facts that are the same have the same key.

ghost use Rattle.std.specs.Prelude.{◌≡◌, ◌<◌, length, map, flat_map};
ghost use Rattle.term_tree.specs.Bank.{symbol_of, tree_at, AreKnown};
ghost use Rattle.clause_form.specs.Facts.{fact_of};
ghost use Rattle.clause_form.specs.Heads.{head_seen};
ghost use Rattle.clause_form.specs.Seen.{fact_at, IsFactIn};
ghost use Rattle.clause_form.specs.Keys.{symbol_number as number_of, term_numbers, mixed as mixed_key, keyed, fact_key, head_number as number_of_head};

use crate::facts::Fact;
use crate::heads::Head;
use term_tree::{Bank, Id, Node, Sym};

/// What a key is multiplied by before a number is added: 2^64 over the golden ratio.
const FACTOR: u64 = 11400714819323198485;

/// A key with one number more.
#[tactic(auto, unfolding(crate::specs::Keys::mixed))]
pub(crate) fn mixed(key: u64, number: u64) -> u64
    ensures { result ≡ mixed_key key number }
{
    key.wrapping_mul(FACTOR).wrapping_add(number)
}

/// The number of a symbol.
fn symbol_number(symbol: Sym) -> u64
    ensures { result ≡ number_of (symbol_of symbol) }
{
    match symbol {
        Sym::Ctor(number) => 8 * u64::from(number),
        Sym::Data(number) => 8 * u64::from(number) + 1,
        Sym::Tuple(parts) => 8 * u64::from(parts) + 2,
        Sym::Free(name) => 8 * u64::from(name) + 3,
        Sym::Point(point) => 8 * u64::from(point) + 4,
        Sym::Attacker => 5,
    }
}

/// A key with the numbers of a term. Takes no memory.
fn key_of_term<B: Bank>(bank: &B, id: Id, key: u64) -> u64
    requires { id.index < length (B.trees bank.now) }
    ensures { result ≡ keyed key (term_numbers (tree_at (B.trees bank.now) id)) }
{
    match bank.node(id) {
        Node::Var(number) => mixed(key, 8 * u64::from(number) + 7),
        Node::App(symbol, arguments) => {
            let mut found = mixed(key, symbol_number(symbol));
            'each: for argument in arguments {
                found = key_of_term(bank, *argument, found);
            }
            found
        }
    }
}

/// A key with the numbers of terms.
fn key_of_terms<B: Bank>(bank: &B, terms: &[Id], key: u64) -> u64
    requires { AreKnown (B.trees bank.now) terms.now }
    ensures { result ≡ keyed key (flat_map term_numbers
        (map (tree_at (B.trees bank.now)) terms.now)) }
{
    let mut found = key;
    for term in terms {
        found = key_of_term(bank, *term, found);
    }
    found
}

/// The number of a head.
fn head_number(head: Head) -> u64
    ensures { result ≡ number_of_head (head_seen head) }
{
    match head {
        Head::Att(phase) => 8 * u64::from(phase),
        Head::Mess(phase) => 8 * u64::from(phase) + 1,
        Head::Tab(table) => 8 * u64::from(table) + 5,
        Head::Ev(event) => 8 * u64::from(event) + 2,
        Head::Mev(event) => 8 * u64::from(event) + 3,
        Head::Bad => 4,
    }
}

/// The key of a fact. Takes no memory.
pub(crate) fn key_of_fact<B: Bank>(bank: &B, fact: &Fact) -> u64
    requires { IsFactIn (B.trees bank.now) (fact_of fact.now) }
    ensures { result ≡ fact_key (fact_at (B.trees bank.now) (fact_of fact.now)) }
{
    let terms = fact.terms();
    key_of_terms(bank, terms.as_slice(), head_number(fact.head()))
}
