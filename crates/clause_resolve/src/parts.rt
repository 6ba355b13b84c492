//! The sizes of a clause's flat parts, counted before any is built.

ghost use Rattle.std.specs.Prelude.{◌≡◌, ℕ, ◌+◌, ◌<◌, length, map, flat_map};
ghost use Rattle.std.specs.List.{list_any};
ghost use Rattle.spec_trees.specs.Tree.{size};
ghost use Rattle.spec_clauses.specs.Fact.{Att, total, fact_size};
ghost use Rattle.spec_clauses.specs.Flat.{flat, flat_parts};
ghost use Rattle.spec_clauses.specs.Limits.{is_large_clause};
ghost use Rattle.term_tree.specs.Bank.{tree_at, capped};
ghost use Rattle.clause_form.specs.Facts.{fact_of};
ghost use Rattle.clause_form.specs.Seen.{fact_at, clause_at, IsFactIn, AreFactsIn, IsClauseIn};
ghost use Rattle.clause_resolve.specs.Budget.{is_over, some_over};

use clause_diffs::{add_symbols, size_of_diffs};
use clause_form::{Clause, Fact, is_data_symbol, size_of_fact};
use limits::MOST_SYMBOLS;
use term_tree::{Bank, Id, Node};

/// The size of `att` of a term, in whatever phase.
fn size_of_att<B: Bank>(bank: &B, id: Id) -> u64
    requires { id.index < length (B.trees bank.now) }
    ensures { result ≡ capped (1 + size (tree_at (B.trees bank.now) id)) }
{
    add_symbols(1, bank.size(id))
}

/// The size of all flat facts that `att` of a term stands for, in a phase.
fn flat_size_of_att<B: Bank>(bank: &B, phase: u32, id: Id) -> u64
    requires { id.index < length (B.trees bank.now) }
    ensures { result ≡ capped
        (total fact_size (flat (Att phase (tree_at (B.trees bank.now) id)))) }
{
    match bank.node(id) {
        Node::Var(_) => size_of_att(bank, id),
        Node::App(symbol, arguments) => {
            if !is_data_symbol(symbol) {
                return size_of_att(bank, id);
            }
            let mut symbols = 0u64;
            'each: for argument in arguments {
                symbols = add_symbols(symbols, flat_size_of_att(bank, phase, *argument));
            }
            symbols
        }
    }
}

/// The size of all flat facts that a fact stands for.
fn flat_size_of_fact<B: Bank>(bank: &B, fact: &Fact) -> u64
    requires { IsFactIn (B.trees bank.now) (fact_of fact.now) }
    ensures { result ≡ capped
        (total fact_size (flat (fact_at (B.trees bank.now) (fact_of fact.now)))) }
{
    match fact {
        Fact::Att(phase, term) => flat_size_of_att(bank, *phase, *term),
        Fact::Mess(..) | Fact::Tab(..) | Fact::Ev(..) | Fact::Mev(..) | Fact::Bad(_) => {
            size_of_fact(bank, fact)
        }
    }
}

/// The size of all flat facts that facts stand for.
fn flat_size_of_facts<B: Bank>(bank: &B, facts: &[Fact]) -> u64
    requires { AreFactsIn (B.trees bank.now) (map fact_of facts.now) }
    ensures { result ≡ capped
        (total fact_size (flat_map flat
        (map (fact_at (B.trees bank.now)) (map fact_of facts.now)))) }
{
    let mut symbols = 0u64;
    'each: for fact in facts {
        symbols = add_symbols(symbols, flat_size_of_fact(bank, fact));
    }
    symbols
}

/// Whether so many symbols are over the limit.
fn is_over_limit(symbols: u64) -> bool
    ensures { (n : ℕ) → symbols ≡ capped n → result ≡ is_over n }
{
    symbols > MOST_SYMBOLS
}

/// Whether `att` of some flat part of a term has, in a phase and with so many symbols more, more than the limit.
fn some_part_over<B: Bank>(bank: &B, phase: u32, id: Id, symbols: u64) -> bool
    requires { id.index < length (B.trees bank.now) }
    ensures { (n : ℕ) → symbols ≡ capped n → result ≡ some_over n
        (flat (Att phase (tree_at (B.trees bank.now) id))) }
{
    match bank.node(id) {
        Node::Var(_) => is_over_limit(add_symbols(size_of_att(bank, id), symbols)),
        Node::App(symbol, arguments) => {
            if !is_data_symbol(symbol) {
                return is_over_limit(add_symbols(size_of_att(bank, id), symbols));
            }
            'each: for argument in arguments {
                if some_part_over(bank, phase, *argument, symbols) {
                    return true;
                }
            }
            false
        }
    }
}

/// Whether some flat fact that a fact stands for has, with so many symbols more, more than the limit.
fn some_flat_over<B: Bank>(bank: &B, fact: &Fact, symbols: u64) -> bool
    requires { IsFactIn (B.trees bank.now) (fact_of fact.now) }
    ensures { (n : ℕ) → symbols ≡ capped n → result ≡ some_over n
        (flat (fact_at (B.trees bank.now) (fact_of fact.now))) }
{
    match fact {
        Fact::Att(phase, term) => some_part_over(bank, *phase, *term, symbols),
        Fact::Mess(..) | Fact::Tab(..) | Fact::Ev(..) | Fact::Mev(..) | Fact::Bad(_) => {
            is_over_limit(add_symbols(size_of_fact(bank, fact), symbols))
        }
    }
}

/// Whether a flat part of a clause, which keeps all its constraints, has more symbols than the limit. Takes no memory.
pub(crate) fn some_part_large<B: Bank>(bank: &B, clause: &Clause) -> bool
    requires { IsClauseIn (B.trees bank.now) clause.now }
    ensures { result ≡
        list_any is_large_clause (flat_parts (clause_at (B.trees bank.now) clause.now)) }
{
    let hyps = flat_size_of_facts(bank, &clause.hyps.items);
    let symbols = add_symbols(hyps, size_of_diffs(bank, &clause.diffs.items));
    some_flat_over(bank, &clause.concl, symbols)
}
