//! Rows of parts of an expression, for each of whose destructors a rule is chosen.

ghost use Rattle.std.specs.Prelude.{◌≡◌, ◌+◌, ◌-◌, ◌≤◌, List, [], ◌∷◌, ◌++◌, length, take, drop, IfOk, OnOk, MatchBool};
ghost use Rattle.spec_trees.specs.Tree.{Leaf};
ghost use Rattle.spec_calculus.specs.Bounds.{most_written_symbols};
ghost use Rattle.spec_calculus.specs.Syntax.{Symbol, Builds, Calls, Ruled};
ghost use Rattle.pi_tree.specs.Terms.{term_of};
ghost use Rattle.pi_tree.specs.Rules.{rule_of};
ghost use Rattle.term_tree.specs.Bank.{symbol_of, Grows};
ghost use Rattle.unify_match.specs.Seen.{IsReady};
ghost use Rattle.spec_terms.specs.Term as terms;
ghost use Rattle.spec_translation.specs.Conversion.{symbol_over};
ghost use Rattle.spec_translation.specs.Visit as translation;
ghost use Rattle.spec_choice_walks.specs.Instructions.{joined_last};
ghost use Rattle.clause_terms.specs.Conditions.{HasShortTuples};
ghost use Rattle.unified_visits.specs.Places.{protocol_at};
ghost use Rattle.unified_visits.specs.Room.{rule_base};
ghost use Rattle.unified_visits.specs.Short.{IsFitRule};
ghost use Rattle.visit_choices.specs.RuledRows.{IsRowOf, HasRow, IsApart};

use crate::choice::Choosing;
use clause_terms::term_in;
use destructor_rules::{rename_rule, rule_width};
use pi_tree::{Rule, Term};
use std::alloc::{AllocError, Global};
use term_tree::{Bank, Id, Sym};
use unify_match::{Binds, unify_all};

/// A row of parts: their terms, the number of the next new variable, and the bindings under which the chosen rules
/// apply.
#[derive(Drop)]
pub struct Row {
    pub ids: Vec<Id>,
    pub next: u32,
    pub binds: Binds,
}

impl Row {
    /// No parts. New variables begin at the number.
    pub fn new(alloc: Global, next: u32) -> Result<Row, AllocError>
        ensures ids { IfOk result (λ row. row.ids.items ≡ []) }
        ensures next { IfOk result (λ row. row.next ≡ next) }
        ensures pairs { IfOk result (λ row. row.binds.pairs ≡ []) }
        ensures ready { IfOk result (λ row. (all : List terms.Term) → IsReady all row.binds.pairs) }
    {
        let binds = Binds::new(alloc)?;
        Ok(Row {
            ids: Vec::new(alloc),
            next,
            binds,
        })
    }

    /// Takes that many terms off the end.
    fn take_last(&mut self, count: usize) -> Result<Vec<Id>, AllocError>
        requires { count ≤ length self.old.ids.items }
        ensures taken { IfOk result (λ ids. ids.items ≡ drop (length self.old.ids.items - count)
            self.old.ids.items) }
        ensures left { OnOk result (self.new.ids.items ≡ take (length self.old.ids.items - count)
            self.old.ids.items) }
        ensures next { self.new.next ≡ self.old.next }
        ensures binds { self.new.binds ≡ self.old.binds }
    {
        let at = self.ids.len() - count;
        self.ids.split_off(at)
    }
}

/// A term of the process comes behind the row. On `Err` the bank may have grown.
pub fn push_term<B: Bank>(
    choosing: &Choosing<'_>,
    bank: &mut B,
    row: &mut Row,
    term: &Term,
) -> Result<(), AllocError>
    requires known { HasRow (protocol_at choosing.now.place.now) choosing.now.visit.now
        (B.trees bank.old) row.old }
    requires short { HasShortTuples (term_of term.now) }
    ensures grows { Grows (B.trees bank.old) (B.trees bank.new) }
    ensures parts { OnOk result ((v : translation.Visit) → (parts : List Ruled) →
        IsRowOf (protocol_at choosing.now.place.now) choosing.now.visit.now v parts
        (B.trees bank.old) row.old →
        IsRowOf (protocol_at choosing.now.place.now) choosing.now.visit.now v
        (parts ++ Leaf (term_of term.now) ∷ []) (B.trees bank.new) row.new) }
{
    let place = choosing.place;
    let scope = &choosing.visit.scope;
    let id = term_in(place.alloc, bank, place.protocol, scope, term)?;
    row.ids.push(id)?;
    Ok(())
}

/// A constructor or a tuple takes the place of that many parts, the last ones. On `Err` the bank may have grown.
pub fn build<B: Bank>(
    choosing: &Choosing<'_>,
    bank: &mut B,
    row: &mut Row,
    symbol: Sym,
    count: usize,
) -> Result<(), AllocError>
    requires known { HasRow (protocol_at choosing.now.place.now) choosing.now.visit.now
        (B.trees bank.old) row.old }
    requires within { count ≤ length row.old.ids.items }
    ensures grows { Grows (B.trees bank.old) (B.trees bank.new) }
    ensures parts { OnOk result ((v : translation.Visit) → (parts : List Ruled) → (f : Symbol) →
        symbol_of symbol ≡ symbol_over (protocol_at choosing.now.place.now) count f →
        IsRowOf (protocol_at choosing.now.place.now) choosing.now.visit.now v parts
        (B.trees bank.old) row.old →
        IsRowOf (protocol_at choosing.now.place.now) choosing.now.visit.now v
        (joined_last (Builds f) count parts) (B.trees bank.new) row.new) }
{
    let parts = row.take_last(count)?;
    let id = bank.app(symbol, &parts)?;
    row.ids.push(id)?;
    Ok(())
}

/// A destructor, by a rule, takes the place of that many parts, the last ones, unless these can't become the rule's
/// left sides under the bindings. On `Err` the bank may have grown.
pub fn apply_rule<B: Bank>(
    choosing: &Choosing<'_>,
    bank: &mut B,
    row: &mut Row,
    rule: &Rule,
    count: usize,
) -> Result<bool, AllocError>
    requires known { HasRow (protocol_at choosing.now.place.now) choosing.now.visit.now
        (B.trees bank.old) row.old }
    requires within { count ≤ length row.old.ids.items }
    requires rule { IsFitRule (rule_of rule.now) }
    requires full { length (rule_of rule.now).left ≡ count }
    requires room { row.old.next + most_written_symbols ≤ rule_base }
    ensures grows { Grows (B.trees bank.old) (B.trees bank.new) }
    ensures parts { IfOk result (λ applies. (v : translation.Visit) → (parts : List Ruled) →
        IsRowOf (protocol_at choosing.now.place.now) choosing.now.visit.now v parts
        (B.trees bank.old) row.old → MatchBool applies
        (IsRowOf (protocol_at choosing.now.place.now) choosing.now.visit.now v
        (joined_last (Calls (rule_of rule.now)) count parts) (B.trees bank.new) row.new)
        (IsApart (protocol_at choosing.now.place.now) choosing.now.visit.now v
        (joined_last (Calls (rule_of rule.now)) count parts))) }
{
    let place = choosing.place;
    let arguments = row.take_last(count)?;
    let (sides, value) = rename_rule(place.alloc, bank, place.protocol, rule, row.next)?;
    if !unify_all(bank, &arguments, &sides.items, &mut row.binds)? {
        return Ok(false);
    }
    row.next += rule_width(rule);
    row.ids.push(value)?;
    Ok(true)
}

/// Where a walk to a choice has come: the row, how many choices the instructions that follow leave, and the number of
/// the choice among these.
#[derive(Drop)]
pub struct Walk {
    pub row: Row,
    pub left: usize,
    pub number: usize,
}
