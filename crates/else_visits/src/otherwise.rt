//! The else branch of a `let`: a constraint for each choice of rules for the destructors of its expression, that the arguments
//! of these are not the left sides, or the value is not the pattern's term.
//!
//! The constraint of a choice is looked at by one walk along the instructions of the expression. The variables of the rules
//! and of the pattern are numbered from the visit's next one on, and the constraint binds them.

ghost use Rattle.std.specs.Prelude.{◌≡◌, ◌+◌, ◌-◌, ◌<◌, ◌≤◌, [], ◌∷◌, ◌++◌, List, length, map, take, drop, IfOk, OnOk};
ghost use Rattle.spec_trees.specs.Tree.{Leaf};
ghost use Rattle.spec_calculus.specs.Bounds.{most_points, most_written_symbols};
ghost use Rattle.spec_calculus.specs.Points.{nodes, point_after};
ghost use Rattle.spec_calculus.specs.Syntax.{Symbol, Builds, Calls, Ruled};
ghost use Rattle.spec_calculus.specs.Syntax as calculus;
ghost use Rattle.spec_calculus.specs.Choices.{choices};
ghost use Rattle.pi_tree.specs.Patterns.{pattern_of};
ghost use Rattle.pi_tree.specs.Processes.{process_of};
ghost use Rattle.pi_tree.specs.Rules.{rule_of};
ghost use Rattle.pi_tree.specs.Terms.{term_of};
ghost use Rattle.term_tree.specs.Bank.{symbol_of, Names, Grows};
ghost use Rattle.spec_translation.specs.Conversion.{symbol_over};
ghost use Rattle.spec_translation.specs.Otherwise.{choice_diff, otherwise_visit};
ghost use Rattle.spec_translation.specs.Conversion as translation;
ghost use Rattle.spec_translation.specs.InTerms.{numbered_behind};
ghost use Rattle.spec_translation.specs.Visit as visits;
ghost use Rattle.spec_choice_walks.specs.Instructions as walks;
ghost use Rattle.spec_choice_walks.specs.Instructions.{Apply, joined_last};
ghost use Rattle.term_values.specs.Instructions.{instruction_of};
ghost use Rattle.clause_terms.specs.Conditions.{HasShortTuples};
ghost use Rattle.unified_visits.specs.Places.{protocol_at, IsAt};
ghost use Rattle.unified_visits.specs.Room.{rule_base};
ghost use Rattle.unified_visits.specs.Short.{IsFitRule};
ghost use Rattle.else_visits.specs.Sides.{AreSidesOf, HasSides, HasWholeSides};
ghost use Rattle.else_visits.specs.Sides.{IsAlongSides, StandsBeforeSides};
ghost use Rattle.unified_visits.specs.Visits.{visit_at, IsVisitIn, NamesVisit, ShowsDiff, ShowDiffs};
ghost use Rattle.visit_choices.specs.Walks.{choices_of, instructions_of, IsChoosingIn};

use clause_diffs::{Diff, Diffs, Ids};
use clause_terms::{Holes, constructor_symbol, pattern_term, term_in};
use destructor_rules::{rename_rule, rule_width};
use pi_tree::{Process, Rule, Term};
use std::alloc::{AllocError, Global};
use term_tree::{Bank, Id, Sym};
use term_values::{Instruction, rules_of};
use unified_visits::numbers::bound_numbers;
use unified_visits::place::Place;
use unified_visits::spans::numbered_from;
use unified_visits::visit::Visit;
use visit_choices::choice::Choosing;

/// A row of parts: their terms, the number of the next new variable, the arguments of all destructors so far, and the left
/// sides of their rules.
#[derive(Drop)]
pub struct Sides {
    pub ids: Vec<Id>,
    pub next: u32,
    pub left: Vec<Id>,
    pub right: Vec<Id>,
}

/// Where a walk to a choice has come: the sides, how many choices the instructions that follow leave, and the number of the
/// choice among these.
#[derive(Drop)]
pub struct SideWalk {
    pub sides: Sides,
    pub left: usize,
    pub number: usize,
}

impl Sides {
    /// No parts. New variables begin at the number.
    fn new(alloc: Global, next: u32) -> Sides
        ensures ids { result.ids.items ≡ [] }
        ensures left { result.left.items ≡ [] }
        ensures right { result.right.items ≡ [] }
        ensures next { result.next ≡ next }
    {
        Sides {
            ids: Vec::new(alloc),
            next,
            left: Vec::new(alloc),
            right: Vec::new(alloc),
        }
    }

    /// Takes that many terms off the end.
    fn take_last(&mut self, count: usize) -> Result<Vec<Id>, AllocError>
        requires { count ≤ length self.old.ids.items }
        ensures taken { IfOk result (λ ids. ids.items ≡ drop (length self.old.ids.items - count)
            self.old.ids.items) }
        ensures ids { OnOk result (self.new.ids.items ≡ take (length self.old.ids.items - count)
            self.old.ids.items) }
        ensures left { self.new.left ≡ self.old.left }
        ensures right { self.new.right ≡ self.old.right }
        ensures next { self.new.next ≡ self.old.next }
    {
        let at = self.ids.len() - count;
        self.ids.split_off(at)
    }
}

/// A term of the process comes behind the row. On `Err` the bank may have grown.
fn push_side<B: Bank>(
    choosing: &Choosing<'_>,
    bank: &mut B,
    sides: &mut Sides,
    term: &Term,
) -> Result<(), AllocError>
    requires known { HasSides (protocol_at choosing.now.place.now) choosing.now.visit.now
        (B.trees bank.old) sides.old }
    requires short { HasShortTuples (term_of term.now) }
    ensures grows { Grows (B.trees bank.old) (B.trees bank.new) }
    ensures parts { OnOk result ((v : visits.Visit) → (parts : List Ruled) →
        AreSidesOf (protocol_at choosing.now.place.now) choosing.now.visit.now v parts
        (B.trees bank.old) sides.old →
        AreSidesOf (protocol_at choosing.now.place.now) choosing.now.visit.now v
        (parts ++ Leaf (term_of term.now) ∷ []) (B.trees bank.new) sides.new) }
{
    let place = choosing.place;
    let scope = &choosing.visit.scope;
    let id = term_in(place.alloc, bank, place.protocol, scope, term)?;
    sides.ids.push(id)?;
    Ok(())
}

/// A constructor or a tuple takes the place of that many parts, the last ones. On `Err` the bank may have grown.
fn build_side<B: Bank>(
    choosing: &Choosing<'_>,
    bank: &mut B,
    sides: &mut Sides,
    symbol: Sym,
    count: usize,
) -> Result<(), AllocError>
    requires known { HasSides (protocol_at choosing.now.place.now) choosing.now.visit.now
        (B.trees bank.old) sides.old }
    requires within { count ≤ length sides.old.ids.items }
    ensures grows { Grows (B.trees bank.old) (B.trees bank.new) }
    ensures parts { OnOk result ((v : visits.Visit) → (parts : List Ruled) → (f : Symbol) →
        symbol_of symbol ≡ symbol_over (protocol_at choosing.now.place.now) count f →
        AreSidesOf (protocol_at choosing.now.place.now) choosing.now.visit.now v parts
        (B.trees bank.old) sides.old →
        AreSidesOf (protocol_at choosing.now.place.now) choosing.now.visit.now v
        (joined_last (Builds f) count parts) (B.trees bank.new) sides.new) }
{
    let parts = sides.take_last(count)?;
    let id = bank.app(symbol, &parts)?;
    sides.ids.push(id)?;
    Ok(())
}

/// A destructor, by a rule, takes the place of that many parts, the last ones: these are arguments, and what they would
/// have to be are the rule's left sides. On `Err` the bank may have grown.
fn call_side<B: Bank>(
    choosing: &Choosing<'_>,
    bank: &mut B,
    sides: &mut Sides,
    rule: &Rule,
    count: usize,
) -> Result<(), AllocError>
    requires known { HasSides (protocol_at choosing.now.place.now) choosing.now.visit.now
        (B.trees bank.old) sides.old }
    requires within { count ≤ length sides.old.ids.items }
    requires rule { IsFitRule (rule_of rule.now) }
    requires room { sides.old.next + most_written_symbols ≤ rule_base }
    ensures grows { Grows (B.trees bank.old) (B.trees bank.new) }
    ensures parts { OnOk result ((v : visits.Visit) → (parts : List Ruled) →
        AreSidesOf (protocol_at choosing.now.place.now) choosing.now.visit.now v parts
        (B.trees bank.old) sides.old →
        AreSidesOf (protocol_at choosing.now.place.now) choosing.now.visit.now v
        (joined_last (Calls (rule_of rule.now)) count parts) (B.trees bank.new) sides.new) }
{
    let place = choosing.place;
    let mut arguments = sides.take_last(count)?;
    let (mut lefts, value) = rename_rule(place.alloc, bank, place.protocol, rule, sides.next)?;
    sides.left.append(&mut arguments)?;
    sides.right.append(&mut lefts.items)?;
    sides.next += rule_width(rule);
    sides.ids.push(value)?;
    Ok(())
}

/// Takes the choice's rule of a destructor. On `Err` the bank may have grown.
fn call_next<B: Bank>(
    choosing: &Choosing<'_>,
    bank: &mut B,
    walk: &mut SideWalk,
    destructor: u32,
    count: usize,
) -> Result<(), AllocError>
    requires stands { StandsBeforeSides (protocol_at choosing.now.place.now)
        choosing.now.visit.now (Apply (Calls destructor) count) (B.trees bank.old) walk.old }
    ensures grows { Grows (B.trees bank.old) (B.trees bank.new) }
    ensures along { OnOk result ((v : visits.Visit) → (later : List walks.Instruction) →
        (ruled : Ruled) →
        IsAlongSides (protocol_at choosing.now.place.now) choosing.now.visit.now v
        (Apply (Calls destructor) count ∷ later) ruled (B.trees bank.old) walk.old →
        IsAlongSides (protocol_at choosing.now.place.now) choosing.now.visit.now v later ruled
        (B.trees bank.new) walk.new) }
{
    let rules = rules_of(choosing.place.protocol, destructor);
    walk.left /= rules.len();
    let rule = &rules[walk.number / walk.left];
    walk.number %= walk.left;
    call_side(choosing, bank, &mut walk.sides, rule, count)
}

/// Follows an instruction. On `Err` the bank may have grown.
fn step_side<B: Bank>(
    choosing: &Choosing<'_>,
    bank: &mut B,
    walk: &mut SideWalk,
    instruction: &Instruction<'_>,
) -> Result<(), AllocError>
    requires stands { StandsBeforeSides (protocol_at choosing.now.place.now)
        choosing.now.visit.now (instruction_of instruction.now) (B.trees bank.old) walk.old }
    ensures grows { Grows (B.trees bank.old) (B.trees bank.new) }
    ensures along { OnOk result ((v : visits.Visit) → (later : List walks.Instruction) →
        (ruled : Ruled) →
        IsAlongSides (protocol_at choosing.now.place.now) choosing.now.visit.now v
        (instruction_of instruction.now ∷ later) ruled (B.trees bank.old) walk.old →
        IsAlongSides (protocol_at choosing.now.place.now) choosing.now.visit.now v later ruled
        (B.trees bank.new) walk.new) }
{
    match instruction {
        Instruction::Term(term) => push_side(choosing, bank, &mut walk.sides, term),
        Instruction::App(constructor, count) => {
            let symbol = constructor_symbol(choosing.place.protocol, *constructor);
            build_side(choosing, bank, &mut walk.sides, symbol, *count)
        }
        Instruction::Tuple(count) => {
            let symbol = Sym::Tuple(*count as u32);
            build_side(choosing, bank, &mut walk.sides, symbol, *count)
        }
        Instruction::Call(destructor, count) => {
            call_next(choosing, bank, walk, *destructor, *count)
        }
    }
}

/// The pattern's term in a constraint: each of its variables is as far behind the base as its own number says. On `Err` the
/// bank may have grown.
fn pattern_behind<B: Bank>(
    choosing: &Choosing<'_>,
    bank: &mut B,
    base: u32,
) -> Result<Id, AllocError>
    requires { IsVisitIn (B.trees bank.old) choosing.now.visit.now }
    ensures grows { Grows (B.trees bank.old) (B.trees bank.new) }
    ensures names { IfOk result (λ id. Names (B.trees bank.new) id
        (translation.pattern_term (protocol_at choosing.now.place.now)
        (visit_at (B.trees bank.old) choosing.now.visit.now).scope (numbered_behind base)
        (pattern_of choosing.now.pattern.now))) }
{
    let place = choosing.place;
    let numbers = bound_numbers(place.alloc, choosing.pattern)?;
    let at = numbered_from(base, &numbers)?;
    let holes = Holes {
        scope: &choosing.visit.scope,
        at,
    };
    pattern_term(place.alloc, bank, place.protocol, &holes, choosing.pattern)
}

/// The terms with one more at the end.
fn with_last(mut terms: Vec<Id>, last: Id) -> Result<Ids, AllocError>
    ensures { IfOk result (λ ids. ids ≡ terms.items ++ last ∷ []) }
{
    terms.push(last)?;
    Ok(Ids { items: terms })
}

/// The constraint whose sides these are: the value has to be the pattern's term too. On `Err` the bank may have grown.
fn finish_side<B: Bank>(
    choosing: &Choosing<'_>,
    bank: &mut B,
    sides: Sides,
) -> Result<Diff, AllocError>
    requires { HasWholeSides (protocol_at choosing.now.place.now) choosing.now.visit.now
        (B.trees bank.old) sides }
    ensures grows { Grows (B.trees bank.old) (B.trees bank.new) }
    ensures shows { IfOk result (λ diff. (v : visits.Visit) → (ruled : Ruled) →
        AreSidesOf (protocol_at choosing.now.place.now) choosing.now.visit.now v (ruled ∷ [])
        (B.trees bank.old) sides → ShowsDiff (B.trees bank.new) diff
        (choice_diff (protocol_at choosing.now.place.now) v.scope
        (pattern_of choosing.now.pattern.now) ruled)) }
{
    let target = pattern_behind(choosing, bank, sides.next)?;
    let value = sides.ids[0];
    let Sides {
        ids: _,
        next: _,
        left,
        right,
    } = sides;
    let left = with_last(left, value)?;
    let right = with_last(right, target)?;
    Ok(Diff {
        first: choosing.visit.next,
        left,
        right,
    })
}

/// Follows all instructions. On `Err` the bank may have grown.
fn follow_sides<B: Bank>(
    choosing: &Choosing<'_>,
    bank: &mut B,
    walk: &mut SideWalk,
) -> Result<(), AllocError>
    requires stands { (v : visits.Visit) × (ruled : Ruled)
        × IsAlongSides (protocol_at choosing.now.place.now) choosing.now.visit.now v
        (instructions_of choosing.now) ruled (B.trees bank.old) walk.old }
    ensures grows { Grows (B.trees bank.old) (B.trees bank.new) }
    ensures along { OnOk result ((v : visits.Visit) → (ruled : Ruled) →
        IsAlongSides (protocol_at choosing.now.place.now) choosing.now.visit.now v
        (instructions_of choosing.now) ruled (B.trees bank.old) walk.old →
        IsAlongSides (protocol_at choosing.now.place.now) choosing.now.visit.now v [] ruled
        (B.trees bank.new) walk.new) }
{
    'each: for instruction in choosing.instructions {
        step_side(choosing, bank, walk, instruction)?;
    }
    Ok(())
}

/// The constraint of the choice of that number. On `Err` the bank may have grown.
fn diff_of_choice<B: Bank>(
    choosing: &Choosing<'_>,
    bank: &mut B,
    number: usize,
) -> Result<Diff, AllocError>
    requires known { IsChoosingIn (B.trees bank.old) choosing.now }
    requires within { number < choosing.now.count }
    ensures grows { Grows (B.trees bank.old) (B.trees bank.new) }
    ensures shows { IfOk result (λ diff. (ruled : Ruled) → (others : List Ruled) →
        drop number (choices_of choosing.now) ≡ ruled ∷ others →
        ShowsDiff (B.trees bank.new) diff (choice_diff (protocol_at choosing.now.place.now)
        (visit_at (B.trees bank.old) choosing.now.visit.now).scope
        (pattern_of choosing.now.pattern.now) ruled)) }
{
    let sides = Sides::new(choosing.place.alloc, choosing.visit.next);
    let mut walk = SideWalk {
        sides,
        left: choosing.count,
        number,
    };
    follow_sides(choosing, bank, &mut walk)?;
    let SideWalk {
        sides,
        left: _,
        number: _,
    } = walk;
    finish_side(choosing, bank, sides)
}

/// The constraints of all choices, in order. On `Err` the bank may have grown.
fn diffs_of_choices<B: Bank>(choosing: &Choosing<'_>, bank: &mut B) -> Result<Diffs, AllocError>
    requires { IsChoosingIn (B.trees bank.old) choosing.now }
    ensures grows { Grows (B.trees bank.old) (B.trees bank.new) }
    ensures show { IfOk result (λ made. ShowDiffs (B.trees bank.new) made
        (map (choice_diff (protocol_at choosing.now.place.now)
        (visit_at (B.trees bank.old) choosing.now.visit.now).scope
        (pattern_of choosing.now.pattern.now)) (choices_of choosing.now))) }
{
    let mut made = Diffs::new(choosing.place.alloc);
    'each: for number in 0..choosing.count {
        let diff = diff_of_choice(choosing, bank, number)?;
        made.push(diff)?;
    }
    Ok(made)
}

/// The visit of an else branch. On `Err` the bank may have grown.
fn after_all_choices<B: Bank>(choosing: &Choosing<'_>, bank: &mut B) -> Result<Visit, AllocError>
    requires { IsChoosingIn (B.trees bank.old) choosing.now }
    ensures grows { Grows (B.trees bank.old) (B.trees bank.new) }
    ensures known { IfOk result (λ made. IsVisitIn (B.trees bank.new) made) }
    ensures sessions { IfOk result (λ made. made.sessions ≡ choosing.now.visit.now.sessions) }
    ensures names { IfOk result (λ made. (expression : calculus.Expression) →
        choices_of choosing.now ≡ map (λ c. c.ruled)
        (choices (protocol_at choosing.now.place.now) expression) →
        NamesVisit (B.trees bank.new) made (otherwise_visit (protocol_at choosing.now.place.now)
        (visit_at (B.trees bank.old) choosing.now.visit.now)
        (pattern_of choosing.now.pattern.now) expression)) }
{
    let besides = diffs_of_choices(choosing, bank)?;
    choosing.visit.with_diffs(choosing.place.alloc, besides)
}

/// Where a branch begins: its process, and its place.
#[derive(Clone, Copy)]
pub struct Start<'a> {
    pub process: &'a Process,
    pub place: Place<'a>,
}

/// Where the else branch of a `let` begins: behind the other one.
pub fn else_branch<'a>(place: &Place<'a>, next: &'a Process, otherwise: &'a Process) -> Start<'a>
    requires { place.now.point + length (nodes (process_of next.now)) ≤ most_points }
    ensures process { process_of result.process.now ≡ process_of otherwise.now }
    ensures place { IsAt (protocol_at place.now)
        (point_after (place.now.point + 1) (process_of next.now)) result.place }
{
    Start {
        process: otherwise,
        place: place.after(next),
    }
}

/// The visit of an else branch: for one that does nothing no constraint is made. On `Err` the bank may have grown.
pub fn else_visit<B: Bank>(
    choosing: &Choosing<'_>,
    bank: &mut B,
    process: &Process,
) -> Result<Visit, AllocError>
    requires { IsChoosingIn (B.trees bank.old) choosing.now }
    ensures grows { Grows (B.trees bank.old) (B.trees bank.new) }
    ensures known { IfOk result (λ made. IsVisitIn (B.trees bank.new) made) }
    ensures sessions { IfOk result (λ made. made.sessions ≡ choosing.now.visit.now.sessions) }
    ensures names { IfOk result (λ made. (expression : calculus.Expression) →
        choices_of choosing.now ≡ map (λ c. c.ruled)
        (choices (protocol_at choosing.now.place.now) expression) →
        (process_of process.now ≡ calculus.Nil → ⊥) →
        NamesVisit (B.trees bank.new) made (otherwise_visit (protocol_at choosing.now.place.now)
        (visit_at (B.trees bank.old) choosing.now.visit.now)
        (pattern_of choosing.now.pattern.now) expression)) }
{
    match process {
        Process::Nil => choosing.visit.for_nothing(choosing.place.alloc),
        _ => after_all_choices(choosing, bank),
    }
}
