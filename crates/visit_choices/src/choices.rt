//! The choices of a `let`: of a rule for each destructor that its expression applies.
//!
//! A choice has its number, from 0, in dictionary order. It is looked at by one walk along the instructions of the
//! expression, which takes from the number the rule of each destructor. Where the arguments of a destructor can't
//! become the left sides of its rule, nor can they in any other choice that begins with the same rules: all of these
//! are passed at once. Nothing is kept from one choice to the next.
//!
//! Whether the visits that go on are too large doesn't depend on constraints, so choices are looked at without them.

ghost use Rattle.std.specs.Prelude.{◌≡◌, ◌-◌, ◌*◌, ◌<◌, ◌≤◌, true, List, [], ◌∷◌, map, drop, IfOk, MatchBool};
ghost use Rattle.spec_calculus.specs.Bounds.{most_choices};
ghost use Rattle.spec_calculus.specs.Syntax.{Ruled, Calls};
ghost use Rattle.pi_tree.specs.Protocols.{protocol_of};
ghost use Rattle.pi_tree.specs.Patterns.{pattern_of};
ghost use Rattle.term_tree.specs.Bank.{Grows};
ghost use Rattle.spec_translation.specs.Visit as translation;
ghost use Rattle.spec_choice_walks.specs.Instructions as walks;
ghost use Rattle.spec_choice_walks.specs.Instructions.{Apply, choices_by};
ghost use Rattle.term_values.specs.Instructions.{instruction_of};
ghost use Rattle.unified_visits.specs.Places.{protocol_at};
ghost use Rattle.unified_visits.specs.Visits.{visit_at, IsButForDiffs};
ghost use Rattle.visit_choices.specs.Ways.{is_nowhere_way, Passes, AreCut};
ghost use Rattle.visit_choices.specs.Walks.{instructions_of, choices_of, IsChoosingIn, IsAlong, StandsBefore, StandsAtEnd, PassesFrom, LooksAt, HasChoices};

use crate::choice::Choosing;
use crate::row::{Row, Walk, apply_rule, build, push_term};
use crate::ways::{Looked, Passed, Way, way_to};
use clause_terms::constructor_symbol;
use pi_tree::Protocol;
use std::alloc::AllocError;
use term_tree::{Bank, Sym};
use term_values::{Instruction, rules_of};
use unified_visits::patterns::with_pattern;
use unified_visits::unified::visit_under;
use unified_visits::visit::Visit;
use unify_match::unify;

/// How many choices the instruction leaves.
fn choices_at(protocol: &Protocol, instruction: &Instruction<'_>) -> usize
    ensures { (later : List walks.Instruction) → choices_by (protocol_of protocol.now)
        (instruction_of instruction.now ∷ later) ≡
        result * choices_by (protocol_of protocol.now) later }
{
    match instruction {
        Instruction::Call(destructor, _) => rules_of(protocol, *destructor).len(),
        Instruction::Term(_) | Instruction::App(..) | Instruction::Tuple(_) => 1,
    }
}

/// How many choices the instructions leave, where these are few.
pub fn count_choices(protocol: &Protocol, instructions: &[Instruction<'_>]) -> usize
    requires { choices_by (protocol_of protocol.now) (map instruction_of instructions.now) ≤
        most_choices }
    ensures { result ≡ choices_by (protocol_of protocol.now)
        (map instruction_of instructions.now) }
{
    let mut count = 1usize;
    'each: for instruction in instructions {
        count = count.saturating_mul(choices_at(protocol, instruction));
    }
    count
}

/// Takes the choice's rule of a destructor, and tells whether it applies. On `Err` the bank may have grown.
fn call<B: Bank>(
    choosing: &Choosing<'_>,
    bank: &mut B,
    walk: &mut Walk,
    destructor: u32,
    count: usize,
) -> Result<bool, AllocError>
    requires stands { StandsBefore (protocol_at choosing.now.place.now) choosing.now.visit.now
        (Apply (Calls destructor) count) (B.trees bank.old) walk.old }
    ensures grows { Grows (B.trees bank.old) (B.trees bank.new) }
    ensures along { IfOk result (λ applies. (v : translation.Visit) →
        (later : List walks.Instruction) → (rs : List Ruled) →
        IsAlong (protocol_at choosing.now.place.now) choosing.now.visit.now v
        (Apply (Calls destructor) count ∷ later) rs (B.trees bank.old) walk.old → MatchBool applies
        (IsAlong (protocol_at choosing.now.place.now) choosing.now.visit.now v later rs
        (B.trees bank.new) walk.new)
        (AreCut (protocol_at choosing.now.place.now) v (pattern_of choosing.now.pattern.now) rs
        (walk.new.left - walk.new.number))) }
{
    let rules = rules_of(choosing.place.protocol, destructor);
    walk.left /= rules.len();
    let rule = &rules[walk.number / walk.left];
    walk.number %= walk.left;
    apply_rule(choosing, bank, &mut walk.row, rule, count)
}

/// Follows an instruction, and tells whether its rule, if it has one, applies. On `Err` the bank may have grown.
fn step<B: Bank>(
    choosing: &Choosing<'_>,
    bank: &mut B,
    walk: &mut Walk,
    instruction: &Instruction<'_>,
) -> Result<bool, AllocError>
    requires stands { StandsBefore (protocol_at choosing.now.place.now) choosing.now.visit.now
        (instruction_of instruction.now) (B.trees bank.old) walk.old }
    ensures grows { Grows (B.trees bank.old) (B.trees bank.new) }
    ensures along { IfOk result (λ applies. (v : translation.Visit) →
        (later : List walks.Instruction) → (rs : List Ruled) →
        IsAlong (protocol_at choosing.now.place.now) choosing.now.visit.now v
        (instruction_of instruction.now ∷ later) rs (B.trees bank.old) walk.old → MatchBool applies
        (IsAlong (protocol_at choosing.now.place.now) choosing.now.visit.now v later rs
        (B.trees bank.new) walk.new)
        (AreCut (protocol_at choosing.now.place.now) v (pattern_of choosing.now.pattern.now) rs
        (walk.new.left - walk.new.number))) }
{
    match instruction {
        Instruction::Term(term) => {
            push_term(choosing, bank, &mut walk.row, term)?;
            Ok(true)
        }
        Instruction::App(constructor, count) => {
            let symbol = constructor_symbol(choosing.place.protocol, *constructor);
            build(choosing, bank, &mut walk.row, symbol, *count)?;
            Ok(true)
        }
        Instruction::Tuple(count) => {
            let symbol = Sym::Tuple(*count as u32);
            build(choosing, bank, &mut walk.row, symbol, *count)?;
            Ok(true)
        }
        Instruction::Call(destructor, count) => call(choosing, bank, walk, *destructor, *count),
    }
}

/// How the choice goes on at whose end the walk stands, with the constraints of a visit that is like that of the `let`. On
/// `Err` the bank may have grown.
fn finish<B: Bank>(
    choosing: &Choosing<'_>,
    bank: &mut B,
    walk: &mut Walk,
    visit: &Visit,
) -> Result<Way, AllocError>
    requires stands { StandsAtEnd (protocol_at choosing.now.place.now) choosing.now.visit.now
        (B.trees bank.old) walk.old }
    requires like { IsButForDiffs (B.trees bank.old) choosing.now.visit.now visit.now }
    ensures grows { Grows (B.trees bank.old) (B.trees bank.new) }
    ensures passes { IfOk result (λ way. (v : translation.Visit) → (rs : List Ruled) →
        IsAlong (protocol_at choosing.now.place.now) choosing.now.visit.now v [] rs
        (B.trees bank.old) walk.old → PassesFrom choosing.now visit.now v rs
        (B.trees bank.new) (record { count = 1; way = way })) }
{
    let place = choosing.place;
    let row = &mut walk.row;
    let value = row.ids[0];
    let from = row.next + 1;
    let (made, target) = with_pattern(place, bank, visit, from, choosing.pattern)?;
    if !unify(bank, value, target, &mut row.binds)? {
        return Ok(Way::Nowhere);
    }
    let found = visit_under(place.alloc, bank, &row.binds, &made)?;
    Ok(way_to(bank, found))
}

/// Follows all instructions, and tells how the choice goes on, or how many are cut with it. On `Err` the bank may have grown.
fn follow<B: Bank>(
    choosing: &Choosing<'_>,
    bank: &mut B,
    walk: &mut Walk,
    visit: &Visit,
) -> Result<Passed, AllocError>
    requires stands { (v : translation.Visit) × (rs : List Ruled)
        × IsAlong (protocol_at choosing.now.place.now) choosing.now.visit.now v
        (instructions_of choosing.now) rs (B.trees bank.old) walk.old }
    requires like { IsButForDiffs (B.trees bank.old) choosing.now.visit.now visit.now }
    ensures grows { Grows (B.trees bank.old) (B.trees bank.new) }
    ensures passes { IfOk result (λ passed. (v : translation.Visit) → (rs : List Ruled) →
        IsAlong (protocol_at choosing.now.place.now) choosing.now.visit.now v
        (instructions_of choosing.now) rs (B.trees bank.old) walk.old →
        PassesFrom choosing.now visit.now v rs (B.trees bank.new) passed) }
{
    'each: for instruction in choosing.instructions {
        if !step(choosing, bank, walk, instruction)? {
            return Ok(Passed {
                count: walk.left - walk.number,
                way: Way::Nowhere,
            });
        }
    }
    let way = finish(choosing, bank, walk, visit)?;
    Ok(Passed { count: 1, way })
}

/// Choices from the one of that number on, and how they go on, with the constraints of a visit that is like that of the
/// `let`. On `Err` the bank may have grown.
fn walk_to<B: Bank>(
    choosing: &Choosing<'_>,
    bank: &mut B,
    number: usize,
    visit: &Visit,
) -> Result<Passed, AllocError>
    requires known { IsChoosingIn (B.trees bank.old) choosing.now }
    requires within { number < choosing.now.count }
    requires like { IsButForDiffs (B.trees bank.old) choosing.now.visit.now visit.now }
    ensures grows { Grows (B.trees bank.old) (B.trees bank.new) }
    ensures passes { IfOk result (λ passed. PassesFrom choosing.now visit.now
        (visit_at (B.trees bank.old) choosing.now.visit.now)
        (drop number (choices_of choosing.now)) (B.trees bank.new) passed) }
{
    let row = Row::new(choosing.place.alloc, choosing.visit.next)?;
    let mut walk = Walk {
        row,
        left: choosing.count,
        number,
    };
    let passed = follow(choosing, bank, &mut walk, visit);
    drop(walk);
    passed
}

/// Choices from the one of that number on, and how they go on. Where this is nowhere, the bank is as before; on `Err`
/// it may have grown.
pub fn choices_from<B: Bank>(
    choosing: &Choosing<'_>,
    bank: &mut B,
    number: usize,
) -> Result<Passed, AllocError>
    requires known { IsChoosingIn (B.trees bank.old) choosing.now }
    requires within { number < choosing.now.count }
    ensures grows { Grows (B.trees bank.old) (B.trees bank.new) }
    ensures back { IfOk result (λ passed. is_nowhere_way passed.way ≡ true →
        B.trees bank.new ≡ B.trees bank.old) }
    ensures passes { IfOk result (λ passed. Passes (protocol_at choosing.now.place.now)
        (visit_at (B.trees bank.old) choosing.now.visit.now)
        (pattern_of choosing.now.pattern.now) (drop number (choices_of choosing.now))
        (B.trees bank.new) passed) }
{
    let mark = bank.mark();
    let passed = walk_to(choosing, bank, number, choosing.visit)?;
    if !passed.is_nowhere() {
        return Ok(passed);
    }
    bank.back(mark);
    Ok(passed)
}

/// How many choices from the one of that number on are passed together, and what is found of them, by the visit without
/// constraints. The bank is as before; on `Err` it may have grown.
fn look_from<B: Bank>(
    choosing: &Choosing<'_>,
    bank: &mut B,
    number: usize,
    bare: &Visit,
) -> Result<(usize, Looked), AllocError>
    requires known { IsChoosingIn (B.trees bank.old) choosing.now }
    requires within { number < choosing.now.count }
    requires like { IsButForDiffs (B.trees bank.old) choosing.now.visit.now bare.now }
    ensures grows { Grows (B.trees bank.old) (B.trees bank.new) }
    ensures back { IfOk result (λ found. B.trees bank.new ≡ B.trees bank.old) }
    ensures looks { IfOk result (λ found. LooksAt (B.trees bank.old) choosing.now number found.0
        found.1) }
{
    let mark = bank.mark();
    let passed = walk_to(choosing, bank, number, bare)?;
    bank.back(mark);
    Ok((passed.count, passed.looked()))
}

/// What is found of all choices, by the visit without constraints. The bank is as before; on `Err` it may have grown.
fn look_along<B: Bank>(
    choosing: &Choosing<'_>,
    bank: &mut B,
    bare: &Visit,
) -> Result<Looked, AllocError>
    requires known { IsChoosingIn (B.trees bank.old) choosing.now }
    requires like { IsButForDiffs (B.trees bank.old) choosing.now.visit.now bare.now }
    ensures grows { Grows (B.trees bank.old) (B.trees bank.new) }
    ensures back { IfOk result (λ looked. B.trees bank.new ≡ B.trees bank.old) }
    ensures looked { IfOk result (HasChoices (B.trees bank.old) choosing.now) }
{
    let mut number = 0usize;
    let mut large = false;
    let mut going = 0usize;
    'each: while number < choosing.count {
        let (count, looked) = look_from(choosing, bank, number, bare)?;
        large = large || looked.large;
        going += looked.going;
        number += count;
    }
    Ok(Looked { large, going })
}

/// What is found of all choices, which takes no time for the visit's constraints. The bank is as before; on `Err` it may
/// have grown.
pub fn look_at_choices<B: Bank>(choosing: &Choosing<'_>, bank: &mut B) -> Result<Looked, AllocError>
    requires { IsChoosingIn (B.trees bank.old) choosing.now }
    ensures grows { Grows (B.trees bank.old) (B.trees bank.new) }
    ensures back { IfOk result (λ looked. B.trees bank.new ≡ B.trees bank.old) }
    ensures looked { IfOk result (HasChoices (B.trees bank.old) choosing.now) }
{
    let visit = choosing.visit;
    if visit.diffs.has_no_block() {
        return look_along(choosing, bank, visit);
    }
    let bare = visit.without_diffs(choosing.place.alloc)?;
    look_along(choosing, bank, &bare)
}
