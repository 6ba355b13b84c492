//! The visits of the branches of a `let` and a `get`.

ghost use Rattle.std.specs.Prelude.{◌≡◌, ℕ, ◌+◌, ◌<◌, ◌≤◌, Option, List, map, IfOk, MatchOption};
ghost use Rattle.spec_calculus.specs.Bounds.{most_choices};
ghost use Rattle.spec_calculus.specs.Syntax as calculus;
ghost use Rattle.pi_tree.specs.Expressions.{expression_of};
ghost use Rattle.pi_tree.specs.Patterns.{pattern_of};
ghost use Rattle.pi_tree.specs.Processes.{process_of};
ghost use Rattle.term_tree.specs.Bank.{Grows};
ghost use Rattle.spec_translation.specs.Visit as translation;
ghost use Rattle.spec_choice_walks.specs.Instructions.{instructions};
ghost use Rattle.term_values.specs.Instructions.{instruction_of};
ghost use Rattle.clause_sources.specs.Seen.{choice_of};
ghost use Rattle.unified_visits.specs.Places.{protocol_at, IsAt, HasFewPoints};
ghost use Rattle.process_visits.specs.Processes.{let_form, get_form};
ghost use Rattle.unified_visits.specs.Short.{IsFitProcess};
ghost use Rattle.unified_visits.specs.Visits.{visit_at, IsVisitIn, HasFewCopies};
ghost use Rattle.visit_choices.specs.Walks.{instructions_of, choices_of, IsChoosingIn};
ghost use Rattle.clause_translate.specs.Gathering.{Tells, TellsBelow, TellsWay, TellsEach};
ghost use Rattle.clause_translate.specs.Jobs.{Once, Uncounted, Each, Ends, AreSmallWays, IsKnownWay, IsSmallLet, EndsEach};

use crate::visits::visit_process;
use clause_sources::{Choice, Label};
use else_visits::otherwise::{else_branch, else_visit};
use pi_tree::{Expr, Process};
use process_visits::forms::{Get, Let};
use process_visits::gets::entry_way;
use process_visits::labels::label_at;
use process_visits::large::{is_large_let, some_large_compared_in};
use process_visits::listing::Listing;
use std::alloc::{AllocError, Global};
use term_tree::Bank;
use term_values::{Instruction, list_instructions};
use unified_visits::place::Place;
use unified_visits::visit::Visit;
use visit_choices::choice::Choosing;
use visit_choices::choices::{choices_from, count_choices, look_at_choices};
use visit_choices::ways::Way;

/// A visit, and how a thread went on to come there.
#[derive(Drop)]
struct Branch<'a> {
    visit: &'a Visit,
    choice: Choice,
}

/// A way, and the label of the choice that leads there.
#[derive(Drop)]
struct Taken<'a> {
    label: Label,
    way: &'a Way,
}

/// The instructions that evaluate the expression.
fn instructions_in(alloc: Global, expression: &Expr) -> Result<Vec<Instruction<'_>>, AllocError>
    ensures { IfOk result (λ made. map instruction_of made.items ≡
        instructions (expression_of expression.now)) }
{
    let mut made = Vec::new(alloc);
    list_instructions(expression, &mut made)?;
    Ok(made)
}

/// Visits a `let`. On `Err` the bank may have grown.
#[cycle(visits)]
pub(crate) fn visit_let<'a, B: Bank>(
    choice: &Let<'a>,
    place: &'a Place<'a>,
    bank: &mut B,
    listing: &mut Listing,
    visit: &'a Visit,
) -> Result<Option<u32>, AllocError>
    requires visit { IsVisitIn (B.trees bank.old) visit.now }
    requires fit { IsFitProcess (protocol_at place.now) (let_form choice.now) }
    requires points { HasFewPoints place.now.point (let_form choice.now) }
    requires copies { HasFewCopies place.now.point visit.now }
    ensures grows { Grows (B.trees bank.old) (B.trees bank.new) }
    ensures ends { IfOk result (λ large. Ends (protocol_at place.now)
        (Uncounted (let_form choice.now) place.now.point (visit_at (B.trees bank.old) visit.now))
        (B.trees bank.new) listing.old listing.new large) }
    ensures tells { IfOk result (λ large. Tells (protocol_at place.now)
        (let_form choice.now) place.now.point (visit_at (B.trees bank.old) visit.now)
        listing.old listing.new large) }
{
    if is_large_let(place, bank, &visit.scope, choice.pattern, choice.expression) {
        return Ok(Some(place.point));
    }
    let after = else_branch(place, choice.next, choice.otherwise);
    let instructions = instructions_in(place.alloc, &*choice.expression)?;
    let count = count_choices(place.protocol, &instructions);
    let choosing = Choosing {
        place: &*place,
        visit: &*visit,
        pattern: &*choice.pattern,
        instructions: &instructions,
        count,
    };
    let looked = look_at_choices(&choosing, bank)?;
    if looked.large {
        return Ok(Some(place.point));
    }
    match visit_chosen(choice.next, bank, listing, &choosing, looked.going)? {
        Some(point) => Ok(Some(point)),
        None => {
            let made = else_visit(&choosing, bank, choice.otherwise)?;
            let branch = Branch {
                visit: &made,
                choice: Choice::Else,
            };
            visit_branch(after.process, &after.place, bank, listing, branch)
        }
    }
}

/// Visits a `get`. On `Err` the bank may have grown.
#[cycle(visits)]
pub(crate) fn visit_get<B: Bank>(
    get: &Get<'_>,
    place: &Place<'_>,
    bank: &mut B,
    listing: &mut Listing,
    visit: &Visit,
) -> Result<Option<u32>, AllocError>
    requires visit { IsVisitIn (B.trees bank.old) visit.now }
    requires fit { IsFitProcess (protocol_at place.now) (get_form get.now) }
    requires points { HasFewPoints place.now.point (get_form get.now) }
    requires copies { HasFewCopies place.now.point visit.now }
    ensures grows { Grows (B.trees bank.old) (B.trees bank.new) }
    ensures ends { IfOk result (λ large. Ends (protocol_at place.now)
        (Uncounted (get_form get.now) place.now.point (visit_at (B.trees bank.old) visit.now))
        (B.trees bank.new) listing.old listing.new large) }
    ensures tells { IfOk result (λ large. Tells (protocol_at place.now)
        (get_form get.now) place.now.point (visit_at (B.trees bank.old) visit.now)
        listing.old listing.new large) }
{
    if some_large_compared_in(place, bank, &visit.scope, get.patterns) {
        return Ok(Some(place.point));
    }
    let below = place.below();
    let after = place.after(get.next);
    let way = entry_way(place, bank, visit, get)?;
    if way.is_large() {
        return Ok(Some(place.point));
    }
    let empty = Label {
        items: Vec::new(place.alloc),
    };
    let taken = Taken {
        label: empty,
        way: &way,
    };
    match visit_way(get.next, &below, bank, listing, taken)? {
        Some(point) => Ok(Some(point)),
        None => {
            let branch = Branch {
                visit,
                choice: Choice::Else,
            };
            visit_branch(get.otherwise, &after, bank, listing, branch)
        }
    }
}

/// Visits a branch of a `let` or a `get`. On `Err` the bank may have grown.
#[cycle(visits)]
fn visit_branch<B: Bank>(
    process: &Process,
    place: &Place<'_>,
    bank: &mut B,
    listing: &mut Listing,
    branch: Branch<'_>,
) -> Result<Option<u32>, AllocError>
    requires visit { IsVisitIn (B.trees bank.old) branch.visit.now }
    requires fit { IsFitProcess (protocol_at place.now) (process_of process.now) }
    requires points { HasFewPoints place.now.point (process_of process.now) }
    requires copies { HasFewCopies place.now.point branch.visit.now }
    ensures grows { Grows (B.trees bank.old) (B.trees bank.new) }
    ensures ends { IfOk result (λ large. Ends (protocol_at place.now)
        (Once (process_of process.now) place.now.point
        (visit_at (B.trees bank.old) branch.entry.visit.now))
        (B.trees bank.new) listing.old listing.new large) }
    ensures tells { IfOk result (λ large. TellsBelow (protocol_at place.now)
        (process_of process.now) place.now.point
        (visit_at (B.trees bank.old) branch.entry.visit.now) (choice_of branch.entry.choice)
        listing.old listing.new large) }
{
    let Branch { visit, choice } = branch;
    listing.choose(choice)?;
    let large = visit_process(process, place, bank, listing, visit)?;
    listing.leave();
    Ok(large)
}

/// Counts so many visits of a process that does nothing, and tells its point where fewer are left.
fn count_visits(listing: &mut Listing, going: usize, point: u32) -> Option<u32>
    ensures counts { MatchOption result (listing.old.left ≡ listing.new.left + going)
        (λ at. (at ≡ point) × (listing.old.left < going)) }
    ensures clauses { listing.new.clauses ≡ listing.old.clauses }
    ensures keeps { listing.new.keeps ≡ listing.old.keeps }
    ensures sources { listing.new.sources ≡ listing.old.sources }
    ensures choices { listing.new.choices ≡ listing.old.choices }
{
    if (listing.left as usize) < going {
        listing.left = 0;
        return Some(point);
    }
    listing.left -= going as u32;
    None
}

/// Visits a process once for each choice of a `let` that goes on, in order; so many do. The visits of one that does nothing
/// are counted alone. On `Err` the bank may have grown.
#[cycle(visits)]
fn visit_chosen<B: Bank>(
    process: &Process,
    bank: &mut B,
    listing: &mut Listing,
    choosing: &Choosing<'_>,
    going: usize,
) -> Result<Option<u32>, AllocError>
    requires known { IsChoosingIn (B.trees bank.old) choosing.now }
    requires small { (expression : calculus.Expression)
        × IsSmallLet (B.trees bank.old) choosing.now expression going }
    requires few { choosing.now.count ≤ most_choices }
    requires fit { IsFitProcess (protocol_at choosing.now.place.now) (process_of process.now) }
    requires points { HasFewPoints (choosing.now.place.now.point + 1) (process_of process.now) }
    requires copies { HasFewCopies choosing.now.place.now.point choosing.now.visit.now }
    ensures grows { Grows (B.trees bank.old) (B.trees bank.new) }
    ensures ends { IfOk result (EndsEach (protocol_at choosing.now.place.now)
        (visit_at (B.trees bank.old) choosing.now.visit.now) (pattern_of choosing.now.pattern.now)
        (choices_of choosing.now) (process_of process.now) (choosing.now.place.now.point + 1)
        (B.trees bank.new) listing.old listing.new) }
    ensures tells { IfOk result (λ large. (expression : calculus.Expression) →
        instructions_of choosing.now ≡ instructions expression →
        TellsEach (protocol_at choosing.now.place.now)
        (visit_at (B.trees bank.old) choosing.now.visit.now) (pattern_of choosing.now.pattern.now)
        expression (process_of process.now) (choosing.now.place.now.point + 1)
        listing.old listing.new large) }
{
    let below = choosing.place.below();
    match process {
        Process::Nil => Ok(count_visits(listing, going, below.point)),
        _ => visit_choices(process, &below, bank, listing, choosing),
    }
}

/// Visits a process once for each choice of a `let` that goes on, in order. On `Err` the bank may have grown.
#[cycle(visits)]
fn visit_choices<B: Bank>(
    process: &Process,
    place: &Place<'_>,
    bank: &mut B,
    listing: &mut Listing,
    choosing: &Choosing<'_>,
) -> Result<Option<u32>, AllocError>
    requires known { IsChoosingIn (B.trees bank.old) choosing.now }
    requires small { (expression : calculus.Expression) × (going : ℕ)
        × IsSmallLet (B.trees bank.old) choosing.now expression going }
    requires few { choosing.now.count ≤ most_choices }
    requires at { IsAt (protocol_at choosing.now.place.now) (choosing.now.place.now.point + 1)
        place.now }
    requires fit { IsFitProcess (protocol_at place.now) (process_of process.now) }
    requires points { HasFewPoints place.now.point (process_of process.now) }
    requires copies { HasFewCopies choosing.now.place.now.point choosing.now.visit.now }
    ensures grows { Grows (B.trees bank.old) (B.trees bank.new) }
    ensures ends { IfOk result (EndsEach (protocol_at choosing.now.place.now)
        (visit_at (B.trees bank.old) choosing.now.visit.now) (pattern_of choosing.now.pattern.now)
        (choices_of choosing.now) (process_of process.now) (choosing.now.place.now.point + 1)
        (B.trees bank.new) listing.old listing.new) }
    ensures tells { IfOk result (λ large. (expression : calculus.Expression) →
        instructions_of choosing.now ≡ instructions expression →
        TellsEach (protocol_at choosing.now.place.now)
        (visit_at (B.trees bank.old) choosing.now.visit.now) (pattern_of choosing.now.pattern.now)
        expression (process_of process.now) (choosing.now.place.now.point + 1)
        listing.old listing.new large) }
{
    let mut number = 0usize;
    'each: while number < choosing.count {
        let passed = choices_from(choosing, bank, number)?;
        let label = label_at(choosing, number)?;
        let taken = Taken {
            label,
            way: &passed.way,
        };
        match visit_way(process, place, bank, listing, taken)? {
            Some(point) => return Ok(Some(point)),
            None => {}
        }
        number += passed.count;
    }
    Ok(None)
}

/// Visits a process with the visit that goes on, if one does. On `Err` the bank may have grown.
#[cycle(visits)]
fn visit_way<B: Bank>(
    process: &Process,
    place: &Place<'_>,
    bank: &mut B,
    listing: &mut Listing,
    taken: Taken<'_>,
) -> Result<Option<u32>, AllocError>
    requires known { IsKnownWay (B.trees bank.old) place.now.point taken.way.now }
    requires fit { IsFitProcess (protocol_at place.now) (process_of process.now) }
    requires points { HasFewPoints place.now.point (process_of process.now) }
    ensures grows { Grows (B.trees bank.old) (B.trees bank.new) }
    ensures ends { IfOk result (λ large. (outs : List (Option translation.Visit)) →
        AreSmallWays (B.trees bank.old) taken.entry.way.now outs → Ends (protocol_at place.now)
        (Each (process_of process.now) place.now.point outs)
        (B.trees bank.new) listing.old listing.new large) }
    ensures tells { IfOk result (λ large. TellsWay (protocol_at place.now) (process_of process.now)
        place.now.point (B.trees bank.old) taken.entry.label taken.entry.way.now listing.old
        listing.new large) }
{
    let Taken { label, way } = taken;
    match way {
        Way::Visit(made) => {
            let branch = Branch {
                visit: made,
                choice: Choice::Taken(label),
            };
            visit_branch(process, place, bank, listing, branch)
        }
        Way::Nowhere | Way::Large => Ok(None),
    }
}
