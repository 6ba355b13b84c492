//! The visits of a process in pre-order (Blanchet 2016, section 3.3.2).

ghost use Rattle.std.specs.Prelude.{◌≡◌, ◌<◌, Option, [], IfOk};
ghost use Rattle.spec_calculus.specs.Syntax as calculus;
ghost use Rattle.pi_tree.specs.Processes.{process_of};
ghost use Rattle.term_tree.specs.Bank.{Grows};
ghost use Rattle.unified_visits.specs.Places.{protocol_at, HasFewPoints};
ghost use Rattle.process_visits.specs.Processes.{output_form, input_form, parallel_form, event_form, phase_form, insert_form};
ghost use Rattle.unified_visits.specs.Short.{IsFitProcess};
ghost use Rattle.unified_visits.specs.Visits.{visit_at, IsVisitIn, HasFewCopies};
ghost use Rattle.clause_translate.specs.Gathering.{Tells};
ghost use Rattle.clause_translate.specs.Jobs.{Once, Uncounted, Ends};

use crate::branches::{visit_get, visit_let};
use pi_tree::Process;
use process_visits::copies::after_copy;
use process_visits::events::add_event;
use process_visits::forms::{Event, Get, Input, Insert, Let, Output, Parallel, Phase};
use process_visits::inputs::after_input;
use process_visits::inserts::add_insert;
use process_visits::listing::Listing;
use process_visits::names::after_new;
use process_visits::outputs::add_output;
use process_visits::phases::after_phase;
use std::alloc::AllocError;
use term_tree::Bank;
use unified_visits::place::Place;
use unified_visits::visit::Visit;

/// Visits a process that begins at the place, and tells the point of the first visit that is too large, if one is.
/// Where no clause was added the bank is as before; on `Err` it may have grown.
#[cycle(visits)]
pub fn visit_process<B: Bank>(
    process: &Process,
    place: &Place<'_>,
    bank: &mut B,
    listing: &mut Listing,
    visit: &Visit,
) -> Result<Option<u32>, AllocError>
    requires visit { IsVisitIn (B.trees bank.old) visit.now }
    requires fit { IsFitProcess (protocol_at place.now) (process_of process.now) }
    requires points { HasFewPoints place.now.point (process_of process.now) }
    requires copies { HasFewCopies place.now.point visit.now }
    ensures grows { Grows (B.trees bank.old) (B.trees bank.new) }
    ensures ends { IfOk result (λ large. Ends (protocol_at place.now)
        (Once (process_of process.now) place.now.point (visit_at (B.trees bank.old) visit.now))
        (B.trees bank.new) listing.old listing.new large) }
    ensures back { IfOk result (λ large. listing.new.clauses ≡ listing.old.clauses
        → B.trees bank.new ≡ B.trees bank.old) }
    ensures tells { IfOk result (λ large. Tells (protocol_at place.now)
        (process_of process.now) place.now.point (visit_at (B.trees bank.old) visit.now)
        listing.old listing.new large) }
{
    if listing.left == 0 {
        return Ok(Some(place.point));
    }
    listing.left -= 1;
    visit_counted(process, place, bank, listing, visit)
}

/// Visits a process whose visit is counted already. Where no clause was added the bank is as before; on `Err` it may
/// have grown.
#[cycle(visits)]
fn visit_counted<B: Bank>(
    process: &Process,
    place: &Place<'_>,
    bank: &mut B,
    listing: &mut Listing,
    visit: &Visit,
) -> Result<Option<u32>, AllocError>
    requires visit { IsVisitIn (B.trees bank.old) visit.now }
    requires fit { IsFitProcess (protocol_at place.now) (process_of process.now) }
    requires points { HasFewPoints place.now.point (process_of process.now) }
    requires copies { HasFewCopies place.now.point visit.now }
    ensures grows { Grows (B.trees bank.old) (B.trees bank.new) }
    ensures ends { IfOk result (λ large. Ends (protocol_at place.now)
        (Uncounted (process_of process.now) place.now.point
        (visit_at (B.trees bank.old) visit.now)) (B.trees bank.new) listing.old listing.new large) }
    ensures back { IfOk result (λ large. listing.new.clauses ≡ listing.old.clauses
        → B.trees bank.new ≡ B.trees bank.old) }
    ensures tells { IfOk result (λ large. Tells (protocol_at place.now)
        (process_of process.now) place.now.point (visit_at (B.trees bank.old) visit.now)
        listing.old listing.new large) }
{
    let count = listing.count();
    let mark = bank.mark();
    let large = visit_form(process, place, bank, listing, visit)?;
    if count < listing.count() {
        return Ok(large);
    }
    bank.back(mark);
    Ok(large)
}

/// Visits a process of any form, whose visit is counted already. On `Err` the bank may have grown.
#[cycle(visits)]
fn visit_form<B: Bank>(
    process: &Process,
    place: &Place<'_>,
    bank: &mut B,
    listing: &mut Listing,
    visit: &Visit,
) -> Result<Option<u32>, AllocError>
    requires visit { IsVisitIn (B.trees bank.old) visit.now }
    requires fit { IsFitProcess (protocol_at place.now) (process_of process.now) }
    requires points { HasFewPoints place.now.point (process_of process.now) }
    requires copies { HasFewCopies place.now.point visit.now }
    ensures grows { Grows (B.trees bank.old) (B.trees bank.new) }
    ensures ends { IfOk result (λ large. Ends (protocol_at place.now)
        (Uncounted (process_of process.now) place.now.point
        (visit_at (B.trees bank.old) visit.now))
        (B.trees bank.new) listing.old listing.new large) }
    ensures tells { IfOk result (λ large. Tells (protocol_at place.now)
        (process_of process.now) place.now.point (visit_at (B.trees bank.old) visit.now)
        listing.old listing.new large) }
{
    match process {
        Process::Nil => Ok(None),
        Process::Output(channel, message, next) => {
            let output = Output {
                channel,
                message,
                next,
            };
            visit_output(&output, place, bank, listing, visit)
        }
        Process::Input(channel, pattern, next) => {
            let input = Input {
                channel,
                pattern,
                next,
            };
            visit_input(&input, place, bank, listing, visit)
        }
        Process::Par(left, right) => {
            let both = Parallel { left, right };
            visit_parallel(&both, place, bank, listing, visit)
        }
        Process::Copies(copied) => visit_copies(copied, place, bank, listing, visit),
        Process::New(_, next) => visit_new(next, place, bank, listing, visit),
        Process::Let(pattern, expression, next, otherwise) => {
            let choice = Let {
                pattern,
                expression,
                next,
                otherwise,
            };
            visit_let(&choice, &*place, bank, listing, &*visit)
        }
        Process::Event(atom, next) => {
            let event = Event { atom, next };
            visit_event(&event, place, bank, listing, visit)
        }
        Process::Phase(number, next) => {
            let phase = Phase {
                number: *number,
                next,
            };
            visit_phase(&phase, place, bank, listing, visit)
        }
        Process::Insert(table, arguments, next) => {
            let insert = Insert {
                table: *table,
                arguments,
                next,
            };
            visit_insert(&insert, place, bank, listing, visit)
        }
        Process::Get(table, patterns, condition, next, otherwise) => {
            let get = Get {
                table: *table,
                patterns,
                condition,
                next,
                otherwise,
            };
            visit_get(&get, place, bank, listing, visit)
        }
    }
}

/// Visits an output. On `Err` the bank may have grown.
#[cycle(visits)]
fn visit_output<B: Bank>(
    output: &Output<'_>,
    place: &Place<'_>,
    bank: &mut B,
    listing: &mut Listing,
    visit: &Visit,
) -> Result<Option<u32>, AllocError>
    requires visit { IsVisitIn (B.trees bank.old) visit.now }
    requires fit { IsFitProcess (protocol_at place.now) (output_form output.now) }
    requires points { HasFewPoints place.now.point (output_form output.now) }
    requires copies { HasFewCopies place.now.point visit.now }
    ensures grows { Grows (B.trees bank.old) (B.trees bank.new) }
    ensures ends { IfOk result (λ large. Ends (protocol_at place.now)
        (Uncounted (output_form output.now) place.now.point (visit_at (B.trees bank.old) visit.now))
        (B.trees bank.new) listing.old listing.new large) }
    ensures tells { IfOk result (λ large. Tells (protocol_at place.now)
        (output_form output.now) place.now.point (visit_at (B.trees bank.old) visit.now)
        listing.old listing.new large) }
{
    if !add_output(place, bank, listing, visit, output)? {
        return Ok(Some(place.point));
    }
    let below = place.below();
    visit_process(output.next, &below, bank, listing, visit)
}

/// Visits an input. On `Err` the bank may have grown.
#[cycle(visits)]
fn visit_input<B: Bank>(
    input: &Input<'_>,
    place: &Place<'_>,
    bank: &mut B,
    listing: &mut Listing,
    visit: &Visit,
) -> Result<Option<u32>, AllocError>
    requires visit { IsVisitIn (B.trees bank.old) visit.now }
    requires fit { IsFitProcess (protocol_at place.now) (input_form input.now) }
    requires points { HasFewPoints place.now.point (input_form input.now) }
    requires copies { HasFewCopies place.now.point visit.now }
    ensures grows { Grows (B.trees bank.old) (B.trees bank.new) }
    ensures ends { IfOk result (λ large. Ends (protocol_at place.now)
        (Uncounted (input_form input.now) place.now.point (visit_at (B.trees bank.old) visit.now))
        (B.trees bank.new) listing.old listing.new large) }
    ensures tells { IfOk result (λ large. Tells (protocol_at place.now)
        (input_form input.now) place.now.point (visit_at (B.trees bank.old) visit.now)
        listing.old listing.new large) }
{
    let below = place.below();
    match after_input(place, bank, visit, input.channel, input.pattern)? {
        None => Ok(Some(place.point)),
        Some(made) => visit_process(input.next, &below, bank, listing, &made),
    }
}

/// Visits two processes in parallel. On `Err` the bank may have grown.
#[cycle(visits)]
fn visit_parallel<B: Bank>(
    both: &Parallel<'_>,
    place: &Place<'_>,
    bank: &mut B,
    listing: &mut Listing,
    visit: &Visit,
) -> Result<Option<u32>, AllocError>
    requires visit { IsVisitIn (B.trees bank.old) visit.now }
    requires fit { IsFitProcess (protocol_at place.now) (parallel_form both.now) }
    requires points { HasFewPoints place.now.point (parallel_form both.now) }
    requires copies { HasFewCopies place.now.point visit.now }
    ensures grows { Grows (B.trees bank.old) (B.trees bank.new) }
    ensures ends { IfOk result (λ large. Ends (protocol_at place.now)
        (Uncounted (parallel_form both.now) place.now.point (visit_at (B.trees bank.old) visit.now))
        (B.trees bank.new) listing.old listing.new large) }
    ensures tells { IfOk result (λ large. Tells (protocol_at place.now)
        (parallel_form both.now) place.now.point (visit_at (B.trees bank.old) visit.now)
        listing.old listing.new large) }
{
    let below = place.below();
    let after = place.after(both.left);
    match visit_process(both.left, &below, bank, listing, visit)? {
        Some(point) => Ok(Some(point)),
        None => visit_process(both.right, &after, bank, listing, visit),
    }
}

/// Visits a replication. On `Err` the bank may have grown.
#[cycle(visits)]
fn visit_copies<B: Bank>(
    copied: &Process,
    place: &Place<'_>,
    bank: &mut B,
    listing: &mut Listing,
    visit: &Visit,
) -> Result<Option<u32>, AllocError>
    requires visit { IsVisitIn (B.trees bank.old) visit.now }
    requires fit { IsFitProcess (protocol_at place.now)
        (calculus.Replication (process_of copied.now)) }
    requires points { HasFewPoints place.now.point (calculus.Replication (process_of copied.now)) }
    requires copies { HasFewCopies place.now.point visit.now }
    ensures grows { Grows (B.trees bank.old) (B.trees bank.new) }
    ensures ends { IfOk result (λ large. Ends (protocol_at place.now)
        (Uncounted (calculus.Replication (process_of copied.now)) place.now.point
        (visit_at (B.trees bank.old) visit.now)) (B.trees bank.new) listing.old listing.new large) }
    ensures tells { IfOk result (λ large. Tells (protocol_at place.now)
        (calculus.Replication (process_of copied.now)) place.now.point
        (visit_at (B.trees bank.old) visit.now) listing.old listing.new large) }
{
    let below = place.below();
    let made = after_copy(place.alloc, bank, visit)?;
    visit_process(copied, &below, bank, listing, &made)
}

/// Visits a restriction, however its name is spelled. On `Err` the bank may have grown.
#[cycle(visits)]
fn visit_new<B: Bank>(
    next: &Process,
    place: &Place<'_>,
    bank: &mut B,
    listing: &mut Listing,
    visit: &Visit,
) -> Result<Option<u32>, AllocError>
    requires visit { IsVisitIn (B.trees bank.old) visit.now }
    requires fit { IsFitProcess (protocol_at place.now) (calculus.New [] (process_of next.now)) }
    requires points { HasFewPoints place.now.point (calculus.New [] (process_of next.now)) }
    requires copies { HasFewCopies place.now.point visit.now }
    ensures grows { Grows (B.trees bank.old) (B.trees bank.new) }
    ensures ends { IfOk result (λ large. Ends (protocol_at place.now)
        (Uncounted (calculus.New [] (process_of next.now)) place.now.point
        (visit_at (B.trees bank.old) visit.now)) (B.trees bank.new) listing.old listing.new large) }
    ensures tells { IfOk result (λ large. Tells (protocol_at place.now)
        (calculus.New [] (process_of next.now)) place.now.point
        (visit_at (B.trees bank.old) visit.now) listing.old listing.new large) }
{
    let below = place.below();
    match after_new(place, bank, visit)? {
        None => Ok(Some(place.point)),
        Some(made) => visit_process(next, &below, bank, listing, &made),
    }
}

/// Visits an event. On `Err` the bank may have grown.
#[cycle(visits)]
fn visit_event<B: Bank>(
    event: &Event<'_>,
    place: &Place<'_>,
    bank: &mut B,
    listing: &mut Listing,
    visit: &Visit,
) -> Result<Option<u32>, AllocError>
    requires visit { IsVisitIn (B.trees bank.old) visit.now }
    requires fit { IsFitProcess (protocol_at place.now) (event_form event.now) }
    requires points { HasFewPoints place.now.point (event_form event.now) }
    requires copies { HasFewCopies place.now.point visit.now }
    ensures grows { Grows (B.trees bank.old) (B.trees bank.new) }
    ensures ends { IfOk result (λ large. Ends (protocol_at place.now)
        (Uncounted (event_form event.now) place.now.point (visit_at (B.trees bank.old) visit.now))
        (B.trees bank.new) listing.old listing.new large) }
    ensures tells { IfOk result (λ large. Tells (protocol_at place.now)
        (event_form event.now) place.now.point (visit_at (B.trees bank.old) visit.now)
        listing.old listing.new large) }
{
    let below = place.below();
    match add_event(place, bank, listing, visit, event.atom)? {
        None => Ok(Some(place.point)),
        Some(made) => visit_process(event.next, &below, bank, listing, &made),
    }
}

/// Visits a process that waits for a phase. On `Err` the bank may have grown.
#[cycle(visits)]
fn visit_phase<B: Bank>(
    phase: &Phase<'_>,
    place: &Place<'_>,
    bank: &mut B,
    listing: &mut Listing,
    visit: &Visit,
) -> Result<Option<u32>, AllocError>
    requires visit { IsVisitIn (B.trees bank.old) visit.now }
    requires fit { IsFitProcess (protocol_at place.now) (phase_form phase.now) }
    requires points { HasFewPoints place.now.point (phase_form phase.now) }
    requires copies { HasFewCopies place.now.point visit.now }
    ensures grows { Grows (B.trees bank.old) (B.trees bank.new) }
    ensures ends { IfOk result (λ large. Ends (protocol_at place.now)
        (Uncounted (phase_form phase.now) place.now.point (visit_at (B.trees bank.old) visit.now))
        (B.trees bank.new) listing.old listing.new large) }
    ensures tells { IfOk result (λ large. Tells (protocol_at place.now)
        (phase_form phase.now) place.now.point (visit_at (B.trees bank.old) visit.now)
        listing.old listing.new large) }
{
    let below = place.below();
    let made = after_phase(place.alloc, visit, phase.number)?;
    visit_process(phase.next, &below, bank, listing, &made)
}

/// Visits an `insert`. On `Err` the bank may have grown.
#[cycle(visits)]
fn visit_insert<B: Bank>(
    insert: &Insert<'_>,
    place: &Place<'_>,
    bank: &mut B,
    listing: &mut Listing,
    visit: &Visit,
) -> Result<Option<u32>, AllocError>
    requires visit { IsVisitIn (B.trees bank.old) visit.now }
    requires fit { IsFitProcess (protocol_at place.now) (insert_form insert.now) }
    requires points { HasFewPoints place.now.point (insert_form insert.now) }
    requires copies { HasFewCopies place.now.point visit.now }
    ensures grows { Grows (B.trees bank.old) (B.trees bank.new) }
    ensures ends { IfOk result (λ large. Ends (protocol_at place.now)
        (Uncounted (insert_form insert.now) place.now.point (visit_at (B.trees bank.old) visit.now))
        (B.trees bank.new) listing.old listing.new large) }
    ensures tells { IfOk result (λ large. Tells (protocol_at place.now)
        (insert_form insert.now) place.now.point (visit_at (B.trees bank.old) visit.now)
        listing.old listing.new large) }
{
    if !add_insert(place, bank, listing, visit, insert)? {
        return Ok(Some(place.point));
    }
    let below = place.below();
    visit_process(insert.next, &below, bank, listing, visit)
}
