//! New variables for those that a pattern binds: where they begin and end.

ghost use Rattle.std.specs.Prelude.{◌≡◌, ◌+◌, ◌-◌, ◌^◌, ◌<◌, ◌≤◌, IfOk, IfSome};
ghost use Rattle.std.specs.List.{AllByRecursion};
ghost use Rattle.unified_visits.specs.Spans.{IsSpan};

use clause_terms::Fresh;
use std::alloc::AllocError;

/// Where new variables begin, and the number behind them.
#[derive(Clone, Copy)]
pub struct Span {
    pub at: Fresh,
    pub next: u32,
}

/// The most that the number behind new variables of a pattern may be. Those of all patterns of a protocol that is read stay
/// far below it.
const MOST_NEXT: u32 = 0x8000_0000;

/// The least of the numbers, or the greatest of the type where there is none.
fn least(numbers: &[u32]) -> u32
    ensures { AllByRecursion (λ i. result ≤ i) numbers.now }
{
    let mut found = u32::MAX;
    'each: for number in numbers {
        found = found.min(*number);
    }
    found
}

/// The number behind the new variable for the number, if there is one.
fn behind(at: Fresh, number: u32) -> Option<u32>
    ensures { IfSome result (λ end. at.base + (number - at.first) < end) }
{
    match at.base.checked_add(number.saturating_sub(at.first)) {
        None => None,
        Some(last) => last.checked_add(1),
    }
}

/// The number behind the new variables, if there is one.
fn end_of(at: Fresh, numbers: &[u32]) -> Option<u32>
    ensures { IfSome result (λ end. (at.base ≤ end)
        × AllByRecursion (λ i. at.base + (i - at.first) < end) numbers.now) }
{
    let mut end = at.base;
    'each: for number in numbers {
        match behind(at, *number) {
            None => return None,
            Some(next) => end = end.max(next),
        }
    }
    Some(end)
}

/// New variables from the base on for these numbers. Where they would lead past the limit, which none of a protocol that is
/// read do, it is as if there were no memory.
pub fn span_of(base: u32, numbers: &[u32]) -> Result<Span, AllocError>
    ensures { IfOk result (λ span. IsSpan base numbers.now span) }
{
    let at = Fresh {
        base,
        first: least(numbers),
    };
    match end_of(at, numbers) {
        Some(next) if next <= MOST_NEXT => Ok(Span { at, next }),
        _ => Err(AllocError),
    }
}

/// New variables for these numbers, each as far behind the base as its number says. Where they would lead past the limit,
/// which none of a protocol that is read do, it is as if there were no memory.
pub fn numbered_from(base: u32, numbers: &[u32]) -> Result<Fresh, AllocError>
    ensures at { IfOk result (λ at. at ≡ record { base = base; first = 0 }) }
    ensures room { IfOk result (λ at. AllByRecursion
        (λ i. at.base + (i - at.first) < 2 ^ 32) numbers.now) }
{
    let at = Fresh { base, first: 0 };
    match end_of(at, numbers) {
        Some(end) if end <= MOST_NEXT => Ok(at),
        _ => Err(AllocError),
    }
}
