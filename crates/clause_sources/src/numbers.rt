//! How the variables of a raw clause are numbered.

ghost use Rattle.std.specs.Prelude.{◌≡◌, ◌<◌, length, IfOk, IfSome};
ghost use Rattle.spec_trees.specs.Tree.{Leaf};
ghost use Rattle.clause_diffs.specs.Numbers.{placed, numbered_by};
ghost use Rattle.clause_sources.specs.Places.{by_numbers};

use clause_diffs::Order;
use std::alloc::AllocError;

/// Variables are numbered by their places in an order. In a constraint those from `first` on are bound, and are numbered by their
/// places, less `first`, in an order of their own, from `next` on.
#[derive(Clone, Copy)]
pub(crate) struct Numbers<'a> {
    pub own: &'a Order,
    pub bound: &'a Order,
    /// None where no variable is bound.
    pub first: Option<u32>,
    pub next: u32,
}

/// The number of a variable in a constraint whose bound variables begin there; none where it is past 32 bits.
fn number_within(numbers: Numbers<'_>, first: u32, number: u32) -> Option<u32>
    ensures { IfSome result (λ made. Leaf made ≡ numbered_by numbers.entry.own.now
        numbers.entry.bound.now first numbers.entry.next number) }
{
    if number < first {
        return Some(numbers.own.place(number));
    }
    numbers
        .bound
        .place(number - first)
        .checked_add(numbers.next)
}

/// The number of a variable; none where it is past 32 bits.
pub(crate) fn number_of(numbers: Numbers<'_>, number: u32) -> Option<u32>
    ensures { IfSome result (λ made. Leaf made ≡ by_numbers numbers.entry number) }
{
    match numbers.first {
        None => Some(numbers.own.place(number)),
        Some(first) => number_within(numbers, first, number),
    }
}

/// Numbers by places in an order, where no variable is bound.
pub(crate) fn by_order(order: &Order) -> Numbers<'_>
    ensures { by_numbers result ≡ placed order.now }
{
    Numbers {
        own: order,
        bound: order,
        first: None,
        next: 0,
    }
}

/// A number above the places of all variables, also of those that aren't in the order; want of memory where it is past 32 bits.
pub(crate) fn number_above(order: &Order) -> Result<u32, AllocError>
    ensures { IfOk result (λ next. length order.now < next) }
{
    let Some(next) = order.count().checked_add(1) else {
        return Err(AllocError);
    };
    match u32::try_from(next) {
        Ok(next) => Ok(next),
        Err(_) => Err(AllocError),
    }
}
