//! Hashes of values, and of the values of terms, which aren't made for it. They only tell where to look first, so no
//! contract speaks of them: equal values have equal hashes, and where they had not, a look-up would be slow and right.

use pi_tree::{Slot, Term, Terms, Value, Values};
use term_values::Bound;
use term_values::bindings::look_up;

/// What the hash of a free name begins with.
const FREE: u64 = 1;

/// What the hash of a restriction's name begins with.
const MADE: u64 = 2;

/// What the hash of a name of the attacker's begins with.
const FRESH: u64 = 3;

/// What the hash of a constructor's value begins with.
const APPLIED: u64 = 4;

/// What the hash of a tuple begins with.
const TUPLE: u64 = 5;

/// The hash that goes on with one more number; by multiplicative hashing (Knuth 1998, section 6.4).
fn mixed(hash: u64, number: u64) -> u64 {
    (hash.rotate_left(23) ^ number).wrapping_mul(0x9e37_79b9_7f4a_7c15)
}

/// The hash of a value.
#[cycle(value_hash)]
pub fn value_hash(value: &Value) -> u64 {
    match value {
        Value::Free(number) => mixed(FREE, u64::from(*number)),
        Value::Made(point, number) => mixed(mixed(MADE, u64::from(*point)), *number),
        Value::Fresh(number) => mixed(FRESH, *number),
        Value::App(constructor, arguments) => {
            values_hash(mixed(APPLIED, u64::from(*constructor)), arguments)
        }
        Value::Tuple(parts) => values_hash(TUPLE, parts),
    }
}

/// The hash that goes on with values.
#[cycle(value_hash)]
fn values_hash(first: u64, values: &Values) -> u64 {
    let mut hash = first;
    for value in &values.items {
        hash = mixed(hash, value_hash(value));
    }
    hash
}

/// The hash of what the slot is bound to.
fn bound_hash(slot: Slot, bound: &Bound) -> u64 {
    match look_up(bound, slot) {
        Some(value) => value_hash(value),
        None => value_hash(&Value::Free(0)),
    }
}

/// The hash of the term's value.
#[cycle(term_hash)]
pub fn term_hash(term: &Term, bound: &Bound) -> u64 {
    match term {
        Term::Var(number) => bound_hash(Slot::Var(*number), bound),
        Term::Made(point) => bound_hash(Slot::Made(*point), bound),
        Term::Free(number) => mixed(FREE, u64::from(*number)),
        Term::App(constructor, arguments) => {
            terms_hash(mixed(APPLIED, u64::from(*constructor)), arguments, bound)
        }
        Term::Tuple(parts) => terms_hash(TUPLE, parts, bound),
    }
}

/// The hash that goes on with the terms' values.
#[cycle(term_hash)]
fn terms_hash(first: u64, terms: &Terms, bound: &Bound) -> u64 {
    let mut hash = first;
    for term in &terms.items {
        hash = mixed(hash, term_hash(term, bound));
    }
    hash
}
