//! Places and counts of numbers in lists: found by tables where a list is long, and by going along it where it is short.

ghost use Rattle.std.specs.Prelude.{◌≡◌, ◌≤◌, ◌++◌, [], ◌∷◌, nat_eq, cond, length, IfOk, OnOk};
ghost use Rattle.std.specs.HashMap.{get};
ghost use Rattle.std.specs.List.{list_any};
ghost use Rattle.spec_clauses.specs.FirstPhase.{times};
ghost use Rattle.spec_clauses.specs.Norm.{distinct, place_of};
ghost use Rattle.clause_diffs.specs.Tables.{FindsPlaces, HasPlaces, count_of, CountsTimes};

use std::alloc::{AllocError, Global};
use std::collections::HashMap;
use std::marker::Model;

/// A list of as many numbers has a table.
const MANY: usize = 128;

/// Numbers in order, and where they stand first.
#[derive(Drop)]
struct Numbering {
    numbers: Vec<u32>,
    places: HashMap<u32, usize>,
}

impl Model for Numbering {
    ghost use Rattle.std.specs.Prelude.{ℕ, List};
    ghost use Rattle.std.specs.Coded.{coded_ℕ, coded_list};

    ghost Value = { List ℕ };

    ghost coded = { coded_list coded_ℕ };

    ghost use Rattle.clause_diffs.specs.Tables.{FindsPlaces};

    ghost view = { λ n. n.numbers.items };

    ghost invariant = { λ n. FindsPlaces n.numbers.items n.places };
}

impl Numbering {
    /// The numbering by a list.
    fn new(alloc: Global, numbers: Vec<u32>) -> Result<Numbering, AllocError>
        ensures { IfOk result (λ made. made ≡ numbers.items) }
    {
        let places = places_of(alloc, &numbers)?;
        Ok(Numbering { numbers, places })
    }

    /// The place of a number, from 0; the length where it isn't there.
    fn place(&self, number: u32) -> usize
        ensures { result ≡ place_of number self.now }
    {
        if self.numbers.len() < MANY {
            return place_among(number, &self.numbers);
        }
        match self.places.get(&number).copied() {
            Some(place) => place,
            None => place_among(number, &self.numbers),
        }
    }

    /// The numbers, each where it stands first.
    fn firsts(&self, alloc: Global) -> Result<Vec<u32>, AllocError>
        ensures { IfOk result (λ found. found.items ≡ distinct nat_eq self.now) }
    {
        let mut found = Vec::with_capacity(alloc, 16)?;
        'each: for (i, number) in self.numbers.iter().enumerate() {
            add_if(self.place(*number) == i, *number, &mut found)?;
        }
        Ok(found)
    }
}

/// Where each of many numbers stands first.
fn places_of(alloc: Global, numbers: &[u32]) -> Result<HashMap<u32, usize>, AllocError>
    ensures { IfOk result (λ places. FindsPlaces numbers.now places) }
{
    let mut places = HashMap::new(alloc);
    if numbers.len() < MANY {
        return Ok(places);
    }
    let mut i = numbers.len();
    'each: while i > 0 {
        i -= 1;
        places.insert(numbers[i], i)?;
    }
    Ok(places)
}

/// The place of a number, from 0; the length where it isn't there.
fn place_among(number: u32, numbers: &[u32]) -> usize
    ensures { result ≡ place_of number numbers.now }
{
    'each: for (i, one) in numbers.iter().enumerate() {
        if number == *one {
            return i;
        }
    }
    numbers.len()
}

/// Whether a number is among numbers.
pub(crate) fn is_number_among(number: u32, numbers: &[u32]) -> bool
    ensures { result ≡ list_any (nat_eq number) numbers.now }
{
    for one in numbers {
        if number == *one {
            return true;
        }
    }
    false
}

/// Adds a number where the test passes.
pub(crate) fn add_if(passed: bool, number: u32, numbers: &mut Vec<u32>) -> Result<(), AllocError>
    ensures { OnOk result (numbers.new.items ≡
        cond passed (numbers.old.items ++ number ∷ []) numbers.old.items) }
{
    if !passed {
        return Ok(());
    }
    numbers.push(number)?;
    Ok(())
}

/// The numbers, each where it stands first.
pub fn distinct_of(alloc: Global, numbers: Vec<u32>) -> Result<Vec<u32>, AllocError>
    ensures { IfOk result (λ found. found.items ≡ distinct nat_eq numbers.items) }
{
    let all = Numbering::new(alloc, numbers)?;
    all.firsts(alloc)
}

/// Of numbers of 32 bits, each has its place without repeats for one of them.
fn places_fit(numbers: &[u32])
    ensures { HasPlaces (distinct nat_eq numbers.now) }
{}

/// Numbers without repeats, and the place of each. There are no more of them than numbers of 32 bits, so each place is
/// one.
#[derive(Drop)]
pub struct Order {
    places: Numbering,
}

impl Model for Order {
    ghost use Rattle.std.specs.Prelude.{ℕ, List};
    ghost use Rattle.std.specs.Coded.{coded_ℕ, coded_list};

    ghost Value = { List ℕ };

    ghost coded = { coded_list coded_ℕ };

    ghost use Rattle.clause_diffs.specs.Tables.{HasPlaces};

    ghost view = { λ o. o.places };

    ghost invariant = { λ o. HasPlaces o.places };
}

impl Order {
    /// The numbers in the order of their first occurrence.
    pub fn new(alloc: Global, numbers: Vec<u32>) -> Result<Order, AllocError>
        ensures { IfOk result (λ order. order ≡ distinct nat_eq numbers.items) }
    {
        places_fit(&numbers);
        let firsts = distinct_of(alloc, numbers)?;
        let places = Numbering::new(alloc, firsts)?;
        Ok(Order { places })
    }

    /// How many numbers there are.
    pub fn count(&self) -> usize
        ensures { result ≡ length self.now }
    {
        self.places.numbers.len()
    }

    /// The place of a number, from 0; how many there are where it isn't there.
    pub fn place(&self, number: u32) -> u32
        ensures { result ≡ place_of number self.now }
    {
        self.places.place(number) as u32
    }
}

/// Numbers, and how often they occur.
#[derive(Drop)]
pub struct Counts {
    numbers: Vec<u32>,
    counts: HashMap<u32, usize>,
    is_counted: bool,
}

impl Model for Counts {
    ghost use Rattle.std.specs.Prelude.{◌≡◌, ℕ, true, List};
    ghost use Rattle.std.specs.Coded.{coded_ℕ, coded_list};

    ghost Value = { List ℕ };

    ghost coded = { coded_list coded_ℕ };

    ghost use Rattle.clause_diffs.specs.Tables.{CountsTimes};

    ghost view = { λ n. n.numbers.items };

    ghost invariant = { λ n. n.is_counted ≡ true → CountsTimes n.numbers.items n.counts };
}

impl Counts {
    /// The occurrences in a list.
    pub fn new(alloc: Global, numbers: Vec<u32>) -> Result<Counts, AllocError>
        ensures { IfOk result (λ made. made ≡ numbers.items) }
    {
        if numbers.len() < MANY {
            return Ok(Counts {
                numbers,
                counts: HashMap::new(alloc),
                is_counted: false,
            });
        }
        let counts = counts_of(alloc, &numbers)?;
        Ok(Counts {
            numbers,
            counts,
            is_counted: true,
        })
    }

    /// How often a number occurs.
    fn count(&self, number: u32) -> usize
        ensures { result ≡ times number self.now }
    {
        if self.is_counted {
            return count_in(&self.counts, number);
        }
        times_among(number, &self.numbers)
    }

    /// Whether a number occurs.
    pub fn has(&self, number: u32) -> bool
        ensures { result ≡ list_any (nat_eq number) self.now }
    {
        self.count(number) > 0
    }
}

/// How often each number occurs.
fn counts_of(alloc: Global, numbers: &[u32]) -> Result<HashMap<u32, usize>, AllocError>
    ensures { IfOk result (λ counts. CountsTimes numbers.now counts) }
{
    let mut counts = HashMap::new(alloc);
    let mut i = numbers.len();
    'each: while i > 0 {
        i -= 1;
        let count = count_in(&counts, numbers[i]) + 1;
        counts.insert(numbers[i], count)?;
    }
    Ok(counts)
}

/// The count that a table has of a number.
fn count_in(counts: &HashMap<u32, usize>, number: u32) -> usize
    ensures { result ≡ count_of (get nat_eq counts.now number) }
{
    match counts.get(&number).copied() {
        Some(count) => count,
        None => 0,
    }
}

/// How often a number occurs.
fn times_among(number: u32, numbers: &[u32]) -> usize
    ensures { result ≡ times number numbers.now }
{
    let mut count = 0usize;
    for one in numbers {
        count += one_if(number == *one);
    }
    count
}

/// One where the test passes.
fn one_if(passed: bool) -> usize
    ensures is { result ≡ cond passed 1 0 }
    ensures at_most { result ≤ 1 }
{
    if passed { 1 } else { 0 }
}
