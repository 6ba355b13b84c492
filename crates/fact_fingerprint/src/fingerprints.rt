//! Fingerprints of facts, and of the facts on which clauses are resolved.

ghost use Rattle.std.specs.Prelude.{◌≡◌, length, map, option_map, IfOk};
ghost use Rattle.spec_fingerprints.specs.Fingerprints.{number_of_head, least_of, most_of, roots_among, fingerprint_of, hypothesis_print, clause_print};
ghost use Rattle.term_tree.specs.Bank.{tree_at, AreKnown};
ghost use Rattle.clause_form.specs.Facts.{fact_of};
ghost use Rattle.clause_form.specs.Heads.{head_seen};
ghost use Rattle.clause_form.specs.Seen.{fact_at, clause_at, IsFactIn};
ghost use Rattle.clause_form.specs.Fit.{IsFit, AreFit, clauses_at};
ghost use Rattle.fact_fingerprint.specs.Ranges.{ways_of};
ghost use Rattle.fact_fingerprint.specs.Seen.{fingerprint_seen};

use crate::ranges::range_among;
use clause_form::{Clause, Fact, Head};
use literal_selection::selected;
use std::alloc::{AllocError, Global};
use term_tree::{Bank, Id};

/// How many positions there are.
const PLACES: usize = 32;

/// Where fingerprints look, in the first two terms of a fact: at the term, at four arguments of it, and below these at four,
/// three, two and two. The first number is that of a term, from 0, and each further one that of an argument.
const POSITIONS: [&[usize]; PLACES] = [
    &[0],
    &[0, 0],
    &[0, 1],
    &[0, 2],
    &[0, 3],
    &[0, 0, 0],
    &[0, 0, 1],
    &[0, 0, 2],
    &[0, 0, 3],
    &[0, 1, 0],
    &[0, 1, 1],
    &[0, 1, 2],
    &[0, 2, 0],
    &[0, 2, 1],
    &[0, 3, 0],
    &[0, 3, 1],
    &[1],
    &[1, 0],
    &[1, 1],
    &[1, 2],
    &[1, 3],
    &[1, 0, 0],
    &[1, 0, 1],
    &[1, 0, 2],
    &[1, 0, 3],
    &[1, 1, 0],
    &[1, 1, 1],
    &[1, 1, 2],
    &[1, 2, 0],
    &[1, 2, 1],
    &[1, 3, 0],
    &[1, 3, 1],
];

/// A fact's fingerprint: the number of its head, and at each position the least and the greatest number of what may stand
/// there. These have sixteen bits, so that all positions are compared at once.
#[derive(Clone, Copy)]
pub struct Fingerprint {
    pub head: u64,
    pub least: [u16; 32],
    pub most: [u16; 32],
}

/// The least and the greatest numbers at all positions.
#[derive(Clone, Copy)]
struct Ranges {
    least: [u16; 32],
    most: [u16; 32],
}

/// What may stand at each of 32 positions among terms.
fn ranges_among<B: Bank>(bank: &B, terms: &[Id], positions: &[&[usize]]) -> Ranges
    requires known { AreKnown (B.trees bank.now) terms.now }
    requires many { length positions.now ≡ 32 }
    ensures least { result.least ≡ map least_of (roots_among (ways_of positions.now)
        (map (tree_at (B.trees bank.now)) terms.now)) }
    ensures most { result.most ≡ map most_of (roots_among (ways_of positions.now)
        (map (tree_at (B.trees bank.now)) terms.now)) }
{
    let mut least = [0u16; PLACES];
    let mut most = [0u16; PLACES];
    'each: for i in 0..PLACES {
        let range = range_among(bank, terms, positions[i]);
        least[i] = range.least;
        most[i] = range.most;
    }
    Ranges { least, most }
}

/// The number of a head.
fn head_number(head: Head) -> u64
    ensures { result ≡ number_of_head (head_seen head) }
{
    match head {
        Head::Att(phase) => 8 * u64::from(phase),
        Head::Mess(phase) => 8 * u64::from(phase) + 1,
        Head::Tab(table) => 8 * u64::from(table) + 2,
        Head::Ev(event) => 8 * u64::from(event) + 3,
        Head::Mev(event) => 8 * u64::from(event) + 4,
        Head::Bad => 5,
    }
}

/// The fingerprint of a fact. Takes no memory.
pub fn fingerprint_of_fact<B: Bank>(bank: &B, fact: &Fact) -> Fingerprint
    requires { IsFactIn (B.trees bank.now) (fact_of fact.now) }
    ensures { fingerprint_seen result ≡
        fingerprint_of (fact_at (B.trees bank.now) (fact_of fact.now)) }
{
    let parts = fact.terms();
    let ranges = ranges_among(bank, parts.as_slice(), &POSITIONS);
    let (least, most) = (ranges.least, ranges.most);
    let head = head_number(fact.head());
    Fingerprint { head, least, most }
}

/// The fingerprint of a clause's conclusion. Takes no memory.
pub fn conclusion_fingerprint<B: Bank>(bank: &B, clause: &Clause) -> Fingerprint
    requires { IsFit (B.trees bank.now) clause.now }
    ensures { fingerprint_seen result ≡
        fingerprint_of (clause_at (B.trees bank.now) clause.now).conclusion }
{
    fingerprint_of_fact(bank, &clause.concl)
}

/// The fingerprint of a clause's selected hypothesis; none where it is solved. Takes no memory.
pub fn hypothesis_fingerprint<B: Bank>(bank: &B, clause: &Clause) -> Option<Fingerprint>
    requires { IsFit (B.trees bank.now) clause.now }
    ensures { option_map fingerprint_seen result ≡
        hypothesis_print (clause_at (B.trees bank.now) clause.now) }
{
    let facts = clause.hyps.items.as_slice();
    match selected(bank, clause) {
        Some(at) => Some(fingerprint_of_fact(bank, &facts[at])),
        None => None,
    }
}

/// The fingerprint of the fact on which a clause is resolved: of its selected hypothesis, or of its conclusion where it is
/// solved. Takes no memory.
pub fn clause_fingerprint<B: Bank>(bank: &B, clause: &Clause) -> Fingerprint
    requires { IsFit (B.trees bank.now) clause.now }
    ensures { fingerprint_seen result ≡ clause_print (clause_at (B.trees bank.now) clause.now) }
{
    match hypothesis_fingerprint(bank, clause) {
        Some(print) => print,
        None => conclusion_fingerprint(bank, clause),
    }
}

/// The fingerprints of the selected hypotheses of clauses, in their order. `Err` comes only for want of memory.
pub fn hypothesis_fingerprints<B: Bank>(
    alloc: Global,
    bank: &B,
    clauses: &[Clause],
) -> Result<Vec<Option<Fingerprint>>, AllocError>
    requires { AreFit (B.trees bank.now) clauses.now }
    ensures { IfOk result (λ prints. map (option_map fingerprint_seen) prints.items ≡
        map hypothesis_print (clauses_at (B.trees bank.now) clauses.now)) }
{
    let mut prints = Vec::with_capacity(alloc, clauses.len())?;
    'each: for clause in clauses {
        prints.push(hypothesis_fingerprint(bank, clause))?;
    }
    Ok(prints)
}
