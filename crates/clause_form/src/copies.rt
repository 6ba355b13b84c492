//! Clauses read out of a bank, and copied into one.

ghost use Rattle.std.specs.Prelude.{◌≡◌, ◌<◌, length, map, IfOk, OnErr};
ghost use Rattle.spec_clauses.specs.Head.{made_of};
ghost use Rattle.term_tree.specs.Bank.{tree_at, AreKnown, Names, Grows};
ghost use Rattle.clause_form.specs.Facts.{fact_of};
ghost use Rattle.clause_form.specs.Heads.{head_seen};
ghost use Rattle.clause_diffs.specs.Plain.{term_of};
ghost use Rattle.clause_diffs.specs.Diffs.{diff_at, diffs_at, IsDiffIn, AreDiffsIn, NamesDiff, NameDiffs};
ghost use Rattle.clause_form.specs.PlainFacts.{plain_fact_of};
ghost use Rattle.clause_form.specs.Seen.{fact_at, clause_at, IsFactIn, AreFactsIn, IsClauseIn, NameTerms, NamesFact, NameFacts, NamesClause};

use crate::facts::{Clause, Fact, Facts};
use crate::heads::Head;
use crate::plain::{PlainClause, PlainFact, PlainFacts};
use clause_diffs::{Diff, Diffs, Ids, PlainDiff, PlainDiffs, Tree, Trees};
use std::alloc::{AllocError, Global};
use term_tree::{Bank, Id, Node};

/// The tree of a term.
pub fn read_term<B: Bank>(alloc: Global, bank: &B, id: Id) -> Result<Tree, AllocError>
    requires { id.index < length (B.trees bank.now) }
    ensures { IfOk result (λ tree. term_of tree ≡ tree_at (B.trees bank.now) id) }
{
    match bank.node(id) {
        Node::Var(number) => Ok(Tree::Var(number)),
        Node::App(symbol, arguments) => {
            let mut items = Vec::with_capacity(alloc, arguments.len())?;
            'each: for argument in arguments {
                items.push(read_term(alloc, bank, *argument)?)?;
            }
            Ok(Tree::App(symbol, Trees { items }))
        }
    }
}

/// The trees of terms.
fn read_terms<B: Bank>(alloc: Global, bank: &B, ids: &[Id]) -> Result<Trees, AllocError>
    requires { AreKnown (B.trees bank.now) ids.now }
    ensures { IfOk result (λ trees. trees ≡ map (tree_at (B.trees bank.now)) ids.now) }
{
    let mut items = Vec::with_capacity(alloc, ids.len())?;
    for id in ids {
        items.push(read_term(alloc, bank, *id)?)?;
    }
    Ok(Trees { items })
}

/// The fact over trees.
fn read_fact<B: Bank>(alloc: Global, bank: &B, fact: &Fact) -> Result<PlainFact, AllocError>
    requires { IsFactIn (B.trees bank.now) (fact_of fact.now) }
    ensures { IfOk result (λ plain. plain_fact_of plain ≡
        fact_at (B.trees bank.now) (fact_of fact.now)) }
{
    match fact {
        Fact::Att(phase, term) => Ok(PlainFact::Att(*phase, read_term(alloc, bank, *term)?)),
        Fact::Mess(phase, channel, message) => {
            let channel = read_term(alloc, bank, *channel)?;
            let message = read_term(alloc, bank, *message)?;
            Ok(PlainFact::Mess(*phase, channel, message))
        }
        Fact::Tab(table, arguments) => {
            let arguments = read_terms(alloc, bank, &arguments.items)?;
            Ok(PlainFact::Tab(*table, arguments))
        }
        Fact::Ev(event, arguments) => {
            let arguments = read_terms(alloc, bank, &arguments.items)?;
            Ok(PlainFact::Ev(*event, arguments))
        }
        Fact::Mev(event, arguments) => {
            let arguments = read_terms(alloc, bank, &arguments.items)?;
            Ok(PlainFact::Mev(*event, arguments))
        }
        Fact::Bad(arguments) => {
            let arguments = read_terms(alloc, bank, &arguments.items)?;
            Ok(PlainFact::Bad(arguments))
        }
    }
}

/// The facts over trees.
fn read_facts<B: Bank>(alloc: Global, bank: &B, facts: &[Fact]) -> Result<PlainFacts, AllocError>
    requires { AreFactsIn (B.trees bank.now) (map fact_of facts.now) }
    ensures { IfOk result (λ plain. plain ≡ map (fact_at (B.trees bank.now))
        (map fact_of facts.now)) }
{
    let mut items = Vec::with_capacity(alloc, facts.len())?;
    for fact in facts {
        items.push(read_fact(alloc, bank, fact)?)?;
    }
    Ok(PlainFacts { items })
}

/// The constraint over trees.
fn read_diff<B: Bank>(alloc: Global, bank: &B, diff: &Diff) -> Result<PlainDiff, AllocError>
    requires { IsDiffIn (B.trees bank.now) diff.now }
    ensures { IfOk result (λ plain. plain ≡ diff_at (B.trees bank.now) diff.now) }
{
    let left = read_terms(alloc, bank, &diff.left.items)?;
    let right = read_terms(alloc, bank, &diff.right.items)?;
    Ok(PlainDiff {
        first: diff.first,
        left,
        right,
    })
}

/// The constraints over trees.
fn read_diffs<B: Bank>(alloc: Global, bank: &B, diffs: &[Diff]) -> Result<PlainDiffs, AllocError>
    requires { AreDiffsIn (B.trees bank.now) diffs.now }
    ensures { IfOk result (λ plain. plain ≡ diffs_at (B.trees bank.now) diffs.now) }
{
    let mut items = Vec::with_capacity(alloc, diffs.len())?;
    for diff in diffs {
        items.push(read_diff(alloc, bank, diff)?)?;
    }
    Ok(PlainDiffs { items })
}

/// The clause over trees that a clause over ids stands for.
pub fn read_out<B: Bank>(
    alloc: Global,
    bank: &B,
    clause: &Clause,
) -> Result<PlainClause, AllocError>
    requires { IsClauseIn (B.trees bank.now) clause.now }
    ensures { IfOk result (λ plain. plain ≡ clause_at (B.trees bank.now) clause.now) }
{
    let hyps = read_facts(alloc, bank, &clause.hyps.items)?;
    let diffs = read_diffs(alloc, bank, &clause.diffs.items)?;
    let concl = read_fact(alloc, bank, &clause.concl)?;
    Ok(PlainClause { hyps, diffs, concl })
}

/// The id of a tree. On `Err` the bank may have grown.
fn copy_term<B: Bank>(alloc: Global, bank: &mut B, tree: &Tree) -> Result<Id, AllocError>
    ensures grows { Grows (B.trees bank.old) (B.trees bank.new) }
    ensures names { IfOk result (λ id. Names (B.trees bank.new) id (term_of tree.now)) }
{
    match tree {
        Tree::Var(number) => bank.var(*number),
        Tree::App(symbol, arguments) => {
            let mut ids = Vec::with_capacity(alloc, arguments.items.len())?;
            'each: for argument in &arguments.items {
                let id = copy_term(alloc, bank, argument)?;
                ids.push(id)?;
            }
            bank.app(*symbol, &ids)
        }
    }
}

/// The ids of trees. On `Err` the bank may have grown.
fn copy_terms<B: Bank>(alloc: Global, bank: &mut B, trees: &[Tree]) -> Result<Ids, AllocError>
    ensures grows { Grows (B.trees bank.old) (B.trees bank.new) }
    ensures names { IfOk result (λ ids. NameTerms (B.trees bank.new) ids (map term_of trees.now)) }
{
    let mut items = Vec::with_capacity(alloc, trees.len())?;
    for tree in trees {
        let id = copy_term(alloc, bank, tree)?;
        items.push(id)?;
    }
    Ok(Ids { items })
}

/// The fact of a head and of terms, over ids. On `Err` the bank may have grown.
fn copy_listed<B: Bank>(
    alloc: Global,
    bank: &mut B,
    head: Head,
    terms: &Trees,
) -> Result<Fact, AllocError>
    ensures grows { Grows (B.trees bank.old) (B.trees bank.new) }
    ensures names { IfOk result (λ fact. NamesFact (B.trees bank.new) (fact_of fact)
        (made_of (head_seen head) terms.now)) }
{
    let ids = copy_terms(alloc, bank, &terms.items)?;
    Ok(Fact::made_of(head, ids))
}

/// The fact over ids. On `Err` the bank may have grown.
fn copy_fact<B: Bank>(alloc: Global, bank: &mut B, plain: &PlainFact) -> Result<Fact, AllocError>
    ensures grows { Grows (B.trees bank.old) (B.trees bank.new) }
    ensures names { IfOk result (λ fact. NamesFact (B.trees bank.new) (fact_of fact)
        (plain_fact_of plain.now)) }
{
    match plain {
        PlainFact::Att(phase, term) => Ok(Fact::Att(*phase, copy_term(alloc, bank, term)?)),
        PlainFact::Mess(phase, channel, message) => {
            let channel = copy_term(alloc, bank, channel)?;
            let message = copy_term(alloc, bank, message)?;
            Ok(Fact::Mess(*phase, channel, message))
        }
        PlainFact::Tab(table, terms) => copy_listed(alloc, bank, Head::Tab(*table), terms),
        PlainFact::Ev(event, terms) => copy_listed(alloc, bank, Head::Ev(*event), terms),
        PlainFact::Mev(event, terms) => copy_listed(alloc, bank, Head::Mev(*event), terms),
        PlainFact::Bad(terms) => copy_listed(alloc, bank, Head::Bad, terms),
    }
}

/// The facts over ids. On `Err` the bank may have grown.
fn copy_facts<B: Bank>(
    alloc: Global,
    bank: &mut B,
    plain: &[PlainFact],
) -> Result<Facts, AllocError>
    ensures grows { Grows (B.trees bank.old) (B.trees bank.new) }
    ensures names { IfOk result (λ facts. NameFacts (B.trees bank.new) facts
        (map plain_fact_of plain.now)) }
{
    let mut items = Vec::with_capacity(alloc, plain.len())?;
    for one in plain {
        let fact = copy_fact(alloc, bank, one)?;
        items.push(fact)?;
    }
    Ok(Facts { items })
}

/// The constraint over ids. On `Err` the bank may have grown.
fn copy_diff<B: Bank>(alloc: Global, bank: &mut B, plain: &PlainDiff) -> Result<Diff, AllocError>
    ensures grows { Grows (B.trees bank.old) (B.trees bank.new) }
    ensures names { IfOk result (λ diff. NamesDiff (B.trees bank.new) diff plain.now) }
{
    let left = copy_terms(alloc, bank, &plain.left.items)?;
    let right = copy_terms(alloc, bank, &plain.right.items)?;
    Ok(Diff {
        first: plain.first,
        left,
        right,
    })
}

/// The constraints over ids. On `Err` the bank may have grown.
fn copy_diffs<B: Bank>(
    alloc: Global,
    bank: &mut B,
    plain: &[PlainDiff],
) -> Result<Diffs, AllocError>
    ensures grows { Grows (B.trees bank.old) (B.trees bank.new) }
    ensures names { IfOk result (λ diffs. NameDiffs (B.trees bank.new) diffs plain.now) }
{
    let mut items = Vec::with_capacity(alloc, plain.len())?;
    for one in plain {
        let diff = copy_diff(alloc, bank, one)?;
        items.push(diff)?;
    }
    Ok(Diffs { items })
}

/// The clause over ids. On `Err` the bank may have grown.
fn copy_clause<B: Bank>(
    alloc: Global,
    bank: &mut B,
    plain: &PlainClause,
) -> Result<Clause, AllocError>
    ensures grows { Grows (B.trees bank.old) (B.trees bank.new) }
    ensures names { IfOk result (λ clause. NamesClause (B.trees bank.new) clause plain.now) }
{
    let hyps = copy_facts(alloc, bank, &plain.hyps.items)?;
    let diffs = copy_diffs(alloc, bank, &plain.diffs.items)?;
    let concl = copy_fact(alloc, bank, &plain.concl)?;
    Ok(Clause { hyps, diffs, concl })
}

/// A clause over ids of the bank that stands for a clause over trees.
///
/// `Err` comes only for want of memory; then the bank is as before.
pub fn copy_into<B: Bank>(
    alloc: Global,
    bank: &mut B,
    plain: &PlainClause,
) -> Result<Clause, AllocError>
    ensures grows { Grows (B.trees bank.old) (B.trees bank.new) }
    ensures names { IfOk result (λ clause. NamesClause (B.trees bank.new) clause plain.now) }
    ensures err { OnErr result (B.trees bank.new ≡ B.trees bank.old) }
{
    let mark = bank.mark();
    match copy_clause(alloc, bank, plain) {
        Ok(clause) => Ok(clause),
        Err(error) => {
            bank.back(mark);
            Err(error)
        }
    }
}
