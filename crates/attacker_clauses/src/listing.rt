//! Raw clauses, each listed by what it gives.

ghost use Rattle.std.specs.Prelude.{◌≡◌, ◌<◌, [], ◌∷◌, ◌++◌, length, map, IfOk, OnOk};
ghost use Rattle.spec_clauses.specs.Fact.{Att};
ghost use Rattle.term_tree.specs.Bank.{tree_at, AreKnown, Grows};
ghost use Rattle.clause_form.specs.Seen.{clause_at, IsClauseIn};
ghost use Rattle.attacker_clauses.specs.Listed.{Adds};

use clause_form::{Clause, Clauses, Diffs, Fact, Facts};
use clause_norms::norms_of;
use std::alloc::{AllocError, Global};
use term_tree::{Bank, Id};

/// Adds the norms of the flat parts of a raw clause. On `Err` the bank may have grown.
fn add_norms<B: Bank>(
    alloc: Global,
    bank: &mut B,
    raw: &Clause,
    list: &mut Clauses,
) -> Result<(), AllocError>
    requires { IsClauseIn (B.trees bank.old) raw.now }
    ensures grows { Grows (B.trees bank.old) (B.trees bank.new) }
    ensures adds { OnOk result (Adds (B.trees bank.old) list.old (B.trees bank.new) list.new
        (clause_at (B.trees bank.old) raw.now ∷ [])) }
{
    let mut made = norms_of(alloc, bank, raw)?;
    list.items.append(&mut made.items)?;
    Ok(())
}

/// Adds what a raw clause gives. On `Err` the bank may have grown.
pub(crate) fn add_raw<B: Bank>(
    alloc: Global,
    bank: &mut B,
    raw: Clause,
    list: &mut Clauses,
) -> Result<(), AllocError>
    requires { IsClauseIn (B.trees bank.old) raw }
    ensures grows { Grows (B.trees bank.old) (B.trees bank.new) }
    ensures adds { OnOk result (Adds (B.trees bank.old) list.old (B.trees bank.new) list.new
        (clause_at (B.trees bank.old) raw ∷ [])) }
{
    let added = add_norms(alloc, bank, &raw, list);
    drop(raw);
    added
}

/// The phase of the facts that are made, and the allocator of what is made.
#[derive(Clone, Copy)]
pub(crate) struct InPhase {
    pub alloc: Global,
    pub phase: u32,
}

/// That the attacker has each of these terms in the phase.
fn known_facts(at: InPhase, terms: &[Id]) -> Result<Facts, AllocError>
    ensures { IfOk result (λ facts. facts ≡ map (Att at.phase) terms.now) }
{
    let mut facts = Facts::new(at.alloc);
    for term in terms {
        facts.push(Fact::Att(at.phase, *term))?;
    }
    Ok(facts)
}

/// Adds that in the phase the attacker has the last term where he has the others. On `Err` the bank may have grown.
pub(crate) fn add_known<B: Bank>(
    at: InPhase,
    bank: &mut B,
    terms: &[Id],
    last: Id,
    list: &mut Clauses,
) -> Result<(), AllocError>
    requires terms { AreKnown (B.trees bank.old) terms.now }
    requires last { last.index < length (B.trees bank.old) }
    ensures grows { Grows (B.trees bank.old) (B.trees bank.new) }
    ensures adds { OnOk result (Adds (B.trees bank.old) list.old (B.trees bank.new) list.new
        (record {
          hypotheses = map (Att at.phase) (map (tree_at (B.trees bank.old)) terms.now);
          diffs = [];
          conclusion =
              Att at.phase (tree_at (B.trees bank.old) last);
        } ∷ [])) }
{
    let hyps = known_facts(at, terms)?;
    let raw = Clause {
        hyps,
        diffs: Diffs::new(at.alloc),
        concl: Fact::Att(at.phase, last),
    };
    add_raw(at.alloc, bank, raw, list)
}
