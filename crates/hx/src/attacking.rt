//! Attacks on a query: the run that `verify` tells, or one that a search finds.

ghost use Rattle.std.specs.Prelude.{◌≡◌, ◌<◌, ◌^◌, ℕ, true, IfOk, option_copied};
ghost use Rattle.spec_calculus.specs.Secrecy.{Holds};
ghost use Rattle.pi_tree.specs.Protocols.{protocol_of};
ghost use Rattle.pi_tree.specs.Accessors.{IsThere};
ghost use Rattle.pi_tree.specs.declared.accessors.Kind.TheVariants.{Query as OfQueries};
ghost use Rattle.clause_instances.specs.Derivations.{HasNormedLog};
ghost use Rattle.query_derive.specs.GoalRows.{OfQuery};
ghost use Rattle.query_verify.specs.Told.{IsAnswer};
ghost use Rattle.query_verify.specs.Asked.{IsNeverLarge};
ghost use Rattle.attack_search.specs.Found.{IsAttackWhereFound};
ghost use Rattle.hx.specs.Readable.{IsReadable};
ghost use Rattle.hx.specs.Attacks.{is_settled, run_in, is_proof, IsFinding, ViolatesIfFound};

use attack_candidates::{Candidates, candidates_of};
use attack_search::{Effort, Search, Searched, find_attack};
use clause_translate::sources;
use pi_tree::Protocol;
use query_verify::{Verdict, verdict};
use run_replay::Steps;
use spec_verdicts::proved_queries_hold;
use std::alloc::{AllocError, Global};
use term_store::SharedBank;

/// A query of a protocol, by its number from 1, and how many entries its log may have.
#[derive(Clone, Copy)]
pub struct Question<'a> {
    pub alloc: Global,
    pub protocol: &'a Protocol,
    pub query: u32,
    pub budget: u64,
}

/// What is found of a query.
#[derive(Drop)]
pub enum Finding {
    /// The verdict of `verify`, where that settles the query: it is proved, or there is an attack.
    Told(Verdict),
    /// What a search for an attack comes to, where the verdict doesn't settle it.
    Searched(Searched),
}

/// What a search comes to that begins nowhere.
const NO_EFFORT: Effort = Effort {
    candidates: 0,
    instances: 0,
    steps: 0,
};

/// The verdict of `verify`, over a bank of its own.
fn verdict_of(question: &Question<'_>) -> Result<Verdict, AllocError>
    requires readable { IsReadable (protocol_of question.now.protocol.now) }
    requires there { IsThere (protocol_of question.now.protocol.now) OfQueries question.now.query }
    requires budget { question.now.budget < 2 ^ 32 }
    ensures { let P = protocol_of question.now.protocol.now in IfOk result (λ answer.
        OfQuery P question.now.query (λ q. IsAnswer P q question.now.budget answer)) }
{
    let alloc = question.alloc;
    let mut bank = SharedBank::new(alloc)?;
    let answer = verdict(
        alloc,
        &mut bank,
        question.protocol,
        question.query,
        question.budget,
    );
    drop(bank);
    answer
}

/// What the search comes to that begins with these entries.
fn search_among(question: &Question<'_>, found: &Candidates) -> Result<Searched, AllocError>
    requires readable { IsReadable (protocol_of question.now.protocol.now) }
    requires there { IsThere (protocol_of question.now.protocol.now) OfQueries question.now.query }
    requires small { IsNeverLarge (protocol_of question.now.protocol.now) }
    requires normed { HasNormedLog found.now.log }
    ensures { IfOk result
        (IsAttackWhereFound (protocol_of question.now.protocol.now) question.now.query) }
{
    let alloc = question.alloc;
    let mut bank = SharedBank::new(alloc)?;
    let told = sources(alloc, &mut bank, question.protocol, question.query);
    drop(bank);
    let given = told?;
    let looking = Search {
        alloc,
        protocol: question.protocol,
        query: question.query,
        sources: &given,
        log: &found.log,
    };
    find_attack(&looking, &found.entries)
}

/// What the search comes to.
fn search_of(question: &Question<'_>) -> Result<Searched, AllocError>
    requires readable { IsReadable (protocol_of question.now.protocol.now) }
    requires there { IsThere (protocol_of question.now.protocol.now) OfQueries question.now.query }
    requires budget { question.now.budget < 2 ^ 32 }
    ensures { IfOk result
        (IsAttackWhereFound (protocol_of question.now.protocol.now) question.now.query) }
{
    let found = candidates_of(
        question.alloc,
        question.protocol,
        question.query,
        question.budget,
    )?;
    match found {
        None => Ok(Searched::Nothing(NO_EFFORT)),
        Some(found) => search_among(question, &found),
    }
}

/// Whether the verdict settles the query: it is proved, or there is an attack.
fn is_settled(answer: &Verdict) -> bool
    ensures { result ≡ is_settled answer.now }
{
    match answer {
        Verdict::Proved(_) | Verdict::Attack(_) => true,
        Verdict::Budget(_, _)
        | Verdict::SizePair(_, _, _)
        | Verdict::SizePoint(_)
        | Verdict::Unmet(_, _) => false,
    }
}

/// What is found of a query: its verdict with the budget where that settles it, else what a search for an attack comes to.
///
/// The conditions hold of each protocol that is read, and of each budget that a command may name. `Err` comes for want of
/// memory, and where `verdict` answers it since a number doesn't fit.
pub fn attack_of(question: &Question<'_>) -> Result<Finding, AllocError>
    requires readable { IsReadable (protocol_of question.now.protocol.now) }
    requires there { IsThere (protocol_of question.now.protocol.now) OfQueries question.now.query }
    requires budget { question.now.budget < 2 ^ 32 }
    ensures told { let P = protocol_of question.now.protocol.now in IfOk result (λ found.
        OfQuery P question.now.query (λ q. IsFinding P q question.now.budget found)) }
    // A run that is found is one whose replay ends in a violation of this query.
    ensures violates { let P = protocol_of question.now.protocol.now in IfOk result (λ found.
        OfQuery P question.now.query (λ q. ViolatesIfFound P q found)) }
    ensures holds { let P = protocol_of question.now.protocol.now in IfOk result (λ found.
        is_proof found ≡ true → OfQuery P question.now.query (λ q. Holds P q)) }
{
    proved_queries_hold();
    let answer = verdict_of(question)?;
    if is_settled(&answer) {
        return Ok(Finding::Told(answer));
    }
    drop(answer);
    let found = search_of(question)?;
    Ok(Finding::Searched(found))
}

/// The run that is found, if one is.
pub fn run_of(finding: &Finding) -> Option<&Steps>
    ensures { option_copied result ≡ run_in finding.now }
{
    match finding {
        Finding::Told(Verdict::Attack(steps)) | Finding::Searched(Searched::Found(steps)) => {
            Some(steps)
        }
        Finding::Told(_) | Finding::Searched(Searched::Nothing(_)) => None,
    }
}
