//! The channels on which the attacker hears and sends.

ghost use Rattle.std.specs.Prelude.{◌≡◌, ◌<◌, [], ◌∷◌, ◌++◌, length, IfOk, OnOk};
ghost use Rattle.spec_trees.specs.Tree.{Leaf};
ghost use Rattle.spec_translation.specs.Attacker.{message_heard, message_sent};
ghost use Rattle.term_tree.specs.Bank.{Names, Grows};
ghost use Rattle.spec_clauses.specs.Fact.{Att, Mess};
ghost use Rattle.attacker_clauses.specs.Listed.{Adds};

use crate::listing::{InPhase, add_raw};
use clause_form::{Clause, Clauses, Diffs, Fact, Facts};
use std::alloc::AllocError;
use term_tree::{Bank, Id};

/// That in the phase a message is sent on a channel, and that the attacker has the channel.
fn heard_facts(at: InPhase, channel: Id, message: Id) -> Result<Facts, AllocError>
    ensures { IfOk result (λ facts. facts ≡ Mess at.phase channel message ∷ Att at.phase channel ∷ []) }
{
    let mut facts = Facts::new(at.alloc);
    facts.push(Fact::Mess(at.phase, channel, message))?;
    facts.push(Fact::Att(at.phase, channel))?;
    Ok(facts)
}

/// That in the phase the attacker has a channel and a message.
fn sent_facts(at: InPhase, channel: Id, message: Id) -> Result<Facts, AllocError>
    ensures { IfOk result (λ facts. facts ≡ Att at.phase channel ∷ Att at.phase message ∷ []) }
{
    let mut facts = Facts::new(at.alloc);
    facts.push(Fact::Att(at.phase, channel))?;
    facts.push(Fact::Att(at.phase, message))?;
    Ok(facts)
}

/// Adds that in the phase the attacker hears what is sent on a channel that he has. On `Err` the bank may have grown.
fn add_heard<B: Bank>(
    at: InPhase,
    bank: &mut B,
    channel: Id,
    message: Id,
    list: &mut Clauses,
) -> Result<(), AllocError>
    requires channel { Names (B.trees bank.old) channel (Leaf 0) }
    requires message { Names (B.trees bank.old) message (Leaf 1) }
    ensures grows { Grows (B.trees bank.old) (B.trees bank.new) }
    ensures adds { OnOk result (Adds (B.trees bank.old) list.old (B.trees bank.new) list.new
        (message_heard at.phase ∷ [])) }
{
    let hyps = heard_facts(at, channel, message)?;
    let raw = Clause {
        hyps,
        diffs: Diffs::new(at.alloc),
        concl: Fact::Att(at.phase, message),
    };
    add_raw(at.alloc, bank, raw, list)
}

/// Adds that in the phase the attacker sends what he has on a channel that he has. On `Err` the bank may have grown.
fn add_sent<B: Bank>(
    at: InPhase,
    bank: &mut B,
    channel: Id,
    message: Id,
    list: &mut Clauses,
) -> Result<(), AllocError>
    requires channel { Names (B.trees bank.old) channel (Leaf 0) }
    requires message { Names (B.trees bank.old) message (Leaf 1) }
    ensures grows { Grows (B.trees bank.old) (B.trees bank.new) }
    ensures adds { OnOk result (Adds (B.trees bank.old) list.old (B.trees bank.new) list.new
        (message_sent at.phase ∷ [])) }
{
    let hyps = sent_facts(at, channel, message)?;
    let raw = Clause {
        hyps,
        diffs: Diffs::new(at.alloc),
        concl: Fact::Mess(at.phase, channel, message),
    };
    add_raw(at.alloc, bank, raw, list)
}

/// Adds that in the phase the attacker hears and sends. On `Err` the bank may have grown.
pub(crate) fn add_channels<B: Bank>(
    at: InPhase,
    bank: &mut B,
    list: &mut Clauses,
) -> Result<(), AllocError>
    ensures grows { Grows (B.trees bank.old) (B.trees bank.new) }
    ensures adds { OnOk result (Adds (B.trees bank.old) list.old (B.trees bank.new) list.new
        (message_heard at.phase ∷ message_sent at.phase ∷ [])) }
{
    let channel = bank.var(0)?;
    let message = bank.var(1)?;
    add_heard(at, bank, channel, message, list)?;
    add_sent(at, bank, channel, message, list)
}
