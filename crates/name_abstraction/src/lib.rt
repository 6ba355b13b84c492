//! Restricted names as terms over what was received and over the copies that they come from (Blanchet 2016, section 4).
#![tactic(auto)]

ghost use Rattle.std.specs.Prelude.{◌≡◌, map, IfOk, OnErr};
ghost use Rattle.term_tree.specs.Bank.{tree_at, AreKnown, Names, Grows};
ghost use Rattle.spec_translation.specs.Conversion.{name_term};

pub use spec_abstraction::{abstraction_is_one_to_one, restrictions_run_once};
use std::alloc::{AllocError, Global};
use term_tree::{Bank, Id, Sym};

/// The id of the restricted name of a point, over the messages that were received above the point, in
/// order, and then the session variables of the replications above it, in order.
///
/// `Err` comes only for want of memory; then the bank is as before.
pub fn name_of_point<B: Bank>(
    alloc: Global,
    bank: &mut B,
    point: u32,
    inputs: &[Id],
    sessions: &[Id],
) -> Result<Id, AllocError>
    requires inputs { AreKnown (B.trees bank.old) inputs.now }
    requires sessions { AreKnown (B.trees bank.old) sessions.now }
    ensures names { IfOk result (λ id. Names (B.trees bank.new) id
        (name_term point (map (tree_at (B.trees bank.old)) inputs.now)
        (map (tree_at (B.trees bank.old)) sessions.now))) }
    ensures grows { Grows (B.trees bank.old) (B.trees bank.new) }
    ensures err { OnErr result (B.trees bank.new ≡ B.trees bank.old) }
{
    let mut arguments = inputs.to_vec(alloc)?;
    arguments.extend_from_slice(sessions)?;
    bank.app(Sym::Point(point), &arguments)
}
