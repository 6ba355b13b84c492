//! The protocol of a command, or what the command comes to without one.

ghost use Rattle.std.specs.Prelude.{◌≡◌, ◌≤◌, ℕ, List, length, IfOk, IfErr};
ghost use Rattle.spec_calculus.specs.Bounds.{most_bytes};
ghost use Rattle.spec_protocol_scope.specs.Spells.{Spells};
ghost use Rattle.pi_tree.specs.Protocols.{protocol_of};
ghost use Rattle.protocol_loading.specs.Loaded.{IsLoaded};
ghost use Rattle.protocol_loading.specs.Outside.{OfFile, outside};
ghost use Rattle.run_replay.specs.Limits.{IsLimited};
ghost use Rattle.call_outcomes.specs.SeenOutcome.{outcome_of};
ghost use Rattle.verifier_cli.specs.Unread.{IsNoReading, IsUnread, outcome_by};

use call_outcomes::{Outcome, Refusal};
use hv_io::Files;
use pi_tree::Protocol;
use protocol_loading::Unread;
use std::alloc::Global;

/// What a call comes to without a protocol.
fn unread(why: Unread) -> Outcome
    ensures { outcome_of result ≡ outcome_by why }
{
    match why {
        Unread::Fault => Outcome::ReadFault,
        Unread::Refused { line, column, code } => {
            Outcome::Refused(Refusal::Protocol { line, column, code })
        }
        Unread::Memory => Outcome::Memory,
    }
}

/// The protocol that the bytes spell, which are not too many, or what the call comes to where they are refused.
pub(crate) fn protocol_in(alloc: Global, bytes: &[u8]) -> Result<Protocol, Outcome>
    requires { length bytes.now ≤ most_bytes }
    ensures loaded { IfOk result (λ protocol. IsLoaded (protocol_of protocol)) }
    ensures spelled { IfOk result (λ protocol. Spells bytes.now (protocol_of protocol)) }
    ensures unread { IfErr result (λ outcome. IsNoReading bytes.now (outcome_of outcome)) }
{
    match protocol_loading::protocol_in(alloc, bytes) {
        Ok(protocol) => Ok(protocol),
        Err(why) => Err(unread(why)),
    }
}

/// The protocol that a file spells, or what the call comes to where there is none.
pub(crate) fn load_protocol<F: Files>(
    alloc: Global,
    file: &str,
    files: &mut F,
) -> Result<Protocol, Outcome>
    ensures held_stays { (name : List ℕ) → F.held files.new name ≡ F.held files.old name }
    ensures read_faults_rise { (name : List ℕ) → F.faults files.old name ≤ F.faults files.new name }
    ensures limited { IfOk result (λ protocol. IsLimited (protocol_of protocol)) }
    ensures loaded { IfOk result (λ protocol. IsLoaded (protocol_of protocol)) }
    ensures spelled { IfOk result (λ protocol.
        OfFile (outside F.held F.faults F.loads files.old files.new) file.now most_bytes (λ bytes.
        Spells bytes (protocol_of protocol))) }
    ensures unread { IfErr result (λ outcome.
        IsUnread (outside F.held F.faults F.loads files.old files.new) file.now
        (outcome_of outcome)) }
{
    match protocol_loading::load_protocol(alloc, file, files) {
        Ok(protocol) => Ok(protocol),
        Err(why) => Err(unread(why)),
    }
}
