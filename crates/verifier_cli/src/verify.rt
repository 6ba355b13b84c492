//! The command `verify`: the verdicts of the queries of a protocol.

ghost use Rattle.std.specs.Prelude.{◌≡◌, ◌≤◌, ℕ, List, option_map};
ghost use Rattle.command_words.specs.Request as request;
ghost use Rattle.pi_tree.specs.Protocols.{protocol_of};
ghost use Rattle.protocol_loading.specs.Outside.{outside};
ghost use Rattle.call_outcomes.specs.SeenOutcome.{outcome_of};
ghost use Rattle.call_outcomes.specs.Text.{HasText};
ghost use Rattle.verifier_cli.specs.Requests.{ComesTo};

use crate::decision::Decision;
use crate::loading::load_protocol;
use call_outcomes::decided;
use hv_io::Files;
use pi_tree::MOST_BUDGET;
use spec_attack_runs::one_answer;
use spec_protocol_scope::{never_both, one_protocol, one_refusal};
use spec_read_protocols::queries_of_read_protocols;
use spec_verdicts::{one_verdict, proved_queries_hold};
use std::alloc::Global;

/// Loads the file and gives the verdicts of the queries of the protocol that it spells.
pub(crate) fn verify_file<F: Files>(
    alloc: Global,
    file: &str,
    budget: u64,
    files: &mut F,
) -> Decision
    requires { budget ≤ MOST_BUDGET }
    ensures held_stays { (name : List ℕ) → F.held files.new name ≡ F.held files.old name }
    ensures read_faults_rise { (name : List ℕ) → F.faults files.old name ≤ F.faults files.new name }
    ensures words { HasText (option_map protocol_of result.protocol) (outcome_of result.outcome) }
    ensures comes { (format : ℕ) → ComesTo (request.Verify file.now budget format)
        (outside F.held F.faults F.loads files.old files.new)
        (option_map protocol_of result.protocol) (outcome_of result.outcome) }
{
    one_protocol();
    one_refusal();
    never_both();
    queries_of_read_protocols();
    proved_queries_hold();
    one_verdict();
    one_answer();
    match load_protocol(alloc, file, files) {
        Err(outcome) => Decision {
            protocol: None,
            outcome,
        },
        Ok(protocol) => {
            let outcome = decided(alloc, &protocol, budget);
            Decision {
                protocol: Some(protocol),
                outcome,
            }
        }
    }
}
