//! What is asked for, and what it comes to.

ghost use Rattle.std.specs.Prelude.{◌≡◌, ◌≤◌, ℕ, List, option_map};
ghost use Rattle.command_words.specs.Request.{request_seen};
ghost use Rattle.pi_tree.specs.Protocols.{protocol_of};
ghost use Rattle.protocol_loading.specs.Outside.{outside};
ghost use Rattle.call_outcomes.specs.SeenOutcome.{outcome_of};
ghost use Rattle.call_outcomes.specs.Text.{HasText};
ghost use Rattle.verifier_cli.specs.Command.{IsAskable};
ghost use Rattle.verifier_cli.specs.Requests.{ComesTo};

use crate::check::check_file;
use crate::decision::Decision;
use crate::list::list_file;
use crate::replay::replay_file;
use crate::ringing::ring;
use crate::verify::verify_file;
use command_words::Request;
use hv_io::Files;
use std::alloc::Global;

/// What is asked, and the files that it names, come to.
pub(crate) fn decide<F: Files>(alloc: Global, asked: Request<'_>, files: &mut F) -> Decision
    requires { IsAskable (request_seen asked) }
    ensures held_stays { (name : List ℕ) → F.held files.new name ≡ F.held files.old name }
    ensures read_faults_rise { (name : List ℕ) →
        F.faults files.old name ≤ F.faults files.new name }
    ensures words { HasText (option_map protocol_of result.protocol)
        (outcome_of result.outcome) }
    ensures comes { ComesTo (request_seen asked.entry)
        (outside F.held F.faults F.loads files.old files.new)
        (option_map protocol_of result.protocol) (outcome_of result.outcome) }
{
    match asked {
        Request::Verify { file, budget, .. } => verify_file(alloc, file, budget, files),
        Request::List { file, query } => list_file(alloc, file, query, files),
        Request::Check { file, report } => Decision {
            protocol: None,
            outcome: check_file(alloc, file, report, files),
        },
        Request::Replay { file, run } => Decision {
            protocol: None,
            outcome: replay_file(alloc, file, run, files),
        },
        Request::Ring { stages } => ring(alloc, stages),
    }
}
