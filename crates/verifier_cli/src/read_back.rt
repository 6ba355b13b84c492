//! What `check` comes to on a report that `verify` wrote: a law of what the two calls are said to come to.

ghost use Rattle.std.specs.Prelude.{◌≤◌, ℕ, List, Some};
ghost use Rattle.spec_calculus.specs.Bounds.{most_budget};
ghost use Rattle.spec_calculus.specs.Syntax.{Protocol};
ghost use Rattle.spec_protocol_scope.specs.Spells.{Spells};
ghost use Rattle.call_outcomes.specs.Outcome as own;
ghost use Rattle.call_outcomes.specs.Text.{outcome_bytes};
ghost use Rattle.verifier_cli.specs.Command.{Verifies};
ghost use Rattle.verifier_cli.specs.ReadBack.{IsReadBack};

use spec_certificate_text::spelled_protocols_have_names;
use spec_certificates::one_ruling;
use spec_protocol_scope::within_limits;
use spec_readable_verdicts::proved_certificates_may_stand;
use spec_verdicts::first_certificates_are_accepted;
use spec_written_certificates::written_certificates_are_spelled;

/// The text of verdicts, in whichever format, is a report, and its certificates are accepted: of each query that is proved one, and of each other
/// nothing is claimed.
pub fn verdicts_are_read_back()
    ensures { (bytes : List ℕ) (P : Protocol) (budget format : ℕ) (outcome : own.Outcome) →
        budget ≤ most_budget → Spells bytes P → Verifies bytes budget outcome →
        IsReadBack bytes (outcome_bytes format (Some P) outcome) outcome }
{
    spelled_protocols_have_names();
    within_limits();
    proved_certificates_may_stand();
    written_certificates_are_spelled();
    first_certificates_are_accepted();
    one_ruling();
}
