//! The phases that a file names.

ghost use Rattle.pi_tree.specs.Processes.{process_of};
ghost use Rattle.spec_protocol_scope.specs.Phases as rules;
ghost use Rattle.scope_declarations.specs.Answer.{Gives};
ghost use Rattle.scope_declarations.specs.Text.{texts_of};

use pi_tree::{MOST_PHASES, Process};
use scope_declarations::declarations::capped_number;
use scope_declarations::source::Text;
use scope_declarations::stop::{Code, Stop};
use scope_declarations::text::text_of;

/// The phase that a number spells.
fn named_phase(whole: &Text, token: usize) -> Result<u32, Stop>
    ensures { Gives (λ number. number) result (rules.named_phase (texts_of whole.now) token) }
{
    let number = capped_number(text_of(whole, token), MOST_PHASES);
    if number > MOST_PHASES {
        return Err(Stop::Fault(Code::TooMany, token));
    }
    Ok(number)
}

/// The phase that a process waits for where this one is in force.
pub fn later_phase(whole: &Text, now: u32, token: usize) -> Result<u32, Stop>
    ensures { Gives (λ number. number) result (rules.later_phase (texts_of whole.now) now token) }
{
    let number = named_phase(whole, token)?;
    if number <= now {
        return Err(Stop::Fault(Code::PhaseOrder, token));
    }
    Ok(number)
}

/// The phase that a query asks of, by the number behind the word `phase`.
pub fn asked_phase(whole: &Text, main: &Process, asked: Option<usize>) -> Result<u32, Stop>
    ensures { Gives (λ number. number) result
        (rules.asked_phase (texts_of whole.now) (process_of main.now) asked) }
{
    let greatest = main.greatest_phase();
    match asked {
        None => Ok(greatest),
        Some(token) => {
            let number = named_phase(whole, token)?;
            if number > greatest {
                return Err(Stop::Fault(Code::PhaseOrder, token));
            }
            Ok(number)
        }
    }
}
