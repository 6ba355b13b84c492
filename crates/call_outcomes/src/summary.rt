//! The text of the summary of a ring.

ghost use Rattle.std.specs.Prelude.{◌≡◌, ◌++◌, OnOk};
ghost use Rattle.pi_tree.specs.Protocols.{protocol_of};
ghost use Rattle.call_outcomes.specs.Text.{number_lines, summary_lines};

use crate::outcome::Ring;
use crate::verdicts::put_verdict_line;
use hv_io::put_words;
use pi_tree::Protocol;
use std::alloc::AllocError;

/// Puts how many keys the ring has, how many bytes its text, and how many clauses its translation, a line for each.
fn put_numbers(out: &mut Vec<u8>, ring: &Ring) -> Result<(), AllocError>
    ensures { OnOk result (out.new.items ≡ out.old.items ++ number_lines ring.now) }
{
    put_words(out, format_args!("ring {}\n", ring.stages))?;
    put_words(out, format_args!("bytes {}\n", ring.bytes))?;
    put_words(out, format_args!("clauses {}\n", ring.clauses))
}

/// Puts the summary's lines, in the words of the ring's protocol.
pub(crate) fn put_summary(
    out: &mut Vec<u8>,
    protocol: &Protocol,
    ring: &Ring,
) -> Result<(), AllocError>
    ensures { OnOk result (out.new.items ≡
        out.old.items ++ summary_lines ring.now (protocol_of protocol.now)) }
{
    put_numbers(out, ring)?;
    out.extend_from_slice(b"query 1 ")?;
    put_verdict_line(out, protocol, &ring.verdict)
}
