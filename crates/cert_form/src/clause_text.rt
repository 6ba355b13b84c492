//! The texts of facts and clauses, whatever the way in which terms are written.

ghost use Rattle.std.specs.Prelude.{◌≡◌, ◌||◌, [], ◌∷◌, ◌++◌, map, flat_map, IfOk, OnOk};
ghost use Rattle.pi_tree.specs.Protocols.{protocol_of};
ghost use Rattle.spec_clauses.specs.Fact.{terms_of};
ghost use Rattle.clause_form.specs.PlainFacts.{plain_fact_of};
ghost use Rattle.spec_certificate_text.specs.Text.{phase_text, clause_text};
ghost use Rattle.spec_certificate_text.specs.Sides.{sides_in_order, spelled_diff, spelled_clause};
ghost use Rattle.spec_node_tables.specs.Table.{spelled_terms, terms_in_order};
ghost use Rattle.spec_node_tables.specs.Text.{terms_text, word_over, event_over, entry_over, fact_over, sides_over};
ghost use Rattle.spec_node_tables.specs.Text.{hypotheses_over, clause_over, clause_lines_over};
ghost use Rattle.cert_form.specs.Premises.{are_any, hypotheses_alone, diffs_alone, premise_terms};
ghost use Rattle.cert_form.specs.Appends.{Appends};
ghost use Rattle.cert_form.specs.Writing.{Writes};

use crate::certs::PlainClauses;
use crate::moving::bound_from;
use crate::parts::{
    FIRST_BOUND, is_alone, put, put_comma, put_gap, put_gap_behind, put_number, put_space,
    put_word, put_word_end,
};
use crate::words::declared_word;
use crate::writing::{Spelled, TermWriter};
use clause_diffs::{PlainDiff, PlainDiffs};
use clause_form::{PlainClause, PlainFact, PlainFacts, Trees};
use pi_tree::Protocol;
use std::alloc::{AllocError, Global};

/// Puts the texts of terms, a comma between each two.
#[tactic(auto, using(crate::proofs::TermTexts::none_written))]
fn put_terms<T: TermWriter>(
    out: &mut Vec<u8>,
    protocol: &Protocol,
    writer: &mut T,
    terms: &Trees,
) -> Result<(), AllocError>
    ensures { OnOk result (Writes T.kept_of (T.one (protocol_of protocol.now)) terms.now
        (λ one. terms_text one (protocol_of protocol.now) terms.now) (T.kept writer.old)
        (T.kept writer.new) out.old.items out.new.items) }
{
    'each: for (place, term) in terms.items.iter().enumerate() {
        put_comma(out, place)?;
        writer.put_term(out, protocol, term)?;
    }
    Ok(())
}

/// Puts the text of a word over terms.
fn put_call<T: TermWriter>(
    out: &mut Vec<u8>,
    protocol: &Protocol,
    writer: &mut T,
    word: &[u8],
    arguments: &Trees,
) -> Result<(), AllocError>
    ensures { OnOk result (Writes T.kept_of (T.one (protocol_of protocol.now)) arguments.now
        (λ one. word_over one (protocol_of protocol.now) word.now arguments.now)
        (T.kept writer.old) (T.kept writer.new) out.old.items out.new.items) }
{
    let alone = is_alone(arguments);
    put_word(out, word, alone)?;
    put_terms(out, protocol, writer, arguments)?;
    put_word_end(out, alone)
}

/// Puts the text of an event of terms.
fn put_event<T: TermWriter>(
    out: &mut Vec<u8>,
    protocol: &Protocol,
    writer: &mut T,
    event: u32,
    arguments: &Trees,
) -> Result<(), AllocError>
    ensures { OnOk result (Writes T.kept_of (T.one (protocol_of protocol.now)) arguments.now
        (λ one. event_over one (protocol_of protocol.now) event arguments.now)
        (T.kept writer.old) (T.kept writer.new) out.old.items out.new.items) }
{
    put_call(
        out,
        protocol,
        writer,
        declared_word(&protocol.events, event),
        arguments,
    )
}

/// Puts the text of an entry of a table.
fn put_entry<T: TermWriter>(
    out: &mut Vec<u8>,
    protocol: &Protocol,
    writer: &mut T,
    table: u32,
    arguments: &Trees,
) -> Result<(), AllocError>
    ensures { OnOk result (Writes T.kept_of (T.one (protocol_of protocol.now)) arguments.now
        (λ one. entry_over one (protocol_of protocol.now) table arguments.now)
        (T.kept writer.old) (T.kept writer.new) out.old.items out.new.items) }
{
    put_call(
        out,
        protocol,
        writer,
        declared_word(&protocol.tables, table),
        arguments,
    )
}

/// Puts the phase of a predicate, which for phase 0 is nothing.
fn put_phase(out: &mut Vec<u8>, phase: u32) -> Result<(), AllocError>
    ensures { OnOk result (Appends (phase_text phase) out.old.items out.new.items) }
{
    if phase == 0 {
        return Ok(());
    }
    put(out, b"@")?;
    put_number(out, u64::from(phase))
}

/// Puts a predicate with its phase, and `(`.
fn put_predicate(out: &mut Vec<u8>, word: &[u8], phase: u32) -> Result<(), AllocError>
    ensures { OnOk result (Appends (λ rest. word.now ++ phase_text phase (40 ∷ rest))
        out.old.items out.new.items) }
{
    put(out, word)?;
    put_phase(out, phase)?;
    put(out, b"(")
}

/// Puts the text of a fact.
fn put_fact<T: TermWriter>(
    out: &mut Vec<u8>,
    protocol: &Protocol,
    writer: &mut T,
    fact: &PlainFact,
) -> Result<(), AllocError>
    ensures { OnOk result (Writes T.kept_of (T.one (protocol_of protocol.now))
        (terms_of (plain_fact_of fact.now))
        (λ one. fact_over one (protocol_of protocol.now) (plain_fact_of fact.now))
        (T.kept writer.old) (T.kept writer.new) out.old.items out.new.items) }
{
    match fact {
        PlainFact::Att(phase, term) => {
            put_predicate(out, b"att", *phase)?;
            writer.put_term(out, protocol, term)?;
            put(out, b")")
        }
        PlainFact::Mess(phase, channel, message) => {
            put_predicate(out, b"mess", *phase)?;
            writer.put_term(out, protocol, channel)?;
            put(out, b",")?;
            writer.put_term(out, protocol, message)?;
            put(out, b")")
        }
        PlainFact::Tab(table, arguments) => {
            put(out, b"tab(")?;
            put_entry(out, protocol, writer, *table, arguments)?;
            put(out, b")")
        }
        PlainFact::Ev(event, arguments) => {
            put(out, b"ev(")?;
            put_event(out, protocol, writer, *event, arguments)?;
            put(out, b")")
        }
        PlainFact::Mev(event, arguments) => {
            put(out, b"mev(")?;
            put_event(out, protocol, writer, *event, arguments)?;
            put(out, b")")
        }
        PlainFact::Bad(arguments) => {
            put(out, b"bad(")?;
            put_terms(out, protocol, writer, arguments)?;
            put(out, b")")
        }
    }
}

/// Puts the texts of hypotheses, a comma and a space between each two.
#[tactic(auto, using(crate::proofs::TermTexts::none_written))]
fn put_hypotheses<T: TermWriter>(
    out: &mut Vec<u8>,
    protocol: &Protocol,
    writer: &mut T,
    hyps: &PlainFacts,
) -> Result<(), AllocError>
    ensures { OnOk result (Writes T.kept_of (T.one (protocol_of protocol.now))
        (flat_map terms_of hyps.now)
        (λ one. hypotheses_alone one (protocol_of protocol.now) hyps.now)
        (T.kept writer.old) (T.kept writer.new) out.old.items out.new.items) }
{
    'each: for (place, hyp) in hyps.items.iter().enumerate() {
        put_gap(out, place)?;
        put_fact(out, protocol, writer, hyp)?;
    }
    Ok(())
}

/// Puts the text of a constraint of these sides, in which bound variables have the numbers that a text spells as theirs.
fn put_sides<T: TermWriter>(
    out: &mut Vec<u8>,
    protocol: &Protocol,
    writer: &mut T,
    left: &Trees,
    right: &Trees,
) -> Result<(), AllocError>
    ensures { OnOk result (Writes T.kept_of (T.one (protocol_of protocol.now))
        (left.now ++ right.now)
        (λ one. sides_over one (protocol_of protocol.now)
        (record { left = left.now; right = right.now }))
        (T.kept writer.old) (T.kept writer.new) out.old.items out.new.items) }
{
    put(out, b"diff(")?;
    put_terms(out, protocol, writer, left)?;
    put(out, b";")?;
    put_terms(out, protocol, writer, right)?;
    put(out, b")")
}

/// Puts the text of a constraint.
fn put_diff<T: TermWriter>(
    out: &mut Vec<u8>,
    protocol: &Protocol,
    writer: &mut T,
    diff: &PlainDiff,
) -> Result<(), AllocError>
    ensures { OnOk result (Writes T.kept_of (T.one (protocol_of protocol.now))
        (sides_in_order (spelled_diff diff.now))
        (λ one. sides_over one (protocol_of protocol.now) (spelled_diff diff.now))
        (T.kept writer.old) (T.kept writer.new) out.old.items out.new.items) }
{
    let spelled = bound_from(*out.allocator(), diff, FIRST_BOUND)?;
    put_sides(out, protocol, writer, &spelled.left, &spelled.right)
}

/// Puts the texts of constraints, a comma and a space between each two, and before the first too where it stands behind
/// hypotheses.
#[tactic(auto, using(crate::proofs::TermTexts::none_written))]
fn put_diffs<T: TermWriter>(
    out: &mut Vec<u8>,
    protocol: &Protocol,
    writer: &mut T,
    diffs: &PlainDiffs,
    behind: bool,
) -> Result<(), AllocError>
    ensures { OnOk result (Writes T.kept_of (T.one (protocol_of protocol.now))
        (flat_map (λ d. sides_in_order (spelled_diff d)) diffs.now)
        (λ one. diffs_alone one (protocol_of protocol.now) behind diffs.now)
        (T.kept writer.old) (T.kept writer.new) out.old.items out.new.items) }
{
    'each: for (place, diff) in diffs.items.iter().enumerate() {
        put_gap_behind(out, behind, place)?;
        put_diff(out, protocol, writer, diff)?;
    }
    Ok(())
}

/// Whether there are hypotheses.
fn has_hypotheses(hyps: &PlainFacts) -> bool
    ensures { result ≡ are_any hyps.now }
{
    !hyps.items.is_empty()
}

/// Whether there are constraints.
fn has_diffs(diffs: &PlainDiffs) -> bool
    ensures { result ≡ are_any diffs.now }
{
    !diffs.items.is_empty()
}

/// Whether a clause has hypotheses or constraints.
fn has_premises(clause: &PlainClause) -> bool
    ensures { result ≡ are_any clause.now.hypotheses || are_any clause.now.diffs }
{
    has_hypotheses(&clause.hyps) || has_diffs(&clause.diffs)
}

/// Puts the texts of the hypotheses and the constraints of a clause, and a space behind the last.
fn put_premises<T: TermWriter>(
    out: &mut Vec<u8>,
    protocol: &Protocol,
    writer: &mut T,
    clause: &PlainClause,
) -> Result<(), AllocError>
    ensures { OnOk result (Writes T.kept_of (T.one (protocol_of protocol.now))
        (premise_terms clause.now)
        (λ one. hypotheses_over one (protocol_of protocol.now) clause.now.hypotheses
        (map spelled_diff clause.now.diffs))
        (T.kept writer.old) (T.kept writer.new) out.old.items out.new.items) }
{
    let behind = has_hypotheses(&clause.hyps);
    let wanted = has_premises(clause);
    put_hypotheses(out, protocol, writer, &clause.hyps)?;
    put_diffs(out, protocol, writer, &clause.diffs, behind)?;
    put_space(out, wanted)
}

/// Puts the text of a clause.
fn put_clause_with<T: TermWriter>(
    out: &mut Vec<u8>,
    protocol: &Protocol,
    writer: &mut T,
    clause: &PlainClause,
) -> Result<(), AllocError>
    ensures { OnOk result (Writes T.kept_of (T.one (protocol_of protocol.now))
        (spelled_terms (spelled_clause clause.now))
        (λ one. clause_over one (protocol_of protocol.now) (spelled_clause clause.now))
        (T.kept writer.old) (T.kept writer.new) out.old.items out.new.items) }
{
    put_premises(out, protocol, writer, clause)?;
    put(out, b"=> ")?;
    put_fact(out, protocol, writer, &clause.concl)
}

/// Puts a line for each clause.
#[tactic(auto, using(crate::proofs::TermTexts::none_written))]
pub(crate) fn put_clause_lines<T: TermWriter>(
    out: &mut Vec<u8>,
    protocol: &Protocol,
    writer: &mut T,
    clauses: &PlainClauses,
) -> Result<(), AllocError>
    ensures { OnOk result (Writes T.kept_of (T.one (protocol_of protocol.now))
        (terms_in_order clauses.now)
        (λ one. clause_lines_over one (protocol_of protocol.now)
        (map spelled_clause clauses.now))
        (T.kept writer.old) (T.kept writer.new) out.old.items out.new.items) }
{
    'each: for clause in &clauses.items {
        put(out, b"c ")?;
        put_clause_with(out, protocol, writer, clause)?;
        put(out, b"\n")?;
    }
    Ok(())
}

/// Puts the text of a clause at the end, without a line feed, each term as it stands.
///
/// `Err` is want of memory. Nothing is said of the text then: it is to be let go.
pub fn put_clause(
    out: &mut Vec<u8>,
    protocol: &Protocol,
    clause: &PlainClause,
) -> Result<(), AllocError>
    ensures onto { OnOk result (Appends (clause_text (protocol_of protocol.now) clause.now)
        out.old.items out.new.items) }
    ensures text { OnOk result (out.new.items ≡
        out.old.items ++ clause_text (protocol_of protocol.now) clause.now []) }
{
    put_clause_with(out, protocol, &mut Spelled, clause)
}

/// The text of a clause, without a line feed, each term as it stands.
///
/// `Err` is want of memory.
pub fn write_clause(
    alloc: Global,
    protocol: &Protocol,
    clause: &PlainClause,
) -> Result<Vec<u8>, AllocError>
    ensures { IfOk result (λ text. text.items ≡
        clause_text (protocol_of protocol.now) clause.now []) }
{
    let mut text = Vec::new(alloc);
    put_clause(&mut text, protocol, clause)?;
    Ok(text)
}
