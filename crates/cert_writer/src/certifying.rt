//! The certificate of a closed log.

ghost use Rattle.std.specs.Prelude.{◌≡◌, ◌<◌, ◌^◌, ℕ, length, IfOk, OnOk};
ghost use Rattle.spec_well_formed.specs.Limits.{IsWithinLimits};
ghost use Rattle.spec_terms.specs.Term.{Term};
ghost use Rattle.spec_clauses.specs.Fact.{Clause as ClauseOf};
ghost use Rattle.spec_clauses.specs.Inclusion.{Has};
ghost use Rattle.spec_translation.specs.Translation.{Clauses as TranslatedTo, IsTranslation};
ghost use Rattle.spec_saturation.specs.Live.{MustBeCovered};
ghost use Rattle.pi_tree.specs.Protocols.{protocol_of};
ghost use Rattle.pi_tree.specs.Accessors.{IsThere};
ghost use Rattle.pi_tree.specs.declared.accessors.Kind.TheVariants.{Query as OfQueries};
ghost use Rattle.clause_form.specs.Seen.{AreClausesIn};
ghost use Rattle.query_derive.specs.GoalRows.{OfQuery};
ghost use Rattle.clause_form.specs.Fit.{clauses_at};
ghost use Rattle.log_entries.specs.Logs.{IsClosedLog};
ghost use Rattle.cert_writer.specs.Ready.{IsReady};
ghost use Rattle.cert_writer.specs.Adding.{MustClose, AreRowsOf};
ghost use Rattle.cert_writer.specs.Known.{IsKnown, BeginWith};
ghost use Rattle.cert_writer.specs.Given.{AreSmall};
ghost use Rattle.cert_writer.specs.Certifying.{IsWritten, IsVerdictOf, IsAcceptedIfCert, HoldsIfCert};

use crate::all_pairs::cover_closed;
use crate::certified::Certified;
use crate::covering::{conclusion_classes, conclusion_prints};
use crate::given::{begin_with_known, cover_given, keep_covers};
use crate::known::{KnownRows, none_known};
use crate::living::live_of;
use crate::plain::plain_with;
use crate::satisfying::{Goals, goal_rows};
use crate::writer::Writer;
use cert_form::{Cert, Rows};
use clause_form::Clause;
use clause_saturate::Log;
use pi_tree::Protocol;
use spec_verdicts::proved_queries_hold;
use std::alloc::{AllocError, Global};
use term_tree::Bank;

/// The first rows of the given clauses, and then of what all pairs of live clauses give, where these clauses begin with those
/// whose rows are kept. The bank is as before.
fn rows_with<B: Bank>(
    bank: &mut B,
    writer: &Writer<'_>,
    given: &[Clause],
    known: &mut KnownRows,
) -> Result<Rows, AllocError>
    requires ready { IsReady (B.trees bank.old) writer.now }
    requires given { AreSmall (B.trees bank.old) given.now }
    requires covered { let all = B.trees bank.old in (c : ClauseOf Term) →
        Has (clauses_at all given.now) c → MustBeCovered (clauses_at all writer.now.live.now) c }
    requires closed { MustClose (clauses_at (B.trees bank.old) writer.now.live.now) }
    requires known { IsKnown (B.trees bank.old) known.old }
    requires begin { BeginWith (B.trees bank.old) writer.now.live.now known.old.live }
    requires begin_given { BeginWith (B.trees bank.old) given.now known.old.given }
    ensures rows { let all = B.trees bank.old in IfOk result (λ rows.
        AreRowsOf (clauses_at all writer.now.live.now) (clauses_at all given.now) rows) }
    ensures known { OnOk result (IsKnown (B.trees bank.old) known.new) }
    ensures live { known.new.live ≡ known.old.live }
    ensures given { known.new.given ≡ known.old.given }
    ensures bank { B.trees bank.new ≡ B.trees bank.old }
{
    let mut rows = Rows {
        items: Vec::new(writer.alloc),
    };
    keep_covers(bank, writer, given, known)?;
    cover_given(bank, writer, given, known, &mut rows)?;
    cover_closed(bank, writer, known, &mut rows)?;
    Ok(rows)
}

/// The certificate of the live clauses, with these goal rows, where these clauses begin with those whose rows are kept. The bank
/// is as before.
fn cert_with<B: Bank>(
    bank: &mut B,
    writer: &Writer<'_>,
    given: &[Clause],
    goals: Rows,
    known: &mut KnownRows,
) -> Result<Cert, AllocError>
    requires ready { IsReady (B.trees bank.old) writer.now }
    requires given { AreSmall (B.trees bank.old) given.now }
    requires covered { let all = B.trees bank.old in (c : ClauseOf Term) →
        Has (clauses_at all given.now) c → MustBeCovered (clauses_at all writer.now.live.now) c }
    requires closed { MustClose (clauses_at (B.trees bank.old) writer.now.live.now) }
    requires known { IsKnown (B.trees bank.old) known.old }
    requires begin { BeginWith (B.trees bank.old) writer.now.live.now known.old.live }
    requires begin_given { BeginWith (B.trees bank.old) given.now known.old.given }
    ensures cert { let all = B.trees bank.old in IfOk result (λ cert.
        IsWritten (clauses_at all writer.now.live.now) (clauses_at all given.now) goals cert) }
    ensures known { OnOk result (IsKnown (B.trees bank.old) known.new) }
    ensures live { known.new.live ≡ known.old.live }
    ensures given { known.new.given ≡ known.old.given }
    ensures bank { B.trees bank.new ≡ B.trees bank.old }
{
    let rows = rows_with(bank, writer, given, known)?;
    let clauses = plain_with(bank, writer, known)?;
    Ok(Cert {
        clauses,
        rows,
        goals,
    })
}

/// The certificate of the live clauses, with these goal rows. The bank is as before.
fn cert_of<B: Bank>(
    bank: &mut B,
    writer: &Writer<'_>,
    given: &[Clause],
    goals: Rows,
    known: &mut KnownRows,
) -> Result<Cert, AllocError>
    requires ready { IsReady (B.trees bank.old) writer.now }
    requires given { AreSmall (B.trees bank.old) given.now }
    requires covered { let all = B.trees bank.old in (c : ClauseOf Term) →
        Has (clauses_at all given.now) c → MustBeCovered (clauses_at all writer.now.live.now) c }
    requires closed { MustClose (clauses_at (B.trees bank.old) writer.now.live.now) }
    requires known { IsKnown (B.trees bank.old) known.old }
    ensures cert { let all = B.trees bank.old in IfOk result (λ cert.
        IsWritten (clauses_at all writer.now.live.now) (clauses_at all given.now) goals cert) }
    ensures known { OnOk result (IsKnown (B.trees bank.old) known.new) }
    ensures live { known.new.live ≡ known.old.live }
    ensures given { known.new.given ≡ known.old.given }
    ensures bank { B.trees bank.new ≡ B.trees bank.old }
{
    if !begin_with_known(bank, writer, given, known) {
        let mut none = none_known(writer.alloc);
        return cert_with(bank, writer, given, goals, &mut none);
    }
    cert_with(bank, writer, given, goals, known)
}

/// A closed log, and of what it is the log: the clauses that a protocol and the query of that number are translated into.
#[derive(Clone, Copy)]
pub struct ClosedLog<'a> {
    pub protocol: &'a Protocol,
    pub query: u32,
    pub given: &'a [Clause],
    pub log: &'a Log,
}

/// The certificate of a closed log of a query's translation: its live clauses, to each obligation the first row that shows it,
/// and to each solved clause that concludes `bad` the first goal row; or the first live solved entry that concludes `bad`
/// and doesn't satisfy the query. So the verdict of the query, with any budget that the log is closed with, is that it is proved
/// by this certificate, or that this entry is unmet.
///
/// The time is that of the search of rows, which is hard; see `multiset_subsume`.
///
/// The rows of clauses that are given or live before any goal are taken from those that are kept, and kept for further queries.
///
/// `Err` is want of memory: the bank is as before, and what is kept is not for further queries.
pub fn certify_with<B: Bank>(
    alloc: Global,
    bank: &mut B,
    closed: &ClosedLog<'_>,
    known: &mut KnownRows,
) -> Result<Certified, AllocError>
    requires limits { IsWithinLimits (protocol_of closed.now.protocol.now) }
    requires there { IsThere (protocol_of closed.now.protocol.now) OfQueries closed.now.query }
    requires known { AreClausesIn (B.trees bank.old) closed.now.given.now }
    requires translation { let P = protocol_of closed.now.protocol.now in
        OfQuery P closed.now.query (λ q. IsTranslation P q
        (TranslatedTo (clauses_at (B.trees bank.old) closed.now.given.now))) }
    requires closed { let all = B.trees bank.old in
        (budget : ℕ) × IsClosedLog all (clauses_at all closed.now.given.now) budget
        closed.now.log.now }
    requires few { length closed.now.log.now < 2 ^ 32 }
    requires kept { IsKnown (B.trees bank.old) known.old }
    ensures verdict { let P = protocol_of closed.now.protocol.now in let all = B.trees bank.old in
        IfOk result (λ certified. OfQuery P closed.now.query (λ q. (budget : ℕ) →
        IsClosedLog all (clauses_at all closed.now.given.now) budget closed.now.log.now →
        IsVerdictOf P q budget all closed.now.log.now certified)) }
    ensures accepted { let P = protocol_of closed.now.protocol.now in
        IfOk result (λ certified.
        OfQuery P closed.now.query (λ q. IsAcceptedIfCert P q certified)) }
    ensures holds { let P = protocol_of closed.now.protocol.now in
        IfOk result (λ certified.
        OfQuery P closed.now.query (λ q. HoldsIfCert P q certified)) }
    ensures kept { OnOk result (IsKnown (B.trees bank.old) known.new) }
    ensures live { known.new.live ≡ known.old.live }
    ensures given { known.new.given ≡ known.old.given }
    ensures bank { B.trees bank.new ≡ B.trees bank.old }
{
    let live = live_of(alloc, closed.log)?;
    let prints = conclusion_prints(alloc, bank, &live.items)?;
    let classes = conclusion_classes(alloc, &prints)?;
    let writer = Writer {
        alloc,
        protocol: closed.protocol,
        query: closed.query,
        live: &live.items,
        prints: &prints,
        classes: &classes,
    };
    match goal_rows(bank, &writer, closed.log)? {
        Goals::Unsatisfied(number) => Ok(Certified::Unsatisfied(number)),
        Goals::Rows(goals) => {
            proved_queries_hold();
            let cert = cert_of(bank, &writer, closed.given, goals, known)?;
            Ok(Certified::Cert(cert))
        }
    }
}

/// The certificate of a closed log of a query's translation: its live clauses, to each obligation the first row that shows it,
/// and to each solved clause that concludes `bad` the first goal row; or the first live solved entry that concludes `bad`
/// and doesn't satisfy the query. So the verdict of the query, with any budget that the log is closed with, is that it is proved
/// by this certificate, or that this entry is unmet.
///
/// The time is that of the search of rows, which is hard; see `multiset_subsume`.
///
/// `Err` is want of memory. The bank is as before.
pub fn certify<B: Bank>(
    alloc: Global,
    bank: &mut B,
    protocol: &Protocol,
    query: u32,
    given: &[Clause],
    log: &Log,
) -> Result<Certified, AllocError>
    requires limits { IsWithinLimits (protocol_of protocol.now) }
    requires there { IsThere (protocol_of protocol.now) OfQueries query }
    requires known { AreClausesIn (B.trees bank.old) given.now }
    requires translation { let P = protocol_of protocol.now in OfQuery P query (λ q.
        IsTranslation P q (TranslatedTo (clauses_at (B.trees bank.old) given.now))) }
    requires closed { let all = B.trees bank.old in
        (budget : ℕ) × IsClosedLog all (clauses_at all given.now) budget log.now }
    requires few { length log.now < 2 ^ 32 }
    ensures verdict { let P = protocol_of protocol.now in let all = B.trees bank.old in
        IfOk result (λ certified. OfQuery P query (λ q. (budget : ℕ) →
        IsClosedLog all (clauses_at all given.now) budget log.now →
        IsVerdictOf P q budget all log.now certified)) }
    ensures accepted { let P = protocol_of protocol.now in
        IfOk result (λ certified. OfQuery P query (λ q. IsAcceptedIfCert P q certified)) }
    ensures holds { let P = protocol_of protocol.now in
        IfOk result (λ certified. OfQuery P query (λ q. HoldsIfCert P q certified)) }
    ensures bank { B.trees bank.new ≡ B.trees bank.old }
{
    let mut known = none_known(alloc);
    let closed = ClosedLog {
        protocol,
        query,
        given,
        log,
    };
    certify_with(alloc, bank, &closed, &mut known)
}
