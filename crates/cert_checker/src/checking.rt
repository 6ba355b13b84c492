//! The check of a certificate, from its text's data to its ruling.

ghost use Rattle.std.specs.Prelude.{◌≡◌, None, length, IfOk};
ghost use Rattle.spec_calculus.specs.Secrecy.{Holds};
ghost use Rattle.spec_well_formed.specs.Limits.{IsWithinLimits};
ghost use Rattle.spec_well_formed.specs.Rules.{HasProperRules};
ghost use Rattle.spec_well_formed.specs.Queries.{HasProperQueries};
ghost use Rattle.spec_well_formed.specs.WellFormed.{IsWellScoped};
ghost use Rattle.spec_certificates.specs.Certificate.{bad_arguments, numbers_for};
ghost use Rattle.spec_certificates.specs.Ruling.{IsRuled, IsRuledBy};
ghost use Rattle.pi_tree.specs.Protocols.{protocol_of};
ghost use Rattle.pi_tree.specs.Accessors.{IsThere};
ghost use Rattle.pi_tree.specs.declared.accessors.Kind.TheVariants.{Query as OfQueries};
ghost use Rattle.term_tree.specs.Bank.{Grows};
ghost use Rattle.query_derive.specs.GoalRows.{OfQuery};
ghost use Rattle.cert_checker.specs.Claimed.{IsAsked, claimed_in};
ghost use Rattle.cert_checker.specs.Reached.{HasShapes, HasRights};
ghost use Rattle.cert_checker.specs.declared.ruling.Ruling.TheVariants.{Accepted};
ghost use Rattle.cert_checker.specs.Rulings.{ruling_of};
ghost use Rattle.clause_form.specs.Fit.{AreFit};
ghost use Rattle.clause_form.specs.Seen.{AreClausesIn};
ghost use Rattle.cert_stages.specs.Answers.{numbered_at, AreRight};
ghost use Rattle.cert_stages.specs.Shaping.{AreShaped};
ghost use Rattle.cert_stages.specs.Checked.{cert_in};
ghost use Rattle.cert_stages.specs.Lowering.{AreNormalIn};
ghost use Rattle.cert_checker.specs.Sufficing.{SolvedOnesSuffice};

use crate::accepted_certificates_suffice;
use crate::claim::Claim;
use crate::judging::judge;
use crate::ruling::Ruling;
use cert_form::Cert;
use cert_stages::{
    Checker, are_covered, are_unconstrained, copied, first_misshapen, first_wrong, goal_arguments,
    low_clauses, numbers_for,
};
use clause_resolve::normal_clauses_have_low_variables;
use clause_translate::{Translated, translate};
use pi_tree::Protocol;
use shared_cert::SharedCert;
use spec_certificates::selected_numbers_rule_alike;
use spec_soundness::accepted_numbers_hold;
use std::alloc::{AllocError, Global};
use term_store::SharedBank;
use term_tree::Bank;

/// What is ruled behind the numbers: the protocol and the query are translated, never the certificate's clauses taken for it.
/// The bank is as before.
fn check_right<B: Bank>(bank: &mut B, checker: &Checker<'_>) -> Result<Ruling, AllocError>
    requires fit { AreFit (B.trees bank.old) checker.now.clauses.now }
    requires as_many { length checker.now.numbers.now ≡ length checker.now.clauses.now }
    requires right { AreRight checker.now.numbers.now
        (numbered_at (B.trees bank.old) checker.now.clauses.now) }
    requires asked { IsAsked (protocol_of checker.now.protocol.now) checker.now.query }
    ensures ruled { let P = protocol_of checker.now.protocol.now in
        let cert = cert_in (B.trees bank.old) checker.now in
        IfOk result (λ ruling. OfQuery P checker.now.query (λ q.
        HasRights checker.now.numbers.now q cert →
        IsRuledBy checker.now.numbers.now P q cert (ruling_of ruling))) }
    ensures bank { B.trees bank.new ≡ B.trees bank.old }
{
    let mark = bank.mark();
    match translate(checker.alloc, bank, checker.protocol, checker.query)? {
        Translated::Large(point) => Ok(Ruling::Translation(point)),
        Translated::Clauses(given) => {
            let translated = given.items.as_slice();
            let covered = are_covered(bank, checker, translated, 0);
            bank.back(mark);
            let shown = covered?;
            judge(bank, checker, shown)
        }
    }
}

/// What is ruled behind the numbers, by clauses with variables of low numbers. The bank may have grown.
fn check_lowered<B: Bank>(bank: &mut B, checker: &Checker<'_>) -> Result<Ruling, AllocError>
    requires normal { AreNormalIn (B.trees bank.old) checker.now.clauses.now }
    requires as_many { length checker.now.numbers.now ≡ length checker.now.clauses.now }
    requires right { AreRight checker.now.numbers.now
        (numbered_at (B.trees bank.old) checker.now.clauses.now) }
    requires asked { IsAsked (protocol_of checker.now.protocol.now) checker.now.query }
    ensures ruled { let P = protocol_of checker.now.protocol.now in
        let cert = cert_in (B.trees bank.old) checker.now in
        IfOk result (λ ruling. OfQuery P checker.now.query (λ q.
        HasRights checker.now.numbers.now q cert →
        IsRuledBy checker.now.numbers.now P q cert (ruling_of ruling))) }
    ensures grows { Grows (B.trees bank.old) (B.trees bank.new) }
{
    let low = low_clauses(checker.alloc, bank, checker.clauses)?;
    let lowered = Checker {
        alloc: checker.alloc,
        protocol: checker.protocol,
        query: checker.query,
        rows: checker.rows,
        goals: checker.goals,
        clauses: &low.items,
        numbers: checker.numbers,
    };
    check_right(bank, &lowered)
}

/// What is ruled behind the numbers, whatever those of the variables that constraints bind. The bank is as before.
fn check_normal<B: Bank>(bank: &mut B, checker: &Checker<'_>) -> Result<Ruling, AllocError>
    requires normal { AreNormalIn (B.trees bank.old) checker.now.clauses.now }
    requires as_many { length checker.now.numbers.now ≡ length checker.now.clauses.now }
    requires right { AreRight checker.now.numbers.now
        (numbered_at (B.trees bank.old) checker.now.clauses.now) }
    requires asked { IsAsked (protocol_of checker.now.protocol.now) checker.now.query }
    ensures ruled { let P = protocol_of checker.now.protocol.now in
        let cert = cert_in (B.trees bank.old) checker.now in
        IfOk result (λ ruling. OfQuery P checker.now.query (λ q.
        HasRights checker.now.numbers.now q cert →
        IsRuledBy checker.now.numbers.now P q cert (ruling_of ruling))) }
    ensures bank { B.trees bank.new ≡ B.trees bank.old }
{
    normal_clauses_have_low_variables();
    if are_unconstrained(checker.clauses) {
        return check_right(bank, checker);
    }
    let mark = bank.mark();
    let ruling = check_lowered(bank, checker);
    bank.back(mark);
    ruling
}

/// What is ruled behind the shapes, by the numbers beside the clauses. The bank is as before.
fn check_numbered<B: Bank>(bank: &mut B, checker: &Checker<'_>) -> Result<Ruling, AllocError>
    requires normal { AreNormalIn (B.trees bank.old) checker.now.clauses.now }
    requires as_many { length checker.now.numbers.now ≡ length checker.now.clauses.now }
    requires asked { IsAsked (protocol_of checker.now.protocol.now) checker.now.query }
    ensures ruled { let P = protocol_of checker.now.protocol.now in
        let cert = cert_in (B.trees bank.old) checker.now in
        IfOk result (λ ruling. OfQuery P checker.now.query (λ q.
        HasShapes q cert → IsRuledBy checker.now.numbers.now P q cert (ruling_of ruling))) }
    ensures bank { B.trees bank.new ≡ B.trees bank.old }
{
    match first_wrong(bank, checker) {
        Some(number) => Ok(Ruling::Shape(number)),
        None => check_normal(bank, checker),
    }
}

/// What is ruled behind the shapes, by what is said of the clauses. The bank is as before.
fn check_said<B: Bank>(bank: &mut B, claim: &Claim<'_>) -> Result<Ruling, AllocError>
    requires normal { AreNormalIn (B.trees bank.old) claim.now.clauses.now }
    requires asked { IsAsked (protocol_of claim.now.protocol.now) claim.now.query }
    ensures ruled { let P = protocol_of claim.now.protocol.now in
        let cert = claimed_in (B.trees bank.old) claim.now in
        IfOk result (λ ruling. OfQuery P claim.now.query (λ q. HasShapes q cert →
        IsRuledBy (numbers_for cert.clauses claim.now.said.now) P q cert (ruling_of ruling))) }
    ensures bank { B.trees bank.new ≡ B.trees bank.old }
{
    let numbers = numbers_for(claim.alloc, bank, claim.clauses, claim.said)?;
    let checker = Checker {
        alloc: claim.alloc,
        protocol: claim.protocol,
        query: claim.query,
        rows: claim.rows,
        goals: claim.goals,
        clauses: claim.clauses,
        numbers: &numbers,
    };
    check_numbered(bank, &checker)
}

/// The number of the first clause that has no shape of a certificate's for the query, if there is one. The bank is as before.
fn misshapen<B: Bank>(bank: &mut B, claim: &Claim<'_>) -> Result<Option<u64>, AllocError>
    requires known { AreClausesIn (B.trees bank.old) claim.now.clauses.now }
    requires asked { IsAsked (protocol_of claim.now.protocol.now) claim.now.query }
    ensures told { let all = B.trees bank.old in IfOk result (λ found.
        OfQuery (protocol_of claim.now.protocol.now) claim.now.query (λ q.
        AreShaped (bad_arguments q) (numbered_at all claim.now.clauses.now) found)) }
    ensures normal { IfOk result (λ found. found ≡ None →
        AreNormalIn (B.trees bank.old) claim.now.clauses.now) }
    ensures bank { B.trees bank.new ≡ B.trees bank.old }
{
    let arguments = goal_arguments(claim.alloc, bank, claim.protocol, claim.query)?;
    first_misshapen(claim.alloc, bank, claim.clauses, arguments)
}

/// What is ruled of a certificate whose clauses stand in the bank. The bank is as before.
fn check_claim<B: Bank>(bank: &mut B, claim: &Claim<'_>) -> Result<Ruling, AllocError>
    requires known { AreClausesIn (B.trees bank.old) claim.now.clauses.now }
    requires asked { IsAsked (protocol_of claim.now.protocol.now) claim.now.query }
    ensures ruled { let P = protocol_of claim.now.protocol.now in
        let cert = claimed_in (B.trees bank.old) claim.now in
        IfOk result (λ ruling. OfQuery P claim.now.query (λ q.
        IsRuledBy (numbers_for cert.clauses claim.now.said.now) P q cert (ruling_of ruling))) }
    ensures bank { B.trees bank.new ≡ B.trees bank.old }
{
    match misshapen(bank, claim)? {
        Some(number) => Ok(Ruling::Shape(number)),
        None => check_said(bank, claim),
    }
}

/// A certificate, and what it says of its clauses, in their order: the number of the hypothesis that is chosen of one, from 1, or 0 where
/// it rests. `None`, or nothing, is said where the choice is selection's.
#[derive(Clone, Copy)]
pub struct Placed<'a> {
    pub cert: &'a Cert,
    pub said: &'a [Option<usize>],
}

/// What is ruled of a certificate, whose clauses are copied into the bank and stay there.
fn check_copied<B: Bank>(
    alloc: Global,
    bank: &mut B,
    protocol: &Protocol,
    query: u32,
    placed: &Placed<'_>,
) -> Result<Ruling, AllocError>
    requires asked { IsAsked (protocol_of protocol.now) query }
    ensures ruled { IfOk result (λ ruling. OfQuery (protocol_of protocol.now) query (λ q.
        IsRuledBy (numbers_for placed.now.cert.now.clauses placed.now.said.now)
        (protocol_of protocol.now) q placed.now.cert.now (ruling_of ruling))) }
    ensures grows { Grows (B.trees bank.old) (B.trees bank.new) }
{
    let cert = placed.cert;
    let clauses = copied(alloc, bank, &cert.clauses)?;
    let claim = Claim {
        alloc,
        protocol,
        query,
        rows: &cert.rows,
        goals: &cert.goals,
        clauses: &clauses.items,
        said: placed.said,
    };
    check_claim(bank, &claim)
}

/// What is ruled of a certificate whose clauses are over the ids of a bank of their own.
fn check_over(
    alloc: Global,
    protocol: &Protocol,
    query: u32,
    cert: SharedCert,
    said: &[Option<usize>],
) -> Result<Ruling, AllocError>
    requires asked { IsAsked (protocol_of protocol.now) query }
    ensures { IfOk result (λ ruling. OfQuery (protocol_of protocol.now) query (λ q.
        IsRuledBy (numbers_for cert.clauses said.now) (protocol_of protocol.now) q cert
        (ruling_of ruling))) }
{
    let (mut bank, clauses) = cert.clauses.apart();
    let claim = Claim {
        alloc,
        protocol,
        query,
        rows: &cert.rows,
        goals: &cert.goals,
        clauses: &clauses.items,
        said,
    };
    check_claim(&mut bank, &claim)
}

/// What is ruled of a certificate of the protocol's query of that number, by what it says of its clauses: that it is accepted, or the
/// first obligation that isn't met. A number that isn't right beside its clause fails behind all shapes, as a shape. Where it is
/// accepted, no run of the protocol beside the attacker violates the query. Nothing is searched for: each row is looked at once. The
/// memory taken is bounded by the sizes of the certificate and the translation, since the bank is taken back to the certificate's
/// clauses once those of the translation were looked at, and behind each pair. Whatever is answered, the bank is as before.
///
/// The conditions hold of each protocol that is read. Nothing is asked of the certificate: a symbol of it that the protocol
/// doesn't declare is like any other, and what is said past its clauses isn't heard. `Err` comes for want of memory, and where
/// `translate` answers it since a number doesn't fit.
pub fn check_placed_in<B: Bank>(
    alloc: Global,
    bank: &mut B,
    protocol: &Protocol,
    query: u32,
    placed: &Placed<'_>,
) -> Result<Ruling, AllocError>
    requires limits { IsWithinLimits (protocol_of protocol.now) }
    requires rules { HasProperRules (protocol_of protocol.now) }
    requires scoped { IsWellScoped (protocol_of protocol.now) }
    requires queries { HasProperQueries (protocol_of protocol.now) }
    requires there { IsThere (protocol_of protocol.now) OfQueries query }
    ensures ruled { IfOk result (λ ruling. OfQuery (protocol_of protocol.now) query (λ q.
        IsRuledBy (numbers_for placed.now.cert.now.clauses placed.now.said.now)
        (protocol_of protocol.now) q placed.now.cert.now (ruling_of ruling))) }
    ensures holds { IfOk result (λ ruling. ruling ≡ Accepted →
        OfQuery (protocol_of protocol.now) query (λ q. Holds (protocol_of protocol.now) q)) }
    ensures bank { B.trees bank.new ≡ B.trees bank.old }
{
    accepted_numbers_hold();
    let mark = bank.mark();
    let ruling = check_copied(alloc, bank, protocol, query, placed);
    bank.back(mark);
    ruling
}

/// The same of a certificate whose clauses are over the ids of a bank of their own. Each term is there once, and none is made but
/// those of the translation and of resolvents.
pub fn check_placed_shared(
    alloc: Global,
    protocol: &Protocol,
    query: u32,
    cert: SharedCert,
    said: &[Option<usize>],
) -> Result<Ruling, AllocError>
    requires limits { IsWithinLimits (protocol_of protocol.now) }
    requires rules { HasProperRules (protocol_of protocol.now) }
    requires scoped { IsWellScoped (protocol_of protocol.now) }
    requires queries { HasProperQueries (protocol_of protocol.now) }
    requires there { IsThere (protocol_of protocol.now) OfQueries query }
    ensures ruled { IfOk result (λ ruling. OfQuery (protocol_of protocol.now) query (λ q.
        IsRuledBy (numbers_for cert.clauses said.now) (protocol_of protocol.now) q cert
        (ruling_of ruling))) }
    ensures holds { IfOk result (λ ruling. ruling ≡ Accepted →
        OfQuery (protocol_of protocol.now) query (λ q. Holds (protocol_of protocol.now) q)) }
{
    accepted_numbers_hold();
    check_over(alloc, protocol, query, cert, said)
}

/// What is ruled of a certificate that says nothing of its clauses, so that all is chosen by selection. Where it is accepted, what is
/// derived from the translation is derived by the certificate's solved clauses alone, with the same events.
pub fn check_cert_in<B: Bank>(
    alloc: Global,
    bank: &mut B,
    protocol: &Protocol,
    query: u32,
    cert: &Cert,
) -> Result<Ruling, AllocError>
    requires limits { IsWithinLimits (protocol_of protocol.now) }
    requires rules { HasProperRules (protocol_of protocol.now) }
    requires scoped { IsWellScoped (protocol_of protocol.now) }
    requires queries { HasProperQueries (protocol_of protocol.now) }
    requires there { IsThere (protocol_of protocol.now) OfQueries query }
    ensures ruled { IfOk result (λ ruling. OfQuery (protocol_of protocol.now) query (λ q.
        IsRuled (protocol_of protocol.now) q cert.now (ruling_of ruling))) }
    ensures suffices { IfOk result (λ ruling. ruling ≡ Accepted →
        OfQuery (protocol_of protocol.now) query (λ q.
        SolvedOnesSuffice (protocol_of protocol.now) q cert.now.clauses)) }
    ensures holds { IfOk result (λ ruling. ruling ≡ Accepted →
        OfQuery (protocol_of protocol.now) query (λ q. Holds (protocol_of protocol.now) q)) }
    ensures bank { B.trees bank.new ≡ B.trees bank.old }
{
    accepted_certificates_suffice();
    selected_numbers_rule_alike();
    check_placed_in(alloc, bank, protocol, query, &Placed { cert, said: &[] })
}

/// The same as `check_cert_in`, over a bank of its own.
pub fn check_cert(
    alloc: Global,
    protocol: &Protocol,
    query: u32,
    cert: &Cert,
) -> Result<Ruling, AllocError>
    requires limits { IsWithinLimits (protocol_of protocol.now) }
    requires rules { HasProperRules (protocol_of protocol.now) }
    requires scoped { IsWellScoped (protocol_of protocol.now) }
    requires queries { HasProperQueries (protocol_of protocol.now) }
    requires there { IsThere (protocol_of protocol.now) OfQueries query }
    ensures ruled { IfOk result (λ ruling. OfQuery (protocol_of protocol.now) query (λ q.
        IsRuled (protocol_of protocol.now) q cert.now (ruling_of ruling))) }
    ensures suffices { IfOk result (λ ruling. ruling ≡ Accepted →
        OfQuery (protocol_of protocol.now) query (λ q.
        SolvedOnesSuffice (protocol_of protocol.now) q cert.now.clauses)) }
    ensures holds { IfOk result (λ ruling. ruling ≡ Accepted →
        OfQuery (protocol_of protocol.now) query (λ q. Holds (protocol_of protocol.now) q)) }
{
    let mut bank = SharedBank::new(alloc)?;
    check_cert_in(alloc, &mut bank, protocol, query, cert)
}

/// The same as `check_cert`, of a certificate whose clauses are over the ids of a bank of their own.
pub fn check_shared(
    alloc: Global,
    protocol: &Protocol,
    query: u32,
    cert: SharedCert,
) -> Result<Ruling, AllocError>
    requires limits { IsWithinLimits (protocol_of protocol.now) }
    requires rules { HasProperRules (protocol_of protocol.now) }
    requires scoped { IsWellScoped (protocol_of protocol.now) }
    requires queries { HasProperQueries (protocol_of protocol.now) }
    requires there { IsThere (protocol_of protocol.now) OfQueries query }
    ensures ruled { IfOk result (λ ruling. OfQuery (protocol_of protocol.now) query (λ q.
        IsRuled (protocol_of protocol.now) q cert (ruling_of ruling))) }
    ensures suffices { IfOk result (λ ruling. ruling ≡ Accepted →
        OfQuery (protocol_of protocol.now) query (λ q.
        SolvedOnesSuffice (protocol_of protocol.now) q cert.clauses)) }
    ensures holds { IfOk result (λ ruling. ruling ≡ Accepted →
        OfQuery (protocol_of protocol.now) query (λ q. Holds (protocol_of protocol.now) q)) }
{
    accepted_certificates_suffice();
    selected_numbers_rule_alike();
    check_placed_shared(alloc, protocol, query, cert, &[])
}
