//! What a search is about, and what it comes to.

use crate::growth::Growth;
use crate::plans::Plan;
use cert_form::Cert;
use clause_form::PlainClause;
use pi_tree::Protocol;
use std::alloc::Global;

/// Why a plan found no certificate.
#[derive(Drop)]
pub enum Failure {
    /// This clause is solved, concludes `bad`, and doesn't satisfy the query.
    Unmet(PlainClause),
    /// There were as many clauses as there may be, or as many symbols were looked at; this grew in the clauses.
    Spent(Option<Growth>),
    /// A clause was too large.
    Large,
    /// A clause isn't subsumed that has to be, or the checker didn't accept the certificate.
    Open,
}

/// A plan, and why it found no certificate; nothing where it wasn't tried.
#[derive(Drop)]
pub struct Trial {
    pub plan: Plan,
    pub failure: Option<Failure>,
}

/// A certificate, and what it says of its clauses.
#[derive(Drop)]
pub struct ChosenCert {
    pub cert: Cert,
    /// Beside each clause, where it isn't what selection chooses: the number of the hypothesis that is chosen, from 1, or 0 where the
    /// clause rests. Empty where all is by selection.
    pub said: Vec<Option<usize>>,
}

/// What a search comes to.
#[derive(Drop)]
pub enum Found {
    /// A certificate, and the plan that found it.
    Certificate(ChosenCert, Plan),
    /// Each plan failed.
    Nothing(Vec<Trial>),
    /// The translation is too large at this point.
    TooLarge(u32),
    /// The translation has more symbols than a plan may look at.
    OverBudget,
}

/// A query that is to be certified, and how many clauses a plan may keep.
#[derive(Clone, Copy)]
pub struct Search<'a> {
    pub alloc: Global,
    pub protocol: &'a Protocol,
    pub query: u32,
    pub budget: u32,
}

/// What a plan comes to.
#[derive(Drop)]
pub enum Attempt {
    Found(ChosenCert),
    Failed(Failure),
}
