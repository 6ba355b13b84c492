//! What a saturation is about.

use crate::found::Search;
use crate::plans::Plan;
use cert_form::PlainClauses;
use clause_generalize::Asked;

/// What is given for a query that is to be certified: the clauses of its translation, and what it asks of events.
#[derive(Clone, Copy)]
pub(crate) struct Given<'a> {
    pub clauses: &'a PlainClauses,
    pub asked: &'a Asked,
}

/// A query that is to be certified, by which plan, and how many clauses are kept at most.
#[derive(Clone, Copy)]
pub struct Task<'a> {
    pub search: Search<'a>,
    pub asked: &'a Asked,
    pub plan: &'a Plan,
    pub most: usize,
}
