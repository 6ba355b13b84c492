//! Visits: what is known where a point is visited.

ghost use Rattle.std.specs.Prelude.{◌≡◌, [], ◌∷◌, ◌++◌, IfOk, OnOk};
ghost use Rattle.spec_clauses.specs.Fact.{Tab, Mev};
ghost use Rattle.clause_form.specs.Facts.{fact_of};
ghost use Rattle.clause_terms.specs.Slots.{held_of};

use crate::excluding::Excluded;
use clause_diffs::Diffs;
use clause_form::{Fact, Facts, Ids};
use clause_terms::{Scope, Standing};
use std::alloc::{AllocError, Global};
use term_tree::Id;

/// What is known where a point is visited: what the leaves stand for, the hypotheses and constraints so far, the messages
/// received above the point with the terms of the entries taken there, the numbers of the copies that were taken above it, and
/// the phase. All variables but those that a constraint binds are below `next`.
pub struct Visit {
    pub scope: Scope,
    pub hypotheses: Facts,
    pub diffs: Excluded,
    pub messages: Ids,
    pub sessions: Ids,
    pub next: u32,
    pub phase: u32,
}

/// Written out, so that a visit is let go of by one call.
impl Drop for Visit {
    fn drop(self) {
        let Visit {
            scope: _,
            hypotheses: _,
            diffs: _,
            messages: _,
            sessions: _,
            next: _,
            phase: _,
        } = self;
    }
}

/// Binds what is bound besides, behind the scope.
fn bind_besides(scope: &mut Scope, mut bound: Scope) -> Result<(), AllocError>
    ensures { OnOk result (scope.new ≡ scope.old ++ bound) }
{
    scope.items.append(&mut bound.items)?;
    Ok(())
}

impl Visit {
    /// The first visit, of the main process, in phase 0.
    pub fn first(alloc: Global) -> Visit
        ensures { result ≡
            record {
              scope = [];
              hypotheses = [];
              diffs = [];
              messages = [];
              sessions = [];
              next = 0;
              phase = 0;
            } }
    {
        Visit {
            scope: Scope::new(alloc),
            hypotheses: Facts::new(alloc),
            diffs: Excluded::none(alloc),
            messages: Ids {
                items: Vec::new(alloc),
            },
            sessions: Ids {
                items: Vec::new(alloc),
            },
            next: 0,
            phase: 0,
        }
    }

    /// A copy without the constraints.
    pub fn without_diffs(&self, alloc: Global) -> Result<Visit, AllocError>
        ensures { IfOk result (λ made. made ≡ record self.now { diffs = [] }) }
    {
        Ok(Visit {
            scope: self.scope.copy(alloc)?,
            hypotheses: self.hypotheses.copy(alloc)?,
            diffs: Excluded::none(alloc),
            messages: self.messages.copy(alloc)?,
            sessions: self.sessions.copy(alloc)?,
            next: self.next,
            phase: self.phase,
        })
    }

    /// A copy, the ids the same.
    pub fn copy(&self, alloc: Global) -> Result<Visit, AllocError>
        ensures { IfOk result (λ copied. copied ≡ self.now) }
    {
        let diffs = self.diffs.copy(alloc)?;
        let mut made = self.without_diffs(alloc)?;
        made.diffs = diffs;
        Ok(made)
    }

    /// A visit for a process that does nothing: a copy without what such a process has no use of.
    pub fn for_nothing(&self, alloc: Global) -> Result<Visit, AllocError>
        ensures { IfOk result (λ made. made ≡
            record self.now { scope = []; hypotheses = []; diffs = []; messages = [] }) }
    {
        let sessions = self.sessions.copy(alloc)?;
        Ok(Visit {
            scope: Scope::new(alloc),
            hypotheses: Facts::new(alloc),
            diffs: Excluded::none(alloc),
            messages: Ids {
                items: Vec::new(alloc),
            },
            sessions,
            next: self.next,
            phase: self.phase,
        })
    }

    /// A copy in which a leaf stands for a term besides.
    pub fn with_standing(&self, alloc: Global, standing: Standing) -> Result<Visit, AllocError>
        ensures { IfOk result (λ made. made ≡
            record self.now { scope = self.now.scope ++ held_of standing ∷ [] }) }
    {
        let mut made = self.copy(alloc)?;
        made.scope.push(standing)?;
        Ok(made)
    }

    /// A copy with one more hypothesis, that an event must have run.
    pub fn with_event(&self, alloc: Global, event: u32, arguments: Ids) -> Result<Visit, AllocError>
        ensures { IfOk result (λ made. made ≡
            record self.now { hypotheses = self.now.hypotheses ++ Mev event arguments ∷ [] }) }
    {
        let mut made = self.copy(alloc)?;
        made.hypotheses.push(Fact::Mev(event, arguments))?;
        Ok(made)
    }

    /// A copy with one more session, and another number for the next variable.
    pub fn with_session(&self, alloc: Global, session: Id, next: u32) -> Result<Visit, AllocError>
        ensures { IfOk result (λ made. made ≡
            record self.now { sessions = self.now.sessions ++ session ∷ []; next = next }) }
    {
        let mut made = self.copy(alloc)?;
        made.sessions.items.push(session)?;
        made.next = next;
        Ok(made)
    }

    /// A copy in another phase.
    pub fn in_phase(&self, alloc: Global, phase: u32) -> Result<Visit, AllocError>
        ensures { IfOk result (λ made. made ≡ record self.now { phase = phase }) }
    {
        let mut made = self.copy(alloc)?;
        made.phase = phase;
        Ok(made)
    }

    /// A copy in which leaves are bound besides, and another number for the next variable.
    pub fn with_scope(&self, alloc: Global, bound: Scope, next: u32) -> Result<Visit, AllocError>
        ensures { IfOk result (λ made. made ≡
            record self.now { scope = self.now.scope ++ bound; next = next }) }
    {
        let mut made = self.copy(alloc)?;
        bind_besides(&mut made.scope, bound)?;
        made.next = next;
        Ok(made)
    }

    /// The visit with one more message, and the hypothesis that it was sent.
    pub fn with_message(mut self, fact: Fact, message: Id) -> Result<Visit, AllocError>
        ensures { IfOk result (λ made. made ≡
            record self {
              hypotheses = self.hypotheses ++ fact_of fact ∷ [];
              messages = self.messages ++ message ∷ [];
            }) }
    {
        self.hypotheses.push(fact)?;
        self.messages.items.push(message)?;
        Ok(self)
    }

    /// The visit with the terms of an entry as messages, and the hypothesis that the table may have it.
    pub fn with_entry(mut self, alloc: Global, table: u32, terms: Ids) -> Result<Visit, AllocError>
        ensures { IfOk result (λ made. made ≡
            record self {
              hypotheses = self.hypotheses ++ Tab table terms ∷ [];
              messages = self.messages ++ terms;
            }) }
    {
        let mut more = terms.copy(alloc)?;
        self.hypotheses.push(Fact::Tab(table, terms))?;
        self.messages.items.append(&mut more.items)?;
        Ok(self)
    }

    /// A copy with constraints besides.
    pub fn with_diffs(&self, alloc: Global, more: Diffs) -> Result<Visit, AllocError>
        ensures { IfOk result (λ made. made ≡
            record self.now { diffs = self.now.diffs ++ more }) }
    {
        let diffs = self.diffs.with(alloc, more)?;
        let mut made = self.without_diffs(alloc)?;
        made.diffs = diffs;
        Ok(made)
    }
}
