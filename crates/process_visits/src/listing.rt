//! The clauses that visits have added, where they come from, and how many visits are left.

ghost use Rattle.std.specs.Prelude.{◌≡◌, [], ◌∷◌, ◌++◌, false, true, length, List, IfOk, OnOk, MatchBool};
ghost use Rattle.spec_clauses.specs.Limits.{is_large_raw};
ghost use Rattle.spec_clauses.specs.Norm.{norms};
ghost use Rattle.spec_attack_runs.specs.Source as attack;
ghost use Rattle.term_tree.specs.Bank.{Grows};
ghost use Rattle.clause_form.specs.Seen.{clause_at, IsClauseIn};
ghost use Rattle.clause_sources.specs.Seen.{choice_of};
ghost use Rattle.process_visits.specs.Forms.{Adds};
ghost use Rattle.process_visits.specs.Telling.{TellsRaw, way_at};
ghost use Rattle.unified_visits.specs.Visits.{IsVisitIn};

use crate::raw::is_large_raw;
use clause_form::{Clause, Clauses, read_out};
use clause_norms::norms_of;
use clause_sources::{Action, Choice, Choices, Sources, Way, add_sources, read_trees};
use std::alloc::{AllocError, Global};
use term_tree::Bank;
use unified_visits::place::Place;
use unified_visits::visit::Visit;

/// What visits have added so far, and how many visits are left.
#[derive(Drop)]
pub struct Listing {
    pub clauses: Clauses,
    pub left: u32,
    /// Whether what visits add is kept, or the visits are counted alone.
    pub keeps: bool,
    /// How a thread goes on at each `let` and `get` above what is visited, outermost first.
    pub choices: Choices,
    /// Where what visits add comes from, if that is told.
    pub sources: Option<Sources>,
}

/// The way of a thread to the place. The bank is as before.
fn way_to<B: Bank>(
    place: &Place<'_>,
    bank: &B,
    visit: &Visit,
    choices: &Choices,
) -> Result<Way, AllocError>
    requires { IsVisitIn (B.trees bank.now) visit.now }
    ensures { IfOk result (λ way. way ≡
        way_at (B.trees bank.now) place.now.point visit.now choices.now) }
{
    let choices = choices.copy(place.alloc)?;
    let messages = read_trees(place.alloc, bank, &visit.messages.items)?;
    let sessions = read_trees(place.alloc, bank, &visit.sessions.items)?;
    Ok(Way {
        point: place.point,
        choices,
        messages,
        sessions,
        phase: visit.phase,
    })
}

impl Listing {
    /// How many clauses there are.
    pub fn count(&self) -> usize
        ensures { result ≡ length self.now.clauses }
    {
        self.clauses.items.len()
    }

    /// A thread goes on so at one more `let` or `get`.
    pub fn choose(&mut self, choice: Choice) -> Result<(), AllocError>
        ensures { OnOk result (self.new ≡
            record self.old { choices = self.old.choices ++ choice_of choice ∷ [] }) }
    {
        self.choices.items.push(choice)?;
        Ok(())
    }

    /// What was chosen last is left.
    pub fn leave(&mut self)
        ensures choices { (choices : List attack.Choice) (last : attack.Choice) →
            self.old.choices ≡ choices ++ last ∷ [] → self.new.choices ≡ choices }
        ensures clauses { self.new.clauses ≡ self.old.clauses }
        ensures left { self.new.left ≡ self.old.left }
        ensures keeps { self.new.keeps ≡ self.old.keeps }
        ensures sources { self.new.sources ≡ self.old.sources }
    {
        let _ = self.choices.items.pop();
    }

    /// Tells where what a raw clause adds comes from, if that is told. The bank is as before.
    fn tell<B: Bank>(
        &mut self,
        place: &Place<'_>,
        bank: &mut B,
        visit: &Visit,
        raw: &Clause,
    ) -> Result<(), AllocError>
        requires visit { IsVisitIn (B.trees bank.old) visit.now }
        requires raw { IsClauseIn (B.trees bank.old) raw.now }
        ensures bank { B.trees bank.new ≡ B.trees bank.old }
        ensures tells { OnOk result (TellsRaw
            (way_at (B.trees bank.old) place.now.point visit.now self.old.choices)
            (clause_at (B.trees bank.old) raw.now) self.old self.new) }
        ensures clauses { self.new.clauses ≡ self.old.clauses }
        ensures left { self.new.left ≡ self.old.left }
        ensures keeps { self.new.keeps ≡ self.old.keeps }
    {
        let Some(mut sources) = self.sources.take() else {
            return Ok(());
        };
        let action = Action::Reaches(way_to(place, bank, visit, &self.choices)?);
        let plain = read_out(place.alloc, bank, raw)?;
        add_sources(place.alloc, bank, &plain, &action, &mut sources)?;
        self.sources = Some(sources);
        Ok(())
    }

    /// Adds clauses at the end.
    fn append(&mut self, mut clauses: Clauses) -> Result<(), AllocError>
        ensures clauses { OnOk result (self.new.clauses ≡ self.old.clauses ++ clauses) }
        ensures left { self.new.left ≡ self.old.left }
        ensures keeps { self.new.keeps ≡ self.old.keeps }
        ensures sources { self.new.sources ≡ self.old.sources }
        ensures choices { self.new.choices ≡ self.old.choices }
    {
        self.clauses.items.append(&mut clauses.items)?;
        Ok(())
    }

    /// Adds the norms of the flat parts of a raw clause, if they are kept, unless it is too large, and tells whether it is
    /// not. On `Err` the bank may have grown.
    fn add_norms<B: Bank>(
        &mut self,
        alloc: Global,
        bank: &mut B,
        raw: &Clause,
    ) -> Result<bool, AllocError>
        requires { IsClauseIn (B.trees bank.old) raw.now }
        ensures grows { Grows (B.trees bank.old) (B.trees bank.new) }
        ensures adds { IfOk result (λ added. MatchBool added
            (Adds (B.trees bank.new) self.old self.new
            (norms (clause_at (B.trees bank.old) raw.now)))
            (is_large_raw (clause_at (B.trees bank.old) raw.now) ≡ true)) }
        ensures small { IfOk result (λ added. added ≡ true
            → is_large_raw (clause_at (B.trees bank.old) raw.now) ≡ false) }
        ensures sources { self.new.sources ≡ self.old.sources }
        ensures choices { self.new.choices ≡ self.old.choices }
    {
        if is_large_raw(alloc, bank, raw)? {
            return Ok(false);
        }
        if !self.keeps {
            return Ok(true);
        }
        let norms = norms_of(alloc, bank, raw)?;
        self.append(norms)?;
        Ok(true)
    }

    /// Adds what a raw clause adds, unless it is too large, and tells whether it is not. On `Err` the bank may have grown.
    fn add_raw<B: Bank>(
        &mut self,
        place: &Place<'_>,
        bank: &mut B,
        visit: &Visit,
        raw: &Clause,
    ) -> Result<bool, AllocError>
        requires visit { IsVisitIn (B.trees bank.old) visit.now }
        requires raw { IsClauseIn (B.trees bank.old) raw.now }
        ensures grows { Grows (B.trees bank.old) (B.trees bank.new) }
        ensures adds { IfOk result (λ added. MatchBool added
            (Adds (B.trees bank.new) self.old self.new
            (norms (clause_at (B.trees bank.old) raw.now)))
            (is_large_raw (clause_at (B.trees bank.old) raw.now) ≡ true)) }
        ensures small { IfOk result (λ added. added ≡ true
            → is_large_raw (clause_at (B.trees bank.old) raw.now) ≡ false) }
        ensures tells { IfOk result (λ added. added ≡ true → TellsRaw
            (way_at (B.trees bank.old) place.now.point visit.now self.old.choices)
            (clause_at (B.trees bank.old) raw.now) self.old self.new) }
    {
        if !self.add_norms(place.alloc, bank, raw)? {
            return Ok(false);
        }
        self.tell(place, bank, visit, raw)?;
        Ok(true)
    }

    /// Adds what a raw clause adds, and where that comes from, unless it is too large, and tells whether it is not. On `Err`
    /// the bank may have grown.
    pub fn add<B: Bank>(
        &mut self,
        place: &Place<'_>,
        bank: &mut B,
        visit: &Visit,
        raw: Clause,
    ) -> Result<bool, AllocError>
        requires visit { IsVisitIn (B.trees bank.old) visit.now }
        requires raw { IsClauseIn (B.trees bank.old) raw }
        ensures grows { Grows (B.trees bank.old) (B.trees bank.new) }
        ensures adds { IfOk result (λ added. MatchBool added
            (Adds (B.trees bank.new) self.old self.new (norms (clause_at (B.trees bank.old) raw)))
            (is_large_raw (clause_at (B.trees bank.old) raw) ≡ true)) }
        ensures small { IfOk result (λ added. added ≡ true
            → is_large_raw (clause_at (B.trees bank.old) raw) ≡ false) }
        ensures tells { IfOk result (λ added. added ≡ true → TellsRaw
            (way_at (B.trees bank.old) place.now.point visit.now self.old.choices)
            (clause_at (B.trees bank.old) raw) self.old self.new) }
    {
        let added = self.add_raw(place, bank, visit, &raw);
        drop(raw);
        added
    }
}
