//! A fact by its parts: its head, which says all but the terms, and its terms in order.

ghost use Rattle.std.specs.Prelude.{◌≡◌};
ghost use Rattle.spec_clauses.specs.Fact.{terms_of};
ghost use Rattle.spec_clauses.specs.Head.{head_of, made_of};
ghost use Rattle.clause_form.specs.Facts.{fact_of};
ghost use Rattle.clause_form.specs.Heads.{head_seen, terms_seen};

use crate::facts::Fact;
use clause_diffs::Ids;
use term_tree::Id;

/// What a fact says besides its terms: its predicate, and the phase, the table or the event where there is one.
#[derive(Clone, Copy, PartialEq)]
pub enum Head {
    Att(u32),
    Mess(u32),
    Tab(u32),
    Ev(u32),
    Mev(u32),
    Bad,
}

/// The terms of a fact in order.
#[derive(Clone, Copy)]
pub enum Parts<'a> {
    One([Id; 1]),
    Two([Id; 2]),
    All(&'a [Id]),
}

impl<'a> Parts<'a> {
    /// All of them. Takes no memory.
    pub fn as_slice(&self) -> &[Id]
        ensures { result.now ≡ terms_seen self.now }
    {
        match self {
            Parts::One(term) => term,
            Parts::Two(terms) => terms,
            Parts::All(terms) => terms,
        }
    }
}

impl Fact {
    /// The head. Takes no memory.
    pub fn head(&self) -> Head
        ensures { head_seen result ≡ head_of (fact_of self.now) }
    {
        match self {
            Fact::Att(phase, _) => Head::Att(*phase),
            Fact::Mess(phase, _, _) => Head::Mess(*phase),
            Fact::Tab(table, _) => Head::Tab(*table),
            Fact::Ev(event, _) => Head::Ev(*event),
            Fact::Mev(event, _) => Head::Mev(*event),
            Fact::Bad(_) => Head::Bad,
        }
    }

    /// The terms. Takes no memory.
    pub fn terms(&self) -> Parts<'_>
        ensures { terms_seen result ≡ terms_of (fact_of self.now) }
    {
        match self {
            Fact::Att(_, term) => Parts::One([*term]),
            Fact::Mess(_, channel, message) => Parts::Two([*channel, *message]),
            Fact::Tab(_, terms) | Fact::Ev(_, terms) | Fact::Mev(_, terms) | Fact::Bad(terms) => {
                Parts::All(&terms.items)
            }
        }
    }

    /// The fact that has these parts; terms that are too few for the head stand in `bad`.
    pub fn made_of(head: Head, terms: Ids) -> Fact
        ensures { fact_of result ≡ made_of (head_seen head) terms }
    {
        match head {
            Head::Att(phase) => match terms.items.first() {
                Some(term) => Fact::Att(phase, *term),
                None => Fact::Bad(terms),
            },
            Head::Mess(phase) => match terms.items.as_slice() {
                [channel, message, ..] => Fact::Mess(phase, *channel, *message),
                _ => Fact::Bad(terms),
            },
            Head::Tab(table) => Fact::Tab(table, terms),
            Head::Ev(event) => Fact::Ev(event, terms),
            Head::Mev(event) => Fact::Mev(event, terms),
            Head::Bad => Fact::Bad(terms),
        }
    }
}
