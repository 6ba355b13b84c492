//! Sources of clauses: where the clauses of a translation come from (the reconstruction of attacks from derivations: Allamigeon
//! and Blanchet 2005).

ghost use Rattle.std.specs.Prelude.{◌≡◌, [], ◌∷◌, ◌++◌, IfOk, OnOk};
ghost use Rattle.clause_sources.specs.Seen.{choice_of, action_of};

use clause_form::{PlainClause, Trees};
use std::alloc::{AllocError, Global};
use std::marker::Model;
use std::rc::Rc;

/// The label of a choice: the numbers of the rules by which the destructors of a `let` are applied, 0 alone where it has none; of
/// a `get` it is empty.
pub struct Label {
    pub items: Vec<u32>,
}

impl Drop for Label {
    fn drop(self) {
        let Label { items } = self;
        drop(items);
    }
}

impl Model for Label {
    ghost use Rattle.std.specs.Prelude.{ℕ, List};

    ghost Value = { List ℕ };

    ghost view = { λ a. a.items.items };
}

/// How a thread went on at a `let` or a `get`.
pub enum Choice {
    /// With the value of that label; at a `get` with an entry.
    Taken(Label),
    /// To the else branch.
    Else,
}

impl Drop for Choice {
    fn drop(self) {
        match self {
            Choice::Taken(part) => drop(part),
            Choice::Else => {}
        }
    }
}

/// Choices in order.
pub struct Choices {
    pub items: Vec<Choice>,
}

impl Drop for Choices {
    fn drop(self) {
        let Choices { items } = self;
        drop(items);
    }
}

impl Model for Choices {
    ghost use Rattle.std.specs.Prelude.{List, map};
    ghost use Rattle.spec_attack_runs.specs.Source as attack;
    ghost use Rattle.clause_sources.specs.Codes.{coded_choices};

    ghost Value = { List attack.Choice };

    ghost coded = { coded_choices };

    ghost use Rattle.clause_sources.specs.Seen.{choice_of};

    ghost view = { λ a. map choice_of a.items.items };
}

/// The way of a thread to a point: how it went on at each `let` and `get` above the point, the messages that it received and the
/// terms of the entries that it took, the numbers of the copies that it comes from, each outermost first, and the phase.
pub struct Way {
    pub point: u32,
    pub choices: Choices,
    pub messages: Trees,
    pub sessions: Trees,
    pub phase: u32,
}

impl Drop for Way {
    fn drop(self) {
        let Way {
            point: _,
            choices,
            messages,
            sessions,
            phase: _,
        } = self;
        drop(choices);
        drop(messages);
        drop(sessions);
    }
}

impl Model for Way {
    ghost use Rattle.spec_attack_runs.specs.Source as attack;
    ghost use Rattle.clause_sources.specs.Codes.{coded_way};

    ghost Value = { attack.Way };

    ghost coded = { coded_way };

    ghost view = { λ w. record {
      point = w.point;
      choices = w.choices;
      messages = w.messages;
      sessions = w.sessions;
      phase = w.phase;
    } };
}

/// What a run does where an instance of a raw clause is used. Constructors, destructors and rules are numbered from 1.
pub enum Action {
    /// Nothing.
    Idle,
    /// The attacker applies the constructor.
    Builds(u32),
    /// The attacker applies the rule, the second number, of the destructor.
    Reduces(u32, u32),
    /// A thread goes that way, and does what its point says.
    Reaches(Way),
}

impl Drop for Action {
    fn drop(self) {
        match self {
            Action::Idle => {}
            Action::Builds(_) => {}
            Action::Reduces(_, _) => {}
            Action::Reaches(part) => drop(part),
        }
    }
}

/// A source: a raw clause, the number of the flat part whose norm a clause is, from 1, and what a run does where an instance of
/// the raw clause is used. The sources of one raw clause share it and the action.
pub struct Source {
    pub(crate) raw: Rc<PlainClause>,
    pub part: usize,
    pub(crate) action: Rc<Action>,
}

impl Drop for Source {
    fn drop(self) {
        let Source {
            raw,
            part: _,
            action,
        } = self;
        drop(raw);
        drop(action);
    }
}

impl Model for Source {
    ghost use Rattle.spec_attack_runs.specs.Source as attack;
    ghost use Rattle.clause_sources.specs.Codes.{coded_source};

    ghost Value = { attack.Source };

    ghost coded = { coded_source };

    ghost use Rattle.std.specs.Rc.{rc_value};
    ghost use Rattle.clause_sources.specs.Seen.{action_of};

    ghost view = { λ s. record {
      raw = rc_value s.raw;
      part = s.part;
      action = action_of (rc_value s.action);
    } };
}

/// Sources in order.
#[derive(Drop)]
pub struct Sources {
    pub items: Vec<Source>,
}

impl Model for Sources {
    ghost use Rattle.std.specs.Prelude.{List};
    ghost use Rattle.spec_attack_runs.specs.Source as attack;
    ghost use Rattle.clause_sources.specs.Codes.{coded_sources};

    ghost Value = { List attack.Source };

    ghost coded = { coded_sources };

    ghost view = { λ a. a.items.items };
}

impl Choice {
    /// A copy.
    pub fn copy(&self, alloc: Global) -> Result<Choice, AllocError>
        ensures { IfOk result (λ copied. choice_of copied ≡ choice_of self.now) }
    {
        match self {
            Choice::Taken(label) => {
                let items = label.items.to_vec(alloc)?;
                Ok(Choice::Taken(Label { items }))
            }
            Choice::Else => Ok(Choice::Else),
        }
    }
}

impl Choices {
    /// A copy.
    pub fn copy(&self, alloc: Global) -> Result<Choices, AllocError>
        ensures { IfOk result (λ copied. copied ≡ self.now) }
    {
        let mut items = Vec::with_capacity(alloc, self.items.len())?;
        'each: for choice in &self.items {
            items.push(choice.copy(alloc)?)?;
        }
        Ok(Choices { items })
    }
}

impl Source {
    /// The raw clause.
    pub fn raw(&self) -> &PlainClause
        ensures { result.now ≡ self.now.raw }
    {
        self.raw.as_ref()
    }

    /// What a run does where an instance of the raw clause is used.
    pub fn action(&self) -> &Action
        ensures { action_of result.now ≡ self.now.action }
    {
        self.action.as_ref()
    }
}

impl Sources {
    /// No sources. Takes no memory.
    pub fn new(alloc: Global) -> Sources
        ensures { result ≡ [] }
    {
        Sources {
            items: Vec::new(alloc),
        }
    }

    /// One more source, at the end.
    pub fn push(&mut self, source: Source) -> Result<(), AllocError>
        ensures { OnOk result (self.new ≡ self.old ++ source ∷ []) }
    {
        self.items.push(source)?;
        Ok(())
    }
}
