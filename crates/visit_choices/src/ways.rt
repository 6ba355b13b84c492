//! How the choices of a `let` go on.

ghost use Rattle.std.specs.Prelude.{◌≡◌, true, IfSome, MatchOption, MatchBool};
ghost use Rattle.spec_translation.specs.Visit as translation;
ghost use Rattle.unified_visits.specs.Visits.{visit_at, IsVisitIn};
ghost use Rattle.visit_choices.specs.Ways.{is_nowhere_way, is_large_way, going_way};
ghost use Rattle.visit_choices.specs.declared.ways.Way.TheVariants as ways;

use term_tree::Bank;
use unified_visits::sizes::is_large_visit;
use unified_visits::visit::Visit;

/// How a choice goes on.
#[derive(Drop)]
pub enum Way {
    /// There is no unifier.
    Nowhere,
    /// The visit that goes on is too large.
    Large,
    Visit(Visit),
}

/// Choices that were passed, one after the other, and how they go on: all of them nowhere, or the one that it is.
#[derive(Drop)]
pub struct Passed {
    pub count: usize,
    pub way: Way,
}

/// What is found of choices: whether one goes on with a visit that is too large, and how many go on.
#[derive(Clone, Copy)]
pub struct Looked {
    pub large: bool,
    pub going: usize,
}

impl Passed {
    /// Whether they go on nowhere.
    pub fn is_nowhere(&self) -> bool
        ensures is { result ≡ is_nowhere_way self.now.way }
        ensures way { result ≡ true → self.now.way ≡ ways.Nowhere }
    {
        matches!(self.way, Way::Nowhere)
    }

    /// What is found of them.
    pub fn looked(&self) -> Looked
        ensures large { result.large ≡ is_large_way self.now.way }
        ensures going { result.going ≡ going_way self.now.way }
    {
        match self.way {
            Way::Nowhere => Looked {
                large: false,
                going: 0,
            },
            Way::Large => Looked {
                large: true,
                going: 1,
            },
            Way::Visit(_) => Looked {
                large: false,
                going: 1,
            },
        }
    }
}

impl Way {
    /// Whether the visit that goes on is too large.
    pub fn is_large(&self) -> bool
        ensures { result ≡ is_large_way self.now }
    {
        matches!(self, Way::Large)
    }
}

/// The visit, unless it is too large.
pub fn way_to<B: Bank>(bank: &B, found: Option<Visit>) -> Way
    requires { IfSome found (λ made. IsVisitIn (B.trees bank.now) made) }
    ensures { MatchOption found (result ≡ ways.Large)
        (λ made. MatchBool (translation.is_large_visit (visit_at (B.trees bank.now) made))
        (result ≡ ways.Large) (result ≡ ways.Visit made)) }
{
    match found {
        None => Way::Large,
        Some(made) => {
            if is_large_visit(bank, &made) {
                Way::Large
            } else {
                Way::Visit(made)
            }
        }
    }
}
