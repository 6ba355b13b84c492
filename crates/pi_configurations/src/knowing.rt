//! Whether the attacker knows the value of a term.

ghost use Rattle.std.specs.Prelude.{◌≡◌, true};
ghost use Rattle.spec_calculus.specs.Values.{value_of};
ghost use Rattle.spec_calculus.specs.Runs.{knows};
ghost use Rattle.pi_tree.specs.Terms.{term_of};
ghost use Rattle.term_values.specs.Bound.{bound_of};
ghost use Rattle.pi_configurations.specs.Configurations.{configuration_of};

use crate::configurations::Conf;
use crate::hashes::term_hash;
use pi_tree::Term;
use term_values::{Bound, is_value_of};

/// Whether the value of the term is the one that is found first. Where it isn't, it may be known all the same.
#[tactic(auto, using(crate::proofs::Members::of_members))]
fn is_latest(conf: &Conf, term: &Term, bound: &Bound) -> bool
    ensures { result ≡ true → knows (configuration_of conf.now)
        (value_of (bound_of bound.now) (term_of term.now)) ≡ true }
{
    match conf.known.latest_of(term_hash(term, bound)) {
        None => false,
        Some(value) => is_value_of(term, value, bound),
    }
}

/// Whether the attacker knows the value of the term. A value that is known is mostly found at once; one that isn't
/// takes a look at all.
pub fn knows(conf: &Conf, term: &Term, bound: &Bound) -> bool
    ensures { result ≡ knows (configuration_of conf.now)
        (value_of (bound_of bound.now) (term_of term.now)) }
{
    if is_latest(conf, term, bound) {
        return true;
    }
    for value in &conf.known.items {
        if is_value_of(term, value, bound) {
            return true;
        }
    }
    false
}
