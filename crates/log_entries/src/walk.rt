//! What is walked along: a log, what is kept beside it, and a clause that is offered to it.

ghost use Rattle.std.specs.Prelude.{IfOk};
ghost use Rattle.log_entries.specs.Live.{IsEmptyLive, IsSameLive};

use crate::chains::Chains;
use crate::log::Entry;
use clause_form::Clause;
use fact_classes::Classes;
use fact_fingerprint::Fingerprint;
use feature_index::Features;
use std::alloc::{AllocError, Global};

/// What is kept beside the entries of a log: the numbers of the live ones, ascending, of those that are solved and of the
/// others; the features of each entry's clause, in order, the fingerprint of the fact on which it is resolved, and that of
/// its conclusion; the numbers of the live ones whose conclusions don't end with a closed term; the chains by which those
/// that end with one are found; and the numbers of solved entries and of the others by the classes of these facts, in which
/// some may be live no more. Its `drop` is written out, so that it is one call wherever this is let go.
pub struct Live {
    pub solved: Vec<usize>,
    pub unsolved: Vec<usize>,
    pub features: Vec<Features>,
    pub prints: Vec<Fingerprint>,
    pub unclosed: Vec<usize>,
    pub chains: Chains,
    pub conclusions: Vec<Fingerprint>,
    pub solved_classes: Classes,
    pub unsolved_classes: Classes,
}

/// What a clause shows at a look: its features, and the fingerprint of its conclusion.
#[derive(Clone, Copy)]
pub struct Looks {
    pub features: Features,
    pub conclusion: Fingerprint,
}

/// A clause that is offered, what it shows, and the number that its entry is to have.
#[derive(Drop)]
pub struct Offer<'a> {
    pub alloc: Global,
    pub clause: &'a Clause,
    pub looks: Looks,
    pub number: usize,
}

/// The log so far, its live entries, and how many entries it may have.
#[derive(Drop)]
pub struct Walk {
    pub alloc: Global,
    pub items: Vec<Entry>,
    pub live: Live,
    pub budget: u64,
}

impl Drop for Live {
    fn drop(self) {
        let Live {
            solved: _,
            unsolved: _,
            features: _,
            prints: _,
            unclosed: _,
            chains: _,
            conclusions: _,
            solved_classes: _,
            unsolved_classes: _,
        } = self;
    }
}

impl Live {
    /// No numbers.
    pub fn none(alloc: Global) -> Self
        ensures { IsEmptyLive result }
    {
        Live {
            solved: Vec::new(alloc),
            unsolved: Vec::new(alloc),
            features: Vec::new(alloc),
            prints: Vec::new(alloc),
            unclosed: Vec::new(alloc),
            chains: Chains::none(alloc),
            conclusions: Vec::new(alloc),
            solved_classes: Classes::none(alloc),
            unsolved_classes: Classes::none(alloc),
        }
    }

    /// A copy.
    pub fn copy(&self, alloc: Global) -> Result<Self, AllocError>
        ensures { IfOk result (λ copied. IsSameLive self.now copied) }
    {
        let solved = self.solved.to_vec(alloc)?;
        let unsolved = self.unsolved.to_vec(alloc)?;
        let features = self.features.to_vec(alloc)?;
        let prints = self.prints.to_vec(alloc)?;
        let unclosed = self.unclosed.to_vec(alloc)?;
        let chains = self.chains.copy(alloc)?;
        let conclusions = self.conclusions.to_vec(alloc)?;
        let solved_classes = self.solved_classes.copy(alloc)?;
        let unsolved_classes = self.unsolved_classes.copy(alloc)?;
        Ok(Live {
            solved,
            unsolved,
            features,
            prints,
            unclosed,
            chains,
            conclusions,
            solved_classes,
            unsolved_classes,
        })
    }
}
