//! Counted calls, of which some are to fail.
ghost use Rattle.std.specs.Prelude.{◌≡◌, ◌≤◌, [], ◌∷◌, ◌++◌, ◌↔◌, IsTrue, OnOk, OnErr};
ghost use Rattle.hv_io.specs.Faults.{IsFaultCounted};
ghost use Rattle.hv_io.specs.InMemory.{no_calls, IsNextToFail, after_call, after_fault};

use std::alloc::{AllocError, Global};
use std::marker::Model;

/// The calls of an object: which of them are to fail, how many were made, and how many faults were counted.
/// A count that stands at the last value of its type stays there.
#[derive(Drop)]
pub struct CallLog {
    failing: Vec<u64>,
    made: u64,
    faults: u64,
}

impl Model for CallLog {
    ghost use Rattle.hv_io.specs.InMemory.{Calls};

    ghost Value = { Calls };

    ghost view = { λ a. record { failing = a.failing.items; made = a.made; faults = a.faults } };
}

impl CallLog {
    /// No call was made, and none is to fail.
    pub fn new(alloc: Global) -> Self
        ensures { result ≡ no_calls }
    {
        CallLog {
            failing: Vec::new(alloc),
            made: 0,
            faults: 0,
        }
    }

    /// Makes the call of this number fail, counted from 1.
    pub fn fail_at(&mut self, call: u64) -> Result<(), AllocError>
        ensures ok { OnOk result (self.new ≡ record self.old
            { failing = self.old.failing ++ call ∷ [] }) }
        ensures err { OnErr result (self.new ≡ self.old) }
    {
        self.failing.push(call)?;
        Ok(())
    }

    /// Whether the next call is one of those that are to fail.
    pub fn is_next_to_fail(&self) -> bool
        ensures { IsTrue result ↔ IsNextToFail self.now }
    {
        self.failing.contains(&self.made.saturating_add(1))
    }

    /// How many faults were counted.
    pub fn faults(&self) -> u64
        ensures { result ≡ self.now.faults }
    {
        self.faults
    }

    /// Counts a call that went well.
    pub fn count_call(&mut self)
        ensures { self.new ≡ after_call self.old }
    {
        self.made = self.made.saturating_add(1);
    }

    /// Counts a call that failed.
    pub fn count_fault(&mut self)
        ensures after { self.new ≡ after_fault self.old }
        ensures rises { self.old.faults ≤ self.new.faults }
        ensures counted { IsFaultCounted self.old.faults self.new.faults }
    {
        self.made = self.made.saturating_add(1);
        self.faults = self.faults.saturating_add(1);
    }
}
