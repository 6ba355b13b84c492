//! Files in memory, of which some loads fail.
ghost use Rattle.std.specs.Prelude.{◌≡◌, ℕ, ◌≤◌, List, [], ◌∷◌, ◌++◌, ◌↔◌, IfOk, OnOk, OnErr, IsOkAnd, take, alloc_error};
ghost use Rattle.hv_io.specs.Faults.{IsFaultCounted};
ghost use Rattle.hv_io.specs.InMemory.{no_calls, after_call, after_fault, bytes_of, FailsNext};

use crate::calls::CallLog;
use crate::entries::{NamedBytes, find, first_bytes};
use crate::loading::{Files, LoadError};
use std::alloc::{AllocError, Global};
use std::marker::Model;

/// Files in memory, for tests: names and bytes, and a list of the loads that fail.
///
/// A load of a name that was never added fails too; such a name holds nothing. One counter, which stays at its last
/// value, is the count of faults of every name.
#[derive(Drop)]
pub struct MemFiles {
    entries: Vec<NamedBytes>,
    calls: CallLog,
    alloc: Global,
}

impl Model for MemFiles {
    ghost use Rattle.hv_io.specs.InMemory.{FilesState};

    ghost Value = { FilesState };

    ghost view = { λ a. record { entries = a.entries.items; calls = a.calls } };
}

impl MemFiles {
    /// No file, and no load that is to fail. Takes no memory yet.
    pub fn new(alloc: Global) -> Result<Self, AllocError>
        ensures { IsOkAnd result (λ files. files ≡ record { entries = []; calls = no_calls }) }
    {
        Ok(MemFiles {
            entries: Vec::new(alloc),
            calls: CallLog::new(alloc),
            alloc,
        })
    }

    /// Lets `name` hold `bytes`, in place of what it held before.
    pub fn add(&mut self, name: &str, bytes: &[u8]) -> Result<(), AllocError>
        ensures ok { OnOk result (self.new ≡ record self.old
            { entries = record { name = name.now; bytes = bytes.now } ∷ self.old.entries }) }
        ensures err { OnErr result (self.new ≡ self.old) }
    {
        let entry = NamedBytes::new(self.alloc, name, bytes)?;
        self.entries.insert(0, entry)?;
        Ok(())
    }

    /// Makes the load of this number fail, counted from 1.
    pub fn fail_at(&mut self, call: u64) -> Result<(), AllocError>
        ensures ok { OnOk result (self.new ≡ record self.old
            { calls = record self.old.calls { failing = self.old.calls.failing ++ call ∷ [] } }) }
        ensures err { OnErr result (self.new ≡ self.old) }
    {
        self.calls.fail_at(call)
    }

    /// How many loads have failed.
    pub fn faults(&self) -> u64
        ensures { result ≡ self.now.calls.faults }
    {
        self.calls.faults()
    }
}

impl Files for MemFiles {
    ghost use Rattle.std.specs.Prelude.{Some, None};
    ghost use Rattle.hv_io.specs.InMemory.{bytes_of};

    ghost held = { λ files name. Some (bytes_of files.entries name) };

    ghost faults = { λ files _. files.calls.faults };

    ghost loads = { λ _. None };

    fn load(&mut self, name: &str, most: usize) -> Result<Vec<u8>, LoadError>
        ensures faults_rise { self.old.calls.faults ≤ self.new.calls.faults }
        ensures failed { result ≡ Err LoadError.Failed →
            IsFaultCounted self.old.calls.faults self.new.calls.faults }

        // A load fails exactly where it is to, and is then counted as a fault.
        ensures due { (result ≡ Err LoadError.Failed) ↔ FailsNext self.old name.now }
        ensures fault { result ≡ Err LoadError.Failed →
            self.new ≡ record self.old { calls = after_fault self.old.calls } }

        ensures loaded { IfOk result (λ bytes.
            bytes.items ≡ take most (bytes_of self.old.entries name.now)) }
        ensures counted { OnOk result (self.new ≡
            record self.old { calls = after_call self.old.calls }) }

        ensures memory { result ≡ Err (LoadError.Memory alloc_error) → self.new ≡ self.old }
    {
        if self.calls.is_next_to_fail() {
            self.calls.count_fault();
            return Err(LoadError::Failed);
        }
        let Some(held) = find(&self.entries, name) else {
            self.calls.count_fault();
            return Err(LoadError::Failed);
        };
        let bytes = first_bytes(self.alloc, held, most)?;
        self.calls.count_call();
        Ok(bytes)
    }
}
