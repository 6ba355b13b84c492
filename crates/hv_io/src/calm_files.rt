//! Files in memory that never fail.
ghost use Rattle.std.specs.Prelude.{◌≡◌, ℕ, List, [], ◌∷◌, IfOk, OnOk, OnErr, IsOkAnd, IsOkUnless, take, alloc_error};
ghost use Rattle.hv_io.specs.InMemory.{bytes_of};

use crate::entries::{NamedBytes, find, first_bytes};
use crate::loading::{Files, LoadError};
use std::alloc::{AllocError, Global};
use std::marker::Model;

/// Files in memory of which no load fails. A name that was never added holds nothing, and its load gives no bytes.
#[derive(Drop)]
pub struct CalmFiles {
    entries: Vec<NamedBytes>,
    alloc: Global,
}

impl Model for CalmFiles {
    ghost use Rattle.std.specs.Prelude.{List};
    ghost use Rattle.hv_io.specs.InMemory.{Entry};

    ghost Value = { List Entry };

    ghost view = { λ a. a.entries.items };
}

impl CalmFiles {
    /// No file. Takes no memory yet.
    pub fn new(alloc: Global) -> Result<Self, AllocError>
        ensures { IsOkAnd result (λ files. files ≡ []) }
    {
        Ok(CalmFiles {
            entries: Vec::new(alloc),
            alloc,
        })
    }

    /// Lets `name` hold `bytes`, in place of what it held before.
    pub fn add(&mut self, name: &str, bytes: &[u8]) -> Result<(), AllocError>
        ensures ok { OnOk result (self.new ≡ record { name = name.now; bytes = bytes.now } ∷
            self.old) }
        ensures err { OnErr result (self.new ≡ self.old) }
    {
        let entry = NamedBytes::new(self.alloc, name, bytes)?;
        self.entries.insert(0, entry)?;
        Ok(())
    }
}

impl Files for CalmFiles {
    ghost use Rattle.std.specs.Prelude.{Some, None};
    ghost use Rattle.hv_io.specs.InMemory.{bytes_of};

    ghost held = { λ files name. Some (bytes_of files name) };

    ghost faults = { λ _ _. 0 };

    ghost loads = { λ _. None };

    fn load(&mut self, name: &str, most: usize) -> Result<Vec<u8>, LoadError>
        ensures loaded { IfOk result (λ bytes.
            bytes.items ≡ take most (bytes_of self.old name.now)) }
        ensures memory { IsOkUnless result (LoadError.Memory alloc_error) }
        ensures same { self.new ≡ self.old }
    {
        let held = find(&self.entries, name).unwrap_or(&[]);
        Ok(first_bytes(self.alloc, held, most)?)
    }
}
