//! Files that are opened, and read from their first byte.
ghost use Rattle.std.specs.Prelude.{◌≡◌, ◌≤◌, ℕ, List, IfOk, vec_len};
ghost use Rattle.hv_io.specs.Files.{HoldsFirst, WillGive};

use crate::loading::{Files, LoadError};
use crate::reading::read_first;
use std::alloc::Global;
use std::io;
use std::io::Read;

/// Something that opens what stands under names, as a file system does.
pub trait Opener {
    ghost use Rattle.std.specs.Prelude.{ℕ, List, Option};

    /// What is read of an open file.
    type File: Read + Drop;

    /// The bytes that a name holds, where the object tells them. A name is its bytes in UTF-8.
    ghost held: { Self → List ℕ → Option (List ℕ) };

    /// Opens what stands under `name`, at its first byte.
    fn open(&self, name: &str) -> io::Result<Self::File>
        ensures { IfOk result (λ file.
            WillGive (held self.now name.now) (Self.File.remaining file)) };
}

/// Files that are opened for each load. One counter, which stays at its last value, is the count of faults of every
/// name. A fault is a file that can't be opened, and a read that fails.
#[derive(Drop)]
pub struct OpenedFiles<O> {
    opener: O,
    alloc: Global,
    faults: u64,
}

impl<O: Opener> OpenedFiles<O> {
    /// The files, with no fault yet.
    pub fn new(alloc: Global, opener: O) -> Self
        ensures { (name : List ℕ) → ⟦<OpenedFiles<O> as Files>⟧.faults result name ≡ 0 }
    {
        OpenedFiles {
            opener,
            alloc,
            faults: 0,
        }
    }

    /// How many loads have failed.
    pub fn faults(&self) -> u64
        ensures { (name : List ℕ) →
            result ≡ ⟦<OpenedFiles<O> as Files>⟧.faults self.now name }
    {
        self.faults
    }
}

impl<O: Opener> Files for OpenedFiles<O> {
    ghost use Rattle.std.specs.Prelude.{None};

    ghost held = { λ files name. O.held files.opener name };

    ghost faults = { λ files _. files.faults };

    ghost loads = { λ _. None };

    fn load(&mut self, name: &str, most: usize) -> Result<Vec<u8>, LoadError> {
        let result = load_first(self.alloc, &self.opener, name, most);
        if let Err(LoadError::Failed) = &result {
            self.faults = self.faults.saturating_add(1);
        }
        result
    }
}

/// The first `most` bytes that a name holds, or all where there are fewer.
fn load_first<O: Opener>(
    alloc: Global,
    opener: &O,
    name: &str,
    most: usize,
) -> Result<Vec<u8>, LoadError>
    ensures first { IfOk result (λ bytes.
        HoldsFirst most (O.held opener.now name.now) bytes.items) }
    ensures within { IfOk result (λ bytes. vec_len bytes ≤ most) }
{
    match opener.open(name) {
        Ok(file) => read_first(alloc, file, most),
        Err(_) => Err(LoadError::Failed),
    }
}
