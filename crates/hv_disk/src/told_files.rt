//! Files whose loads are told.
ghost use Rattle.std.specs.Prelude.{◌≡◌, []};

use http_server::Log;
use hv_io::{Files, LoadError};
use std::alloc::Global;

/// Files with the history of their loads, which takes no memory, and which only proofs read: of each load that gave bytes, its
/// name and these bytes. So clauses can speak of the bytes that a load gave, though the files tell nothing of what they hold.
#[derive(Drop)]
pub struct ToldFiles<F: Files> {
    files: F,
    loads: Log<String, Vec<u8>>,
    alloc: Global,
}

impl<F: Files> ToldFiles<F> {
    /// The files, with no load told yet.
    pub fn new(alloc: Global, files: F) -> Self
        ensures files { result.files ≡ files }
        ensures loads { result.loads.items ≡ [] }
    {
        ToldFiles {
            files,
            loads: Log::new(),
            alloc,
        }
    }
}

impl<F: Files> Files for ToldFiles<F> {
    ghost use Rattle.std.specs.Prelude.{Some, map};
    ghost use Rattle.hv_disk.specs.Loads.{load_of};

    ghost held = { λ told name. F.held told.files name };

    ghost faults = { λ told name. F.faults told.files name };

    ghost loads = { λ told. Some (map load_of told.loads.items) };

    fn load(&mut self, name: &str, most: usize) -> Result<Vec<u8>, LoadError> {
        let copy = String::from_str(self.alloc, name)?;
        let result = self.files.load(name, most);
        if let Ok(bytes) = &result {
            self.loads = self.loads.and(&copy, bytes);
        }
        result
    }
}
