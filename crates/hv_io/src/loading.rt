//! Bytes that are loaded by name.
ghost use Rattle.std.specs.Prelude.{◌≡◌, ◌≤◌, ℕ, List, [], ◌∷◌, IfOk, OnErr, vec_len, alloc_error};
ghost use Rattle.hv_io.specs.Faults.{IsFaultCounted};
ghost use Rattle.hv_io.specs.Files.{HoldsFirst, with_loads};

use std::alloc::AllocError;
use thiserror::Error;

/// Why nothing was loaded.
#[derive(Debug, Drop, Error)]
pub enum LoadError {
    /// The outside failed, or it has nothing of that name.
    #[error("the load failed")]
    Failed,
    /// There was no memory for the bytes.
    #[error("no memory for the bytes")]
    Memory(AllocError),
}

impl From<AllocError> for LoadError {
    ghost use Rattle.std.specs.Prelude.{◌≡◌};
    ghost use Rattle.hv_io.specs.declared.loading.LoadError.TheVariants.{Memory};

    ghost from_gives = { λ missing error. error ≡ Memory missing };

    fn from(missing: AllocError) -> LoadError {
        LoadError::Memory(missing)
    }
}

/// Something that holds bytes under names, as a file system does.
pub trait Files {
    ghost use Rattle.std.specs.Prelude.{ℕ, List, Option};
    ghost use Rattle.hv_io.specs.Files.{Load};

    /// The bytes that a name holds, where the object tells them. A name is its bytes in UTF-8.
    ghost held: { Self → List ℕ → Option (List ℕ) };

    /// How many faults have been counted for a name.
    ghost faults: { Self → List ℕ → ℕ };

    /// The loads that gave bytes, in their order, where the object tells them.
    ghost loads: { Self → Option (List Load) };

    /// The first bytes that `name` holds: `most` of them, or all where there are fewer.
    ///
    /// # Errors
    ///
    /// [`LoadError::Failed`] comes only with a fault that is counted for this name, and no fault is counted with
    /// [`LoadError::Memory`]. After either error the same bytes are held as before.
    fn load(&mut self, name: &str, most: usize) -> Result<Vec<u8>, LoadError>
        ensures held_stays { (any : List ℕ) → held self.new any ≡ held self.old any }
        ensures faults_rise { (any : List ℕ) → faults self.old any ≤ faults self.new any }

        ensures first { IfOk result (λ bytes.
            HoldsFirst most (held self.old name.now) bytes.items) }
        ensures within { IfOk result (λ bytes. vec_len bytes ≤ most) }
        ensures failed { result ≡ Err LoadError.Failed →
            IsFaultCounted (faults self.old name.now) (faults self.new name.now) }
        ensures memory { result ≡ Err (LoadError.Memory alloc_error) →
            (any : List ℕ) → faults self.new any ≡ faults self.old any }

        ensures gave { IfOk result (λ bytes. loads self.new ≡ with_loads (loads self.old)
            (record { name = name.now; bytes = bytes.items } ∷ [])) }
        ensures gave_none { OnErr result (loads self.new ≡ loads self.old) };
}
