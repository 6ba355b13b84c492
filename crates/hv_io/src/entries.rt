//! Names with bytes under them.
ghost use Rattle.std.specs.Prelude.{◌≡◌, List, IfOk, MatchOption, Some, None, take};
ghost use Rattle.hv_io.specs.InMemory.{added};

use std::alloc::{AllocError, Global};
use std::marker::Model;

/// A name, and the bytes under it.
pub struct NamedBytes {
    name: String,
    bytes: Vec<u8>,
}

impl Drop for NamedBytes {
    fn drop(self) {
        let NamedBytes { name, bytes } = self;
        drop(name);
        drop(bytes);
    }
}

impl Model for NamedBytes {
    ghost use Rattle.std.specs.Prelude.{string_bytes};
    ghost use Rattle.hv_io.specs.InMemory.{Entry};

    ghost Value = { Entry };

    ghost view = { λ a. record { name = string_bytes a.name; bytes = a.bytes.items } };
}

impl NamedBytes {
    /// A copy of these bytes under this name.
    pub fn new(alloc: Global, name: &str, bytes: &[u8]) -> Result<Self, AllocError>
        ensures { IfOk result (λ entry. entry ≡ record { name = name.now; bytes = bytes.now }) }
    {
        Ok(NamedBytes {
            name: String::from_str(alloc, name)?,
            bytes: Vec::from_slice(alloc, bytes)?,
        })
    }
}

/// The bytes of the first entry of this name, the newest where the newest stands first.
pub fn find<'a>(entries: &'a [NamedBytes], name: &str) -> Option<&'a [u8]>
    ensures { MatchOption result (added entries.now name.now ≡ None)
        (λ bytes. added entries.now name.now ≡ Some bytes.now) }
{
    for entry in entries {
        if entry.name.as_str() == name {
            return Some(entry.bytes.as_slice());
        }
    }
    None
}

/// A copy of the first `most` bytes, or of all where there are fewer.
pub fn first_bytes(alloc: Global, bytes: &[u8], most: usize) -> Result<Vec<u8>, AllocError>
    ensures { IfOk result (λ copied. copied.items ≡ take most bytes.now) }
{
    Vec::from_slice(alloc, &bytes[..most.min(bytes.len())])
}
