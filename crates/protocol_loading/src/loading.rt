//! Loading the whole text of a file, and the protocol that it spells.

ghost use Rattle.std.specs.Prelude.{◌≡◌, ◌-◌, ◌^◌, ◌<◌, ◌≤◌, ℕ, List, length, vec_len, IfOk, IfErr};
ghost use Rattle.spec_calculus.specs.Bounds.{most_bytes};
ghost use Rattle.spec_protocol_scope.specs.Spells.{Spells};
ghost use Rattle.pi_tree.specs.Protocols.{protocol_of};
ghost use Rattle.protocol_loading.specs.Loaded.{IsLoaded};
ghost use Rattle.protocol_loading.specs.Outside.{OfFile, outside};
ghost use Rattle.protocol_loading.specs.Reading.{IsStopOf, IsNoReading, IsNoText, IsUnread, not_loaded};

use crate::codes::ProtocolCode;
use crate::reading::{Stop, read_protocol};
use hv_io::{Files, LoadError, place};
use pi_tree::{MOST_BYTES, Protocol};
use spec_certificate_text::spelled_protocols_have_names;
use spec_protocol_scope::{proper_rules, query_leaves, well_scoped, within_limits};
use spec_protocol_tokens::spans_ascend;
use std::alloc::Global;

/// Why a text was not loaded.
#[derive(Clone, Copy)]
pub enum Unloaded {
    /// The outside failed.
    Failed,
    /// The file has too many bytes.
    TooLong,
    /// Want of memory.
    Memory,
}

/// Why a protocol was not loaded.
#[derive(Clone, Copy)]
pub enum Unread {
    /// Its file could not be read.
    Fault,
    /// The bytes are refused; line and column are counted from 1, in bytes.
    Refused {
        line: u64,
        column: u64,
        code: ProtocolCode,
    },
    /// Want of memory.
    Memory,
}

/// All bytes of a file, which may be `most`.
pub fn load_text<F: Files>(name: &str, most: usize, files: &mut F) -> Result<Vec<u8>, Unloaded>
    requires { most < 2 ^ 64 - 1 }
    ensures held_stays { (any : List ℕ) → F.held files.new any ≡ F.held files.old any }
    ensures read_faults_rise { (any : List ℕ) → F.faults files.old any ≤ F.faults files.new any }
    ensures within { IfOk result (λ bytes. vec_len bytes ≤ most) }
    ensures loaded { IfOk result (λ bytes.
        OfFile (outside F.held F.faults F.loads files.old files.new) name.now most (λ all.
        bytes.items ≡ all)) }
    ensures unloaded { IfErr result (λ why.
        IsNoText (outside F.held F.faults F.loads files.old files.new) name.now most why) }
{
    match files.load(name, most + 1) {
        Err(LoadError::Failed) => Err(Unloaded::Failed),
        Err(LoadError::Memory(_)) => Err(Unloaded::Memory),
        Ok(bytes) => {
            if bytes.len() > most {
                Err(Unloaded::TooLong)
            } else {
                Ok(bytes)
            }
        }
    }
}

/// What there is in place of a protocol whose text could not be loaded.
fn not_loaded(why: Unloaded) -> Unread
    ensures { result ≡ not_loaded why }
{
    match why {
        Unloaded::Failed => Unread::Fault,
        Unloaded::TooLong => Unread::Refused {
            line: 1,
            column: 1,
            code: ProtocolCode::LongFile,
        },
        Unloaded::Memory => Unread::Memory,
    }
}

/// What there is in place of a protocol that could not be read in these bytes.
fn not_read(bytes: &[u8], why: Stop) -> Unread
    requires { IsStopOf bytes.now why }
    ensures { IsNoReading bytes.now result }
{
    spans_ascend();
    match why {
        Stop::Refused(code, at) => {
            let (line, column) = place(bytes, at);
            Unread::Refused { line, column, code }
        }
        Stop::Memory => Unread::Memory,
    }
}

/// The protocol that the bytes spell, which are not too many, or why there is none.
pub fn protocol_in(alloc: Global, bytes: &[u8]) -> Result<Protocol, Unread>
    requires { length bytes.now ≤ most_bytes }
    ensures loaded { IfOk result (λ protocol. IsLoaded (protocol_of protocol)) }
    ensures spelled { IfOk result (λ protocol. Spells bytes.now (protocol_of protocol)) }
    ensures unread { IfErr result (λ why. IsNoReading bytes.now why) }
{
    within_limits();
    proper_rules();
    well_scoped();
    query_leaves();
    spelled_protocols_have_names();
    match read_protocol(alloc, bytes) {
        Ok(protocol) => Ok(protocol),
        Err(why) => Err(not_read(bytes, why)),
    }
}

/// The protocol that a file spells, or why there is none.
pub fn load_protocol<F: Files>(alloc: Global, file: &str, files: &mut F) -> Result<Protocol, Unread>
    ensures held_stays { (name : List ℕ) → F.held files.new name ≡ F.held files.old name }
    ensures read_faults_rise { (name : List ℕ) → F.faults files.old name ≤ F.faults files.new name }
    ensures loaded { IfOk result (λ protocol. IsLoaded (protocol_of protocol)) }
    ensures spelled { IfOk result (λ protocol.
        OfFile (outside F.held F.faults F.loads files.old files.new) file.now most_bytes (λ bytes.
        Spells bytes (protocol_of protocol))) }
    ensures unread { IfErr result (λ why.
        IsUnread (outside F.held F.faults F.loads files.old files.new) file.now why) }
{
    match load_text(file, MOST_BYTES, files) {
        Err(why) => Err(not_loaded(why)),
        Ok(bytes) => protocol_in(alloc, &bytes),
    }
}
