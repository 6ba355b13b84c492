//! A sink in memory, of which some writes fail.
ghost use Rattle.std.specs.Prelude.{◌≡◌, ℕ, ◌<◌, ◌≤◌, ◌⊎◌, List, [], ◌∷◌, ◌++◌, IsErr, IfOk, OnOk, OnErr, IsOkAnd, length, take};
ghost use Rattle.hv_io.specs.Faults.{IsFaultCounted};
ghost use Rattle.hv_io.specs.InMemory.{no_calls, taken_of, IsNextToFail, NeedsMemory, after_call, after_fault};

use crate::calls::CallLog;
use crate::writing::{Failed, Sink};
use std::alloc::{AllocError, Global};
use std::marker::Model;

/// A sink in memory, for tests: it takes so many bytes a call at most, and fails at the calls of a list.
///
/// A write for which there is no memory fails too, and is counted as a fault.
#[derive(Drop)]
pub struct MemSink {
    bytes: Vec<u8>,
    most: usize,
    calls: CallLog,
}

impl Model for MemSink {
    ghost use Rattle.std.specs.Prelude.{◌<◌, vec_capacity};
    ghost use Rattle.hv_io.specs.InMemory.{SinkState};

    ghost Value = { SinkState };

    ghost view = { λ a. record { bytes = a.bytes.items; most = a.most; room = vec_capacity a.bytes; calls = a.calls } };

    ghost invariant = { λ a. 0 < a.most };
}

impl MemSink {
    /// Nothing is written, and no write is to fail. Takes no memory yet.
    pub fn new(alloc: Global, most: usize) -> Result<Self, AllocError>
        requires { 0 < most }
        ensures { IsOkAnd result (λ sink. sink ≡
            record { bytes = []; most = most; room = 0; calls = no_calls }) }
    {
        Ok(MemSink {
            bytes: Vec::new(alloc),
            most,
            calls: CallLog::new(alloc),
        })
    }

    /// Makes the write of this number fail, counted from 1.
    pub fn fail_at(&mut self, call: u64) -> Result<(), AllocError>
        ensures ok { OnOk result (self.new ≡ record self.old
            { calls = record self.old.calls { failing = self.old.calls.failing ++ call ∷ [] } }) }
        ensures err { OnErr result (self.new ≡ self.old) }
    {
        self.calls.fail_at(call)
    }

    /// How many writes have failed.
    pub fn faults(&self) -> u64
        ensures { result ≡ self.now.calls.faults }
    {
        self.calls.faults()
    }

    /// The bytes that were written.
    pub fn written(&self) -> &[u8]
        ensures { result.now ≡ self.now.bytes }
    {
        self.bytes.as_slice()
    }
}

impl Sink for MemSink {
    ghost use Rattle.std.specs.Prelude.{Some};

    ghost written = { λ sink. Some sink.bytes };

    ghost faults = { λ sink. sink.calls.faults };

    fn write(&mut self, piece: &[u8]) -> Result<usize, Failed>
        ensures faults_rise { self.old.calls.faults ≤ self.new.calls.faults }
        ensures goes_on { IfOk result (λ n. 0 < length piece.now → 0 < n) }
        ensures failed { OnErr result (IsFaultCounted self.old.calls.faults self.new.calls.faults) }

        // A write fails where it is to, and else only where it needs memory; it is then counted as a fault.
        ensures due { IsNextToFail self.old.calls → IsErr result }
        ensures cause { OnErr result (IsNextToFail self.old.calls ⊎
            NeedsMemory self.old piece.now) }
        ensures nothing_taken { OnErr result (self.new.bytes ≡ self.old.bytes) }
        ensures fault { OnErr result (self.new.calls ≡ after_fault self.old.calls) }

        ensures taken { IfOk result (λ n. n ≡ taken_of self.old piece.now) }
        ensures written { IfOk result (λ n. self.new.bytes ≡ self.old.bytes ++ take n piece.now) }
        ensures counted { OnOk result (self.new.calls ≡ after_call self.old.calls) }
        ensures same_most { self.new.most ≡ self.old.most }
        ensures room_stays { self.old.room ≤ self.new.room }
    {
        if self.calls.is_next_to_fail() {
            self.calls.count_fault();
            return Err(Failed);
        }
        let taken = self.most.min(piece.len());
        if self.bytes.extend_from_slice(&piece[..taken]).is_err() {
            self.calls.count_fault();
            return Err(Failed);
        }
        self.calls.count_call();
        Ok(taken)
    }
}
