//! A sink in memory, some of whose puts fail.

use crate::outside::{Sink, SinkError};
use std::marker::Model;

/// A sink that holds in memory what it takes, at most so many bytes a put, and fails at the puts that it
/// is told.
///
/// Puts are numbered from 0, and the number stays at 2^64 - 1 once it is there. A contract sees a sink as
/// its `SinkState`.
#[derive(Drop)]
pub struct MemSink {
    most: usize,
    failing: Vec<u64>,
    taken: Vec<u8>,
    calls: u64,
    faults: u64,
    wants: u64,
}

impl Model for MemSink {
    ghost use Rattle.std.specs.Prelude.{◌≤◌};
    ghost use Rattle.sr_base.specs.Memory.{SinkState};

    ghost Value = { SinkState };

    ghost view = { λ s. record { most = s.most; failing = s.failing.items; taken = s.taken.items; calls = s.calls; faults = s.faults; wants = s.wants } };

    ghost invariant = { λ s. 1 ≤ s.most };
}

impl MemSink {
    ghost use Rattle.std.specs.Prelude.{◌≡◌, ◌≤◌, []};

    /// Makes a sink that has taken nothing, takes at most `most` bytes a put, and fails at the puts of these
    /// numbers.
    pub fn new(most: usize, failing: Vec<u64>) -> MemSink
        requires { 1 ≤ most }
        ensures { result ≡ record { most = most; failing = failing.items; taken = []; calls = 0; faults = 0; wants = 0 } }
    {
        let alloc = *failing.allocator();
        MemSink {
            most,
            failing,
            taken: Vec::new(alloc),
            calls: 0,
            faults: 0,
            wants: 0,
        }
    }

    /// Returns the bytes taken, in order.
    pub fn bytes(&self) -> &[u8]
        ensures { result.now ≡ self.now.taken }
    {
        &self.taken
    }

    /// Returns how many puts failed, at most 2^64 - 1. Running out of memory is no fault.
    pub fn count(&self) -> u64
        ensures { result ≡ self.now.faults }
    {
        self.faults
    }
}

impl Sink for MemSink {
    ghost use Rattle.std.specs.Prelude.{◌≡◌, ◌≢◌, ◌↔◌, ◌<◌, ◌≤◌, ◌++◌, length, take, min, Some, IfOk, OnErr, IsErrOf, Contains};
    ghost use Rattle.sr_base.specs.Counts.{Rose, raised};
    ghost use Rattle.sr_base.specs.Bytes.{Takes};

    ghost meaning = { λ s. record { taken = Some s.taken; faults = s.faults; wants = s.wants } };

    /// Takes as much of the piece as the sink takes at once. Fails at the numbers that it was made with,
    /// and nowhere else.
    fn put(&mut self, piece: &[u8]) -> Result<usize, SinkError>
        ensures within { IfOk result (λ n. n ≤ length piece.now) }
        ensures some { IfOk result (λ n. 0 < length piece.now → 0 < n) }
        ensures taken { IfOk result (λ n. Takes (Some self.old.taken) (Some self.new.taken) (take n piece.now)) }
        ensures untaken { OnErr result (Some self.new.taken ≡ Some self.old.taken) }
        ensures failed { IsErrOf result SinkError.Failed → Rose self.old.faults self.new.faults }
        ensures out_of_memory { IsErrOf result SinkError.OutOfMemory → Rose self.old.wants self.new.wants }
        ensures faults_later { self.old.faults ≤ self.new.faults }
        ensures wants_later { self.old.wants ≤ self.new.wants }

        // Which puts fail, how much one takes, and what a put leaves.
        ensures listed { IsErrOf result SinkError.Failed ↔ Contains self.old.failing self.old.calls }
        ensures most { IfOk result (λ n. n ≡ min (length piece.now) self.old.most) }
        ensures counted { self.new
            ≡ record self.old { taken = self.new.taken; calls = raised self.old.calls; faults = self.new.faults; wants = self.new.wants } }
        ensures faulted { IsErrOf result SinkError.Failed → self.new.faults ≡ raised self.old.faults }
        ensures unfaulted { result ≢ Err SinkError.Failed → self.new.faults ≡ self.old.faults }
        ensures wanted { IsErrOf result SinkError.OutOfMemory → self.new.wants ≡ raised self.old.wants }
        ensures unwanted { result ≢ Err SinkError.OutOfMemory → self.new.wants ≡ self.old.wants }
    {
        let is_failing = self.failing.contains(&self.calls);
        self.calls = self.calls.saturating_add(1);
        if is_failing {
            self.faults = self.faults.saturating_add(1);
            return Err(SinkError::Failed);
        }
        let count = piece.len().min(self.most);
        match self.taken.extend_from_slice(&piece[..count]) {
            Ok(()) => Ok(count),
            Err(_) => {
                self.wants = self.wants.saturating_add(1);
                Err(SinkError::OutOfMemory)
            }
        }
    }
}
