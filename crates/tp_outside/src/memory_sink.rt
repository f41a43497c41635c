ghost use Rattle.std.specs.Prelude.{◌≡◌, ◌<◌, ◌≤◌, ◌↔◌, ◌⊎◌, ◌-◌, [], min, length, take, Some, IfOk, OnOk, OnErr, IsErr, IsTrue};
ghost use Rattle.std.specs.Io.KnownBytes.{append_known};
ghost use Rattle.tp_outside.specs.Calls.{is_next_failing, called, faulted};
ghost use Rattle.tp_outside.specs.Faults.{HasRisen};

use crate::calls::CallCount;
use crate::faults::Failed;
use crate::sinks::Sink;
use std::alloc::{AllocError, Global};
use std::marker::Model;

/// A sink in memory, which tells its bytes, and fails where it was asked to and where it is full.
#[derive(Debug, Drop)]
pub struct MemorySink {
    calls: CallCount,
    bytes: Vec<u8>,
    room: usize,
}

impl Model for MemorySink {
    ghost use Rattle.std.specs.Prelude.{◌≤◌, vec_len, vec_capacity};
    ghost use Rattle.tp_outside.specs.Memory.{SinkState};

    ghost Value = { SinkState };

    ghost view = { λ sink. record { calls = sink.calls; room = sink.room; contents = sink.bytes.items } };

    ghost invariant = { λ sink. (vec_len sink.bytes ≤ sink.room) × (sink.room ≤ vec_capacity sink.bytes) };
}

impl MemorySink {
    /// A sink for at most `room` bytes, whose calls with a number in `failing` fail. The first call has number 1.
    pub fn new(alloc: Global, room: usize, failing: &[u64]) -> Result<MemorySink, AllocError>
        ensures { IfOk result (λ sink. sink ≡ record {
          calls = record { failing = failing.now; made = 0; faults = 0 };
          room = room;
          contents = [];
        }) }
    {
        Ok(MemorySink {
            calls: CallCount::new(alloc, failing)?,
            bytes: Vec::with_capacity(alloc, room)?,
            room,
        })
    }

    /// The bytes that it took.
    pub fn bytes(&self) -> &[u8]
        ensures { result.now ≡ self.now.contents }
    {
        self.bytes.as_slice()
    }
}

impl Sink for MemorySink {
    ghost faults = { λ sink. sink.calls.faults };

    ghost contents = { λ sink. Some sink.contents };

    fn write(&mut self, from: &[u8]) -> Result<usize, Failed>
        ensures fails { IsErr result ↔ (IsTrue (is_next_failing self.old.calls)
            ⊎ ((self.old.room ≤ length self.old.contents) × (0 < length from.now))) }
        ensures calls { OnOk result (self.new.calls ≡ called self.old.calls) }
        ensures faults { OnErr result (self.new.calls ≡ faulted (called self.old.calls)) }

        // As of any sink.
        ensures bound { IfOk result (λ count. count ≤ length from.now) }
        ensures progress { IfOk result (λ count. 0 < length from.now → 0 < count) }
        ensures taken { IfOk result (λ count.
            Some self.new.contents ≡ append_known (Some self.old.contents) (take count from.now)) }
        ensures unchanged { OnErr result (Some self.new.contents ≡ Some self.old.contents) }
        ensures counted { self.old.calls.faults ≤ self.new.calls.faults }
        ensures failed { OnErr result (HasRisen self.old.calls.faults self.new.calls.faults) }
    {
        let is_failing = self.calls.begin();
        let count = from.len().min(self.room - self.bytes.len());
        if is_failing || (count == 0 && !from.is_empty()) {
            return Err(self.calls.fail());
        }
        match self.bytes.extend_from_slice(&from[..count]) {
            Ok(()) => Ok(count),
            Err(_) => Err(self.calls.fail()),
        }
    }
}
