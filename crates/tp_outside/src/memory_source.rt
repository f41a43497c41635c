ghost use Rattle.std.specs.Prelude.{◌≡◌, ◌<◌, ◌≤◌, ◌↔◌, length, take, drop, Some, IfOk, OnErr, IsErr, IsTrue};
ghost use Rattle.std.specs.Io.KnownBytes.{prepend_known, IsAtEnd};
ghost use Rattle.tp_outside.specs.Calls.{is_next_failing, after_call};
ghost use Rattle.tp_outside.specs.Faults.{HasRisen};

use crate::calls::CallCount;
use crate::faults::Failed;
use crate::sources::Source;
use std::alloc::{AllocError, Global};
use std::marker::Model;

/// A source in memory, which tells its bytes and fails where it was asked to.
#[derive(Debug, Drop)]
pub struct MemorySource {
    calls: CallCount,
    bytes: Vec<u8>,
    place: usize,
}

impl Model for MemorySource {
    ghost use Rattle.std.specs.Prelude.{◌≤◌, drop, vec_len};
    ghost use Rattle.tp_outside.specs.Memory.{SourceState};

    ghost Value = { SourceState };

    ghost view = { λ source. record { calls = source.calls; remaining = drop source.place source.bytes.items } };

    ghost invariant = { λ source. source.place ≤ vec_len source.bytes };
}

impl MemorySource {
    /// A source that gives `bytes`, and whose calls with a number in `failing` fail. The first call has
    /// number 1.
    pub fn new(alloc: Global, bytes: &[u8], failing: &[u64]) -> Result<MemorySource, AllocError>
        ensures { IfOk result (λ source. source ≡ record {
          calls = record { failing = failing.now; made = 0; faults = 0 };
          remaining = bytes.now;
        }) }
    {
        Ok(MemorySource {
            calls: CallCount::new(alloc, failing)?,
            bytes: Vec::from_slice(alloc, bytes)?,
            place: 0,
        })
    }
}

impl Source for MemorySource {
    ghost faults = { λ source. source.calls.faults };

    ghost remaining = { λ source. Some source.remaining };

    fn read(&mut self, into: &mut [u8]) -> Result<usize, Failed>
        ensures fails { IsErr result ↔ IsTrue (is_next_failing self.old.calls) }
        ensures calls { self.new.calls ≡ after_call self.old.calls }

        // As of any source.
        ensures bound { IfOk result (λ count. count ≤ length into.new) }
        ensures given { IfOk result (λ count.
            Some self.old.remaining ≡ prepend_known (take count into.new) (Some self.new.remaining)) }
        ensures ended { IfOk result (λ count.
            count ≡ 0 → 0 < length into.new → IsAtEnd (Some self.new.remaining)) }
        ensures unchanged { OnErr result (Some self.new.remaining ≡ Some self.old.remaining) }
        ensures counted { self.old.calls.faults ≤ self.new.calls.faults }
        ensures failed { OnErr result (HasRisen self.old.calls.faults self.new.calls.faults) }
    {
        if self.calls.begin() {
            return Err(self.calls.fail());
        }
        let rest = &self.bytes[self.place..];
        let count = rest.len().min(into.len());
        into[..count].copy_from_slice(&rest[..count]);
        self.place += count;
        Ok(count)
    }
}
