ghost use Rattle.std.specs.Prelude.{◌≡◌, ◌≤◌, IfOk};
ghost use Rattle.tp_outside.specs.Calls.{Calls, is_next_failing, called, faulted};
ghost use Rattle.tp_outside.specs.Faults.{HasRisen};

use crate::faults::Failed;
use std::alloc::{AllocError, Global};
use std::marker::Model;

/// Counts the calls of an object in memory and its faults, and knows which calls are to fail.
#[derive(Debug, Drop)]
pub(crate) struct CallCount {
    failing: Vec<u64>,
    made: u64,
    faults: u64,
}

impl Model for CallCount {
    ghost use Rattle.tp_outside.specs.Calls.{Calls};

    ghost Value = { Calls };

    ghost view = { λ count. record { failing = count.failing.items; made = count.made; faults = count.faults } };
}

impl CallCount {
    /// No call was made yet.
    pub(crate) fn new(alloc: Global, failing: &[u64]) -> Result<CallCount, AllocError>
        ensures { IfOk result (λ count. count ≡ record { failing = failing.now; made = 0; faults = 0 }) }
    {
        Ok(CallCount {
            failing: Vec::from_slice(alloc, failing)?,
            made: 0,
            faults: 0,
        })
    }

    /// Counts a call, and says whether it is to fail.
    pub(crate) fn begin(&mut self) -> bool
        ensures fails { result ≡ is_next_failing self.old }
        ensures counted { self.new ≡ called self.old }
    {
        let number = self.made.saturating_add(1);
        self.made = number;
        self.failing.as_slice().contains(&number)
    }

    /// Counts a fault.
    pub(crate) fn fail(&mut self) -> Failed
        ensures counted { self.new ≡ faulted self.old }
        ensures risen { HasRisen self.old.faults self.new.faults }
        ensures kept { self.old.faults ≤ self.new.faults }
    {
        self.faults = self.faults.saturating_add(1);
        Failed
    }
}
