//! Why a step gives nothing.

ghost use Rattle.std.specs.Prelude.{◌≡◌};

use std::alloc::{AllocError, AllocFailed};

/// Why nothing is found.
#[derive(Clone, Copy, Debug, PartialEq, Eq)]
pub enum Trap {
    /// An act that the language leaves undefined, by its number.
    Act(u8),
    /// A runtime error, by its code.
    Error(u8),
    /// A step that no typed program asks for.
    IllTyped,
}

/// Why a step that may take memory gives nothing.
#[derive(Clone, Copy, Debug, PartialEq, Eq)]
pub enum Stop {
    /// Memory ran out, or a number passes the integers that hold such numbers here.
    OutOfMemory,
    Trapped(Trap),
}

impl From<AllocError> for Stop {
    ghost use Rattle.interpreter_store.specs.declared.cell_store.traps.Stop.{Stop};

    ghost from_gives = { λ _ stop. stop ≡ Stop.OutOfMemory };

    fn from(_error: AllocError) -> Stop {
        Stop::OutOfMemory
    }
}

impl<T: Drop> From<AllocFailed<T>> for Stop {
    ghost use Rattle.interpreter_store.specs.declared.cell_store.traps.Stop.{Stop};

    ghost from_gives = { λ _ stop. stop ≡ Stop.OutOfMemory };

    fn from(_error: AllocFailed<T>) -> Stop {
        Stop::OutOfMemory
    }
}

impl From<Trap> for Stop {
    ghost use Rattle.interpreter_store.specs.declared.cell_store.traps.Stop.{Stop};

    ghost from_gives = { λ trap stop. stop ≡ Stop.Trapped trap };

    fn from(trap: Trap) -> Stop {
        Stop::Trapped(trap)
    }
}
