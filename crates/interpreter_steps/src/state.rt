//! What the interpreter keeps of a run.

ghost use Rattle.std.specs.Prelude.{◌≡◌};
ghost use Rattle.tp_meaning.specs.Trees.{Value as PureValue};
ghost use Rattle.tp_meaning.specs.Outcomes.{Does, spending};
ghost use Rattle.interpreter_steps.specs.Running.{view_run, Spends};

use interpreter_effects::program_names::Sources;
use interpreter_store::cell_store::{Stop, Store, Trap};
use std::alloc::{AllocError, AllocFailed, Global};

/// How a statement ended: the next one follows, or the routine is left.
#[derive(Clone, Copy, Debug, PartialEq, Eq)]
pub enum Flow {
    Next,
    Left,
}

/// Why a run goes no further.
#[derive(Clone, Copy, Debug, PartialEq, Eq)]
pub enum Over {
    OutOfMemory,
    /// A turn is due, and none is left.
    Going,
    Ended(u8),
    /// A runtime error, whose text is still due.
    Error(u8),
    /// An act that the language leaves undefined, by its number.
    Undefined(u8),
    /// A step that no typed program asks for.
    Stuck,
}

impl From<AllocError> for Over {
    ghost use Rattle.interpreter_steps.specs.declared.state.Over.{Over};

    ghost from_gives = { λ _ over. over ≡ Over.OutOfMemory };

    fn from(_error: AllocError) -> Over {
        Over::OutOfMemory
    }
}

impl<T: Drop> From<AllocFailed<T>> for Over {
    ghost use Rattle.interpreter_steps.specs.declared.state.Over.{Over};

    ghost from_gives = { λ _ over. over ≡ Over.OutOfMemory };

    fn from(_error: AllocFailed<T>) -> Over {
        Over::OutOfMemory
    }
}

impl From<Trap> for Over {
    ghost use Rattle.interpreter_steps.specs.Running.{over_of_trap};

    ghost from_gives = { λ trap over. over ≡ over_of_trap trap };

    fn from(trap: Trap) -> Over {
        match trap {
            Trap::Act(number) => Over::Undefined(number),
            Trap::Error(code) => Over::Error(code),
            Trap::IllTyped => Over::Stuck,
        }
    }
}

impl From<Stop> for Over {
    ghost use Rattle.interpreter_steps.specs.Running.{over_of};

    ghost from_gives = { λ stop over. over ≡ over_of stop };

    fn from(stop: Stop) -> Over {
        match stop {
            Stop::OutOfMemory => Over::OutOfMemory,
            Stop::Trapped(Trap::Act(number)) => Over::Undefined(number),
            Stop::Trapped(Trap::Error(code)) => Over::Error(code),
            Stop::Trapped(Trap::IllTyped) => Over::Stuck,
        }
    }
}

/// A run: the turns that are left, the store, whether the overlays are installed, the input that nothing has taken yet, and
/// what was written to the output and to the errors.
#[derive(Drop)]
pub struct Run<'a> {
    pub turns: u64,
    pub store: Store,
    pub installed: bool,
    pub input: &'a [u8],
    pub out: Vec<u8>,
    pub err: Vec<u8>,
}

impl Run<'_> {
    /// Spends a turn, where one is left.
    pub fn spend(&mut self) -> Result<(), Over>
        ensures { (go : Does PureValue) → Spends result (view_run self.new) (spending go (view_run self.old)) go }
    {
        if self.turns == 0 {
            return Err(Over::Going);
        }
        self.turns -= 1;
        Ok(())
    }
}

/// The program that is interpreted.
#[derive(Clone, Copy)]
pub struct Interpreter<'a> {
    pub alloc: Global,
    pub sources: Sources<'a>,
}
