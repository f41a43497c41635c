//! The statements that call nothing.

ghost use Rattle.std.specs.Prelude.{◌≡◌, ◌<◌, length};
ghost use Rattle.flat_code.specs.Memory.{word_bytes, far_bytes};
ghost use Rattle.flat_code.specs.Meaning.{State, Outcome, Does, run, step_of, stored, left, looped};
ghost use Rattle.flat_code.specs.Tree.{StoreByte, StoreWord, Copy, Leave, StoreRoutine, Return, Error, End, Do};
ghost use Rattle.flat_code.specs.View.{view_expr};
ghost use Rattle.flat_run.specs.Views.{view_frame};
ghost use Rattle.flat_run.specs.Running.{view_program, view_choice, view_run, outcome_of, around_of, Flows, Passes};

use crate::context::Interpreter;
use crate::state::{Flow, Run, Stop};
use crate::value::{Activation, place_of, routine_pointer, value_of};
use common_values::integers::{high_byte, low_byte};
use flat_code::{Address, FlatExpr, Place};
use type_layout::RoutineId;

/// The bytes of a word, the lower one first.
pub fn word_bytes(word: u16) -> [u8; 2]
    ensures { result ≡ word_bytes word }
{
    [low_byte(word), high_byte(word)]
}

/// The bytes of a far pointer, its offset first.
pub fn far_bytes(place: Place) -> [u8; 4]
    ensures { result ≡ far_bytes place }
{
    [
        low_byte(place.offset),
        high_byte(place.offset),
        low_byte(place.segment),
        high_byte(place.segment),
    ]
}

impl Interpreter<'_> {
    /// Stores bytes at an address.
    pub fn store(
        &self,
        state: &mut Run,
        f: &Activation,
        to: Address,
        bytes: &[u8],
    ) -> Result<(), Stop>
        requires { length bytes.now < 65536 }
        ensures { Passes result (view_run state.new) (stored (view_choice self.now) (view_frame f.now) to bytes.now (view_run state.old)) }
    {
        let place = place_of(self.units, f, &state.memory, to)?;
        state.memory.store(place, 0, bytes)?;
        Ok(())
    }

    fn store_low_byte(
        &self,
        state: &mut Run,
        f: &Activation,
        to: Address,
        value: &FlatExpr,
    ) -> Result<(), Stop>
        ensures { (again : Does) → Passes result (view_run state.new) (step_of (view_program self.now) (view_choice self.now) again (StoreByte to (view_expr value.now)) (view_frame f.now) (view_run state.old)) }
    {
        let value = value_of(self.units, f, &state.memory, value)?;
        self.store(state, f, to, &[low_byte(value)])
    }

    fn store_both_bytes(
        &self,
        state: &mut Run,
        f: &Activation,
        to: Address,
        value: &FlatExpr,
    ) -> Result<(), Stop>
        ensures { (again : Does) → Passes result (view_run state.new) (step_of (view_program self.now) (view_choice self.now) again (StoreWord to (view_expr value.now)) (view_frame f.now) (view_run state.old)) }
    {
        let value = value_of(self.units, f, &state.memory, value)?;
        self.store(state, f, to, &word_bytes(value))
    }

    fn copy_bytes(
        &self,
        state: &mut Run,
        f: &Activation,
        to: Address,
        from: Address,
        bytes: u16,
    ) -> Result<(), Stop>
        ensures { (again : Does) → Passes result (view_run state.new) (step_of (view_program self.now) (view_choice self.now) again (Copy to from bytes) (view_frame f.now) (view_run state.old)) }
    {
        let to = place_of(self.units, f, &state.memory, to)?;
        let from = place_of(self.units, f, &state.memory, from)?;
        state.memory.copy(to, from, bytes)?;
        Ok(())
    }

    fn store_pointer(
        &self,
        state: &mut Run,
        f: &Activation,
        to: Address,
        routine: RoutineId,
    ) -> Result<(), Stop>
        ensures { (again : Does) → Passes result (view_run state.new) (step_of (view_program self.now) (view_choice self.now) again (StoreRoutine to routine.unit routine.number) (view_frame f.now) (view_run state.old)) }
    {
        let pointer = routine_pointer(self.units, f, routine.unit, routine.number)?;
        self.store(state, f, to, &far_bytes(pointer))
    }

    /// Runs a `StoreByte`.
    pub fn store_byte(
        &self,
        state: &mut Run,
        f: &Activation,
        to: Address,
        value: &FlatExpr,
    ) -> Result<Flow, Stop>
        ensures { Flows result (view_run state.new) (run (view_program self.now) (view_choice self.now) (Do (StoreByte to (view_expr value.now)) End) (view_frame f.now) (view_run state.old)) }
    {
        state.begin(1)?;
        state.begin_expr(value)?;
        then_next(self.store_low_byte(state, f, to, value))
    }

    /// Runs a `StoreWord`.
    pub fn store_word(
        &self,
        state: &mut Run,
        f: &Activation,
        to: Address,
        value: &FlatExpr,
    ) -> Result<Flow, Stop>
        ensures { Flows result (view_run state.new) (run (view_program self.now) (view_choice self.now) (Do (StoreWord to (view_expr value.now)) End) (view_frame f.now) (view_run state.old)) }
    {
        state.begin(1)?;
        state.begin_expr(value)?;
        then_next(self.store_both_bytes(state, f, to, value))
    }

    /// Runs a `Copy`.
    pub fn copy(
        &self,
        state: &mut Run,
        f: &Activation,
        to: Address,
        from: Address,
        bytes: u16,
    ) -> Result<Flow, Stop>
        ensures { Flows result (view_run state.new) (run (view_program self.now) (view_choice self.now) (Do (Copy to from bytes) End) (view_frame f.now) (view_run state.old)) }
    {
        state.begin(1)?;
        then_next(self.copy_bytes(state, f, to, from, bytes))
    }

    /// Runs a `StoreRoutine`.
    pub fn store_routine(
        &self,
        state: &mut Run,
        f: &Activation,
        to: Address,
        routine: RoutineId,
    ) -> Result<Flow, Stop>
        ensures { Flows result (view_run state.new) (run (view_program self.now) (view_choice self.now) (Do (StoreRoutine to routine.unit routine.number) End) (view_frame f.now) (view_run state.old)) }
    {
        state.begin(1)?;
        then_next(self.store_pointer(state, f, to, routine))
    }

    /// Runs a `Leave`.
    pub fn leave(&self, state: &mut Run, f: &Activation, loops: u16) -> Result<Flow, Stop>
        ensures { Flows result (view_run state.new) (run (view_program self.now) (view_choice self.now) (Do (Leave loops) End) (view_frame f.now) (view_run state.old)) }
    {
        state.begin(1)?;
        Ok(left(loops))
    }

    /// Runs a `Return`.
    pub fn return_from(&self, state: &mut Run, f: &Activation) -> Result<Flow, Stop>
        ensures { Flows result (view_run state.new) (run (view_program self.now) (view_choice self.now) (Do Return End) (view_frame f.now) (view_run state.old)) }
    {
        state.begin(1)?;
        Ok(Flow::Returned)
    }

    /// Runs an `Error`.
    pub fn stop(&self, state: &mut Run, f: &Activation, code: u16) -> Result<Flow, Stop>
        ensures { Flows result (view_run state.new) (run (view_program self.now) (view_choice self.now) (Do (Error code) End) (view_frame f.now) (view_run state.old)) }
    {
        state.begin(1)?;
        Err(Stop::Error(code))
    }
}

/// The next statement, where nothing stopped the run.
pub fn then_next(done: Result<(), Stop>) -> Result<Flow, Stop>
    ensures { (s : State) (o : Outcome) → Passes done s o → Flows result s o }
{
    done?;
    Ok(Flow::Next)
}

// What follows the loops that are left.
fn left(loops: u16) -> Flow
    ensures { (s : State) → left loops s ≡ outcome_of result s }
{
    if loops == 0 {
        return Flow::Next;
    }
    Flow::Left(loops - 1)
}

/// How a loop goes on after a run of its body: with nothing to say it comes round again.
pub fn around(flow: Flow) -> Option<Flow>
    ensures { (s : State) (again : State → Outcome) → looped (outcome_of flow s) again ≡ around_of result again s }
{
    match flow {
        Flow::Next => None,
        Flow::Left(0) => Some(Flow::Next),
        Flow::Left(loops) => Some(Flow::Left(loops - 1)),
        Flow::Returned => Some(Flow::Returned),
    }
}
