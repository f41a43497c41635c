//! What a call does before and after the body of its routine, and the effects of the machine.

ghost use Rattle.std.specs.Prelude.{◌≡◌, ◌+◌, ◌*◌, ◌^◌, ◌<◌, ◌≤◌, ℕ, length, IfOk, OnOk, Vec};
ghost use Rattle.std.specs.Global.{Global};
ghost use Rattle.flat_code.specs.Memory.{Finds};
ghost use Rattle.flat_code.specs.Meaning.{
  Does,
  State,
  begun,
  spend,
  with_found,
  with_some,
  key_of,
  pointer_at,
  values_of,
  result_bytes,
  give,
  activation_bytes,
  stack_top,
  is_too_deep,
  frame_of,
  opened,
  ended,
  with_cells,
  write_act,
  read_act,
  end_act,
  clear_act,
  flag_act,
  runtime_of,
};
ghost use Rattle.flat_code.specs.Tree.{exprs_size};
ghost use Rattle.flat_code.specs.View.{view_exprs};
ghost use Rattle.flat_code.specs.Plain.{view_unit, view_routine};
ghost use Rattle.flat_run.specs.Views.{view_frame, view_callee};
ghost use Rattle.flat_run.specs.Running.{view_program, view_choice, view_run, Passes, Leads, Admits};

use crate::context::Interpreter;
use crate::program::{Callee, callee_of};
use crate::state::{Run, Stop};
use crate::statements::word_bytes;
use crate::value::{Activation, STACK_SEGMENT, named, place_of, value_of};
use flat_code::{Address, Cell, FlatExpr, FlatResult, FlatRoutine, FlatUnit, Place, Trap};
use std::alloc::AllocError;
use type_layout::RoutineId;

/// The bytes that an activation of a routine takes of the stack.
pub fn activation_bytes(routine: &FlatRoutine) -> u64
    ensures { result ≡ activation_bytes (view_routine routine.now) }
{
    let bytes = u64::from(routine.arguments) + u64::from(routine.locals);
    if routine.far { bytes + 6 } else { bytes + 4 }
}

/// The activation of a routine that is called in another one.
pub fn frame_of<'a>(
    name: &'a [u8],
    unit: &'a FlatUnit,
    routine: &FlatRoutine,
    f: &Activation,
) -> Activation<'a>
    requires room { activation_bytes (view_routine routine.now) ≤ f.now.sp }
    requires sum { f.now.sum + routine.now.frame < 2 ^ 32 }
    ensures { view_frame result ≡ frame_of name.now (view_unit unit.now) (view_routine routine.now) (view_frame f.now) }
{
    let link = f.sp - routine.arguments as u16;
    let bp = if routine.far { link - 6 } else { link - 4 };
    Activation {
        name,
        names: unit.names.as_slice(),
        bp,
        link,
        sp: bp - routine.locals as u16,
        sum: f.sum + routine.frame,
    }
}

impl Interpreter<'_> {
    /// The values of expressions, in order.
    pub fn values(
        &self,
        state: &Run,
        f: &Activation,
        exprs: &[FlatExpr],
    ) -> Result<Result<Vec<u16>, Trap>, AllocError>
        ensures { IfOk result (λ found. Finds (λ (values : Vec ℕ Global). values.items) found (values_of (view_choice self.now) (view_frame f.now) ((view_run state.now).cells) (view_exprs exprs.now))) }
    {
        let mut values = Vec::new(self.alloc);
        'exprs: for expr in exprs {
            match value_of(self.units, f, &state.memory, expr) {
                Ok(value) => values.push(value)?,
                Err(trap) => return Ok(Err(trap)),
            }
        }
        Ok(Ok(values))
    }

    /// Begins a statement that calls: counts it with its arguments, evaluates these, and spends the
    /// call's turn.
    pub fn prepare(
        &self,
        state: &mut Run,
        f: &Activation,
        args: &[FlatExpr],
    ) -> Result<Vec<u16>, Stop>
        ensures turn { OnOk result (state.new.turns < state.old.turns) }
        ensures leads { let t = begun (1 + exprs_size (view_exprs args.now)) (view_run state.old) in Leads (λ (values : Vec ℕ Global). values.items) result (view_run state.new) (λ go. with_found (values_of (view_choice self.now) (view_frame f.now) t.cells (view_exprs args.now)) t (λ values. spend t (go values))) }
    {
        state.begin(1)?;
        state.begin_exprs(args)?;
        let values = self.values(state, f, args)??;
        state.spend()?;
        Ok(values)
    }

    /// The routine with a number in a unit, by the unit's place in the names of the running one.
    pub fn callee_named<'a>(
        &self,
        state: &Run,
        f: &Activation<'a>,
        routine: RoutineId,
    ) -> Result<Callee<'a>, Stop>
        ensures { Leads view_callee result (view_run state.now) (λ go. with_found (key_of (view_frame f.now) routine.unit routine.number) (view_run state.now) (λ key. go key (view_run state.now))) }
    {
        let name = named(f.name, f.names, routine.unit).ok_or(Trap::Bad(2))?;
        Ok(Callee {
            name,
            number: routine.number,
        })
    }

    /// The routine to which the far pointer at an address leads.
    pub fn callee_at(
        &self,
        state: &Run,
        f: &Activation,
        pointer: Address,
    ) -> Result<Callee<'_>, Stop>
        ensures { let s = view_run state.now in Leads view_callee result s (λ go. with_found (pointer_at (view_choice self.now) (view_frame f.now) s.cells pointer) s (λ p. with_some ((view_choice self.now).callee p) s (λ key. go key s))) }
    {
        let place = place_of(self.units, f, &state.memory, pointer)?;
        let pointer = state.memory.far(place)?;
        callee_of(self.units, pointer).ok_or(Stop::Undefined(1))
    }

    /// The bytes of a result, or none where there is no result.
    pub fn result_bytes(
        &self,
        state: &Run,
        f: &Activation,
        own: Option<FlatResult>,
    ) -> Result<Result<Vec<u8>, Trap>, AllocError>
        ensures { IfOk result (λ found. Finds (λ (bytes : Vec ℕ Global). bytes.items) found (result_bytes (view_choice self.now) (view_frame f.now) ((view_run state.now).cells) own)) }
    {
        let Some(own) = own else {
            return Ok(Ok(Vec::new(self.alloc)));
        };
        match place_of(self.units, f, &state.memory, own.at) {
            Ok(place) => state.memory.bytes(self.alloc, place, u16::from(own.bytes)),
            Err(trap) => Ok(Err(trap)),
        }
    }

    /// Gives the bytes of a result to where a call wants them.
    pub fn give(
        &self,
        state: &mut Run,
        f: &Activation,
        wanted: Option<FlatResult>,
        bytes: &[u8],
    ) -> Result<(), Stop>
        ensures { Passes result (view_run state.new) (give (view_choice self.now) (view_frame f.now) wanted bytes.now (view_run state.old)) }
    {
        let Some(wanted) = wanted else {
            return Ok(());
        };
        if bytes.len() != usize::from(wanted.bytes) {
            return Err(Stop::Undefined(1));
        }
        self.store(state, f, wanted.at, bytes)
    }

    fn is_overlaid(&self, name: &[u8]) -> bool
        ensures { result ≡ (view_program self.now).overlaid name.now }
    {
        self.overlaid.iter().any(|other| name == other.as_bytes())
    }

    /// The bytes of the stack, an odd number of them counted one up.
    pub fn stack_top(&self) -> u16
        ensures { result ≡ stack_top (view_program self.now) }
    {
        (self.stack + self.stack % 2) as u16
    }

    fn is_too_deep(&self, routine: &FlatRoutine, sum: u32) -> bool
        ensures { result ≡ is_too_deep (view_program self.now) (view_routine routine.now) sum }
    {
        let depth = u64::from(sum) + u64::from(routine.frame) + 512;
        routine.frame > 0 && u64::from(self.stack_top()) < depth
    }

    /// Whether a routine may be called with these arguments: it takes as many, its overlay can be
    /// reached, and the stack has room.
    pub fn admit(
        &self,
        state: &Run,
        f: &Activation,
        name: &[u8],
        routine: &FlatRoutine,
        args: &[u16],
    ) -> Result<(), Stop>
        ensures admitted { Admits (view_program self.now) (view_choice self.now) name.now args.now (view_frame f.now) (view_run state.now) (view_routine routine.now) result }
        ensures fits { OnOk result (2 * length args.now ≡ routine.now.arguments) }
        ensures sum { OnOk result (f.now.sum + routine.now.frame < 2 ^ 32) }
    {
        if args.len() != (routine.arguments / 2) as usize || routine.arguments % 2 != 0 {
            return Err(Stop::Undefined(1));
        }
        if self.is_overlaid(name) && !state.flag {
            return Err(Stop::Error(208));
        }
        if self.is_too_deep(routine, f.sum) {
            return Err(Stop::Error(202));
        }
        Ok(())
    }

    /// Lets an activation begin: its arguments stand at the top, and its locals are unset.
    pub fn open(&self, state: &mut Run, f: &Activation, routine: &FlatRoutine, args: &[u16])
        requires room { activation_bytes (view_routine routine.now) ≤ f.now.sp }
        requires fits { 2 * length args.now ≡ routine.now.arguments }
        ensures { view_run state.new ≡ with_cells (view_run state.old) (opened (view_choice self.now) (view_routine routine.now) (view_frame f.now) args.now ((view_run state.old).cells)) }
    {
        state.memory.push(STACK_SEGMENT, f.sp, args);
        let low = u32::from(f.sp) - activation_bytes(routine) as u32;
        state
            .memory
            .fill(STACK_SEGMENT, low, routine.locals, Cell::Unset);
    }

    /// Ends an activation, whose frame is g, of a routine that was called in f.
    pub fn close(
        &self,
        state: &mut Run,
        f: &Activation,
        g: &Activation,
        routine: &FlatRoutine,
        wanted: Option<FlatResult>,
    ) -> Result<(), Stop>
        requires { activation_bytes (view_routine routine.now) ≤ f.now.sp }
        ensures { Passes result (view_run state.new) (ended (view_choice self.now) (view_routine routine.now) (view_frame g.now) (view_frame f.now) wanted (view_run state.old)) }
    {
        let bytes = self.result_bytes(state, g, routine.result)??;
        let top = u32::from(f.sp);
        let size = activation_bytes(routine) as u32;
        state
            .memory
            .fill(STACK_SEGMENT, top - size, size, Cell::Outside);
        self.give(state, f, wanted, bytes.as_slice())
    }

    fn write(&self, state: &mut Run, args: &[u16]) -> Result<(), Stop>
        ensures { Passes result (view_run state.new) (write_act args.now (view_run state.old)) }
    {
        let [handle, segment, offset, count] = args else {
            return Err(Stop::Undefined(1));
        };
        let place = Place {
            segment: *segment,
            offset: *offset,
        };
        let bytes = state.memory.bytes(self.alloc, place, *count)??;
        if *handle == 1 {
            state.out.extend_from_slice(bytes.as_slice())?;
        } else if *handle == 2 {
            state.err.extend_from_slice(bytes.as_slice())?;
        }
        Ok(())
    }

    fn read(
        &self,
        state: &mut Run,
        f: &Activation,
        args: &[u16],
        wanted: Option<FlatResult>,
    ) -> Result<(), Stop>
        ensures { Passes result (view_run state.new) (read_act (view_choice self.now) (view_frame f.now) args.now wanted state.old.input.now (view_run state.old)) }
    {
        let [] = args else {
            return Err(Stop::Undefined(1));
        };
        match state.input {
            [] => self.give(state, f, wanted, &word_bytes(0xffff)),
            [byte, rest @ ..] => {
                state.input = rest;
                self.give(state, f, wanted, &word_bytes(u16::from(*byte)))
            }
        }
    }

    /// Has an effect of the machine.
    pub fn act(
        &self,
        state: &mut Run,
        f: &Activation,
        number: u16,
        args: &[u16],
        wanted: Option<FlatResult>,
    ) -> Result<(), Stop>
        requires { number < 5 }
        ensures { (again : Does) → Passes result (view_run state.new) (runtime_of (view_program self.now) (view_choice self.now) again number args.now wanted (view_frame f.now) (view_run state.old)) }
    {
        match number {
            0 => self.write(state, args),
            1 => self.read(state, f, args, wanted),
            2 => exit(args),
            3 => clear(args),
            _ => set_flag(state, args),
        }
    }
}

// Ends the run with a code.
fn exit(args: &[u16]) -> Result<(), Stop>
    ensures { (s : State) → Passes result s (end_act args.now s) }
{
    match args {
        [code] => Err(Stop::Ended((*code % 0x100) as u8)),
        _ => Err(Stop::Undefined(1)),
    }
}

// Clears the overlay buffer, which is no part of memory here.
fn clear(args: &[u16]) -> Result<(), Stop>
    ensures { (s : State) → Passes result s (clear_act args.now s) }
{
    match args {
        [] => Ok(()),
        _ => Err(Stop::Undefined(1)),
    }
}

fn set_flag(state: &mut Run, args: &[u16]) -> Result<(), Stop>
    ensures { Passes result (view_run state.new) (flag_act args.now (view_run state.old)) }
{
    match args {
        [] => {
            state.flag = true;
            Ok(())
        }
        _ => Err(Stop::Undefined(1)),
    }
}
