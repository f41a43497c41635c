//! Activations, and what becomes of them as routines are called.

ghost use Rattle.std.specs.Prelude.{◌≡◌, ◌∷◌, map, slice_get, Some, IfOk};
ghost use Rattle.std.specs.Option.{option_map};
ghost use Rattle.tp_meaning.specs.Activations.{callee_of, around, levels_around};
ghost use Rattle.tp_meaning.specs.Calls.{activation_of, is_too_deep};
ghost use Rattle.typed_tree.specs.Frames.{frame_of};
ghost use Rattle.interpreter_store.specs.cell_store.Views.{view_key};
ghost use Rattle.interpreter_store.specs.cell_store.Finding.{Finds};
ghost use Rattle.interpreter_effects.specs.activations.Views.{view_level, view_activation, view_callee};

use crate::activations::callee::Callee;
use crate::program_names::{stack_of, unit_named};
use interpreter_store::cell_store::{Key, Trap};
use interpreter_store::typed_cells::Reached;
use std::alloc::{AllocError, Global};
use typed_tree::{Program, Routine, Unit, frame_of};

/// A live activation: the number of its routine, the routine, and the serial number of its first variable.
#[derive(Clone, Copy)]
pub struct Level<'a> {
    pub number: u32,
    pub routine: &'a Routine,
    pub first: usize,
}

/// What a body runs in: its unit, its own activation and those of the routines round it, the places that the open `with`s
/// hold, the outermost first, and the sum of the frames of all live activations.
#[derive(Drop)]
pub struct Activation<'a> {
    pub unit: &'a Unit,
    pub levels: Vec<Level<'a>>,
    pub withs: Vec<Reached<'a>>,
    pub sum: u64,
}

fn callee_in(unit: &Unit, number: u32) -> Option<Callee<'_>>
    ensures { option_map view_callee result ≡ option_map (λ routine. record { unit = unit.now; number = number; routine = routine }) (slice_get unit.now.routines number) }
{
    match unit.routines.as_slice().get(number as usize) {
        None => None,
        Some(routine) => Some(Callee {
            unit,
            number,
            routine,
        }),
    }
}

/// The routine of a name.
pub fn callee_of<'a>(program: &'a Program, key: &Key) -> Result<Callee<'a>, Trap>
    ensures { Finds view_callee result (callee_of program.now (view_key key.now)) }
{
    match unit_named(program, &key.unit) {
        None => Err(Trap::IllTyped),
        Some(unit) => callee_in(unit, key.number).ok_or(Trap::IllTyped),
    }
}

fn around<'l, 'a>(outer: u32, levels: &'l [Level<'a>]) -> Result<&'l [Level<'a>], Trap>
    ensures { Finds (λ found. map view_level found.now) result (around outer (map view_level levels.now)) }
{
    match levels {
        [] => Err(Trap::IllTyped),
        [level, rest @ ..] => {
            if level.number == outer {
                Ok(levels)
            } else {
                around(outer, rest)
            }
        }
    }
}

// The activations of the routines round one, as they are reached from where it is called.
fn levels_around<'l, 'a>(
    outer: Option<u32>,
    levels: &'l [Level<'a>],
) -> Result<&'l [Level<'a>], Trap>
    ensures { Finds (λ found. map view_level found.now) result (levels_around outer (map view_level levels.now)) }
{
    match outer {
        None => Ok(&levels[..0]),
        Some(outer) => around(outer, levels),
    }
}

fn levels_with<'a>(
    alloc: Global,
    level: Level<'a>,
    around: &[Level<'a>],
) -> Result<Vec<Level<'a>>, AllocError>
    ensures { IfOk result (λ levels. map view_level levels.items ≡ view_level level.entry ∷ map view_level around.now) }
{
    let mut levels = Vec::new(alloc);
    levels.push(level)?;
    levels.extend_from_slice(around)?;
    Ok(levels)
}

impl<'a> Callee<'a> {
    // The bytes of its frame. A frame that passes 64 bits is answered as out of memory.
    #[tactic(auto, using(crate::proofs::activations::FrameSizes::frame_exact))]
    fn frame(&self) -> Result<u64, AllocError>
        ensures { IfOk result (λ bytes. bytes ≡ frame_of self.now.unit.now.types.types self.now.routine.now) }
    {
        let frame = frame_of(self.unit, self.number);
        if frame == u64::MAX {
            return Err(AllocError);
        }
        Ok(frame)
    }

    /// Whether its activation would leave less than 512 bytes of the stack.
    pub fn is_too_deep(&self, program: &Program, sum: u64) -> Result<bool, AllocError>
        ensures { IfOk result (λ deep. deep ≡ is_too_deep program.now (view_callee self.now) sum) }
    {
        let frame = self.frame()?;
        let depth = sum.checked_add(frame).ok_or(AllocError)?;
        let end = depth.checked_add(512).ok_or(AllocError)?;
        Ok(stack_of(program) < end)
    }

    /// Its activation, where it is called in `f` and its first variable has a serial number.
    pub fn activation(
        &self,
        alloc: Global,
        f: &Activation<'a>,
        around: &[Level<'a>],
        first: usize,
    ) -> Result<Activation<'a>, AllocError>
        ensures { IfOk result (λ g. view_activation g ≡ activation_of (view_callee self.now) (map view_level around.now) first f.now.sum) }
    {
        let level = Level {
            number: self.number,
            routine: self.routine,
            first,
        };
        let levels = levels_with(alloc, level, around)?;
        let sum = f.sum.checked_add(self.frame()?).ok_or(AllocError)?;
        Ok(Activation {
            unit: self.unit,
            levels,
            withs: Vec::new(alloc),
            sum,
        })
    }
}

impl<'a> Activation<'a> {
    /// The activations of the routines round one that is called here.
    pub fn levels_around(&self, outer: Option<u32>) -> Result<&[Level<'a>], Trap>
        ensures { Finds (λ found. map view_level found.now) result (levels_around outer (view_activation self.now).levels) }
    {
        levels_around(outer, self.levels.as_slice())
    }
}
