//! The main part of a program that has no other unit, and its memory.

ghost use Rattle.std.specs.Prelude.{◌≡◌, ◌<◌, ◌≤◌, length, slice_get, Some, IfSome};
ghost use Rattle.std.specs.Option.{option_map};
ghost use Rattle.tp_meaning.specs.Programs.{heap_by, main_unit, stack_by};
ghost use Rattle.literal_programs.specs.Reading.{has_room, is_plain, main_part, only_unit};

use crate::literal_code::Memory;
use typed_tree::{Program, Routine, Unit, frame_of};

/// The bytes that are left of the stack behind the main part's frame.
const STACK_REST: u64 = 512;

/// The most bytes that a stack may have.
const MOST_STACK: u32 = 65_520;

/// The most bytes of a heap that a program gets.
const MOST_HEAP: u32 = 196_608;

/// The unit of a program that has no other and overlays nothing.
pub fn only_unit(program: &Program) -> Option<&Unit>
    ensures value { option_map (λ unit. unit.now) result ≡ only_unit program.now }
    ensures main { IfSome result (λ unit. main_unit program.now ≡ Some unit.now) }
{
    match program.units.as_slice() {
        [unit] if program.start == 0 && unit.overlaid.is_empty() => Some(unit),
        _ => None,
    }
}

/// Whether a routine has no parameters, no result, and no owner or routine round it.
fn is_plain(routine: &Routine) -> bool
    ensures { result ≡ is_plain routine.now }
{
    routine.header.params.is_empty()
        && routine.header.result.is_none()
        && routine.owner.is_none()
        && routine.outer.is_none()
}

/// The bytes of a stack, of which an odd number counts one more.
fn stack_of(unit: &Unit) -> u32
    requires { unit.now.stack ≤ 65520 }
    ensures value { result ≡ stack_by (Some unit.now) }
    ensures small { result ≤ 65520 }
{
    unit.stack + unit.stack % 2
}

/// Whether the stack has room for the frame of a routine, and for what must be left of it.
fn has_room(unit: &Unit, number: u32) -> bool
    requires { number < length unit.now.routines }
    ensures { option_map (has_room unit.now) (slice_get unit.now.routines number) ≡ Some result }
{
    unit.stack <= MOST_STACK
        && frame_of(unit, number).saturating_add(STACK_REST) <= u64::from(stack_of(unit))
}

/// The main part of a unit.
pub fn main_part(unit: &Unit) -> Option<&Routine>
    ensures value { option_map (λ routine. routine.now) result ≡ main_part unit.now }
    ensures small { IfSome result (λ routine. unit.now.stack ≤ 65520) }
{
    let number = unit.initial?;
    let routine = unit.routines.as_slice().get(number as usize)?;
    if is_plain(routine) && has_room(unit, number) {
        Some(routine)
    } else {
        None
    }
}

/// The memory of a program that begins with this unit.
pub fn memory_of(unit: &Unit) -> Memory
    requires { unit.now.stack ≤ 65520 }
    ensures stack { result.stack ≡ stack_by (Some unit.now) }
    ensures heap { result.heap ≡ heap_by (Some unit.now) }
    ensures small_stack { result.stack ≤ 65520 }
    ensures small_heap { result.heap ≤ 196608 }
{
    Memory {
        stack: stack_of(unit) as u16,
        heap: unit.heap.min(MOST_HEAP),
    }
}
