//! Units by their names, and what the program itself says.

ghost use Rattle.std.specs.Prelude.{◌≡◌, ◌++◌, map, codes, IfOk};
ghost use Rattle.std.specs.Option.{option_map, option_copied};
ghost use Rattle.tp_meaning.specs.Programs.{unit_in, unit_named, main_unit, overlaid, is_overlaid, stack_of, heap_of, key_of, routine_key, is_overlay, overlay_file};
ghost use Rattle.tp_meaning.specs.Calls.{is_file};
ghost use Rattle.common_values.specs.Strings.{upper as upper_of};
ghost use Rattle.typed_tree.specs.declared.units.Unit.{Unit as TypedUnit};
ghost use Rattle.interpreter_store.specs.cell_store.Views.{view_key};

use common_values::strings::upper;
use interpreter_store::cell_store::Key;
use std::alloc::{AllocError, Global};
use type_layout::{Name, RoutineId};
use typed_tree::{Program, Unit};

// The heap's bytes at most.
const HEAP_LIMIT: u32 = 196_608;

fn unit_in<'a>(units: &'a [Unit], name: &Name) -> Option<&'a Unit>
    ensures { option_copied result ≡ unit_in units.now name.now }
{
    match units {
        [] => None,
        [unit, rest @ ..] => {
            if *name == unit.name {
                Some(unit)
            } else {
                unit_in(rest, name)
            }
        }
    }
}

/// The unit of a name.
pub fn unit_named<'a>(program: &'a Program, name: &Name) -> Option<&'a Unit>
    ensures { option_copied result ≡ unit_named program.now name.now }
{
    unit_in(program.units.as_slice(), name)
}

fn main_unit(program: &Program) -> Option<&Unit>
    ensures { option_copied result ≡ main_unit program.now }
{
    program.units.as_slice().get(program.start as usize)
}

fn overlaid(program: &Program) -> &[Name]
    ensures { result.now ≡ overlaid program.now }
{
    match main_unit(program) {
        None => &[],
        Some(unit) => unit.overlaid.as_slice(),
    }
}

/// Whether a unit is overlaid.
pub fn is_overlaid(program: &Program, name: &Name) -> bool
    ensures { result ≡ is_overlaid program.now name.now }
{
    overlaid(program).iter().any(|other| *name == *other)
}

/// The stack's bytes, an odd number of them counted one up.
pub fn stack_of(program: &Program) -> u64
    ensures { result ≡ stack_of program.now }
{
    match main_unit(program) {
        None => 0,
        Some(unit) => u64::from(unit.stack) + u64::from(unit.stack % 2),
    }
}

/// The heap's bytes, which are at most 196,608.
pub fn heap_of(program: &Program) -> u32
    ensures { result ≡ heap_of program.now }
{
    match main_unit(program) {
        None => 0,
        Some(unit) => unit.heap.min(HEAP_LIMIT),
    }
}

/// What a place among the names of a unit names.
pub fn key_of(unit: &Unit, place: u32, number: u32) -> Option<Key>
    ensures { option_map view_key result ≡ key_of unit.now place number }
{
    match unit.names.as_slice().get(place as usize) {
        None => None,
        Some(name) => Some(Key {
            unit: name.copied(),
            number,
        }),
    }
}

/// The routine of an id in a unit.
pub fn routine_key(unit: &Unit, routine: RoutineId) -> Option<Key>
    ensures { option_map view_key result ≡ routine_key unit.now routine }
{
    key_of(unit, routine.unit, routine.number)
}

/// Whether a unit is the unit Overlay, which no source has.
pub fn is_overlay(name: &Name) -> bool
    ensures { result ≡ is_overlay name.now }
{
    name.as_bytes() == b"OVERLAY".as_slice()
}

// The name of the file of a unit's overlays.
fn file_name(alloc: Global, unit: &Unit) -> Result<Vec<u8>, AllocError>
    ensures { IfOk result (λ name. name.items ≡ unit.now.name ++ codes ".OVR") }
{
    let mut name = Vec::from_slice(alloc, unit.name.as_bytes())?;
    name.extend_from_slice(b".OVR")?;
    Ok(name)
}

fn in_upper_case(alloc: Global, text: &[u8]) -> Result<Vec<u8>, AllocError>
    ensures { IfOk result (λ raised. raised.items ≡ map upper_of text.now) }
{
    let mut raised = Vec::new(alloc);
    'bytes: for byte in text {
        raised.push(upper(*byte))?;
    }
    Ok(raised)
}

fn names_file(alloc: Global, unit: Option<&Unit>, text: &[u8]) -> Result<bool, AllocError>
    ensures { IfOk result (λ names. names ≡ is_file (option_map (λ (unit : TypedUnit). unit.name ++ codes ".OVR") (option_copied unit.entry)) text.now) }
{
    let Some(unit) = unit else {
        return Ok(false);
    };
    let name = file_name(alloc, unit)?;
    let raised = in_upper_case(alloc, text)?;
    Ok(name.as_slice() == raised.as_slice())
}

/// Whether a text names the overlay file of the program, in capitals or not. A program without overlaid units has none.
pub fn is_overlay_file(alloc: Global, program: &Program, text: &[u8]) -> Result<bool, AllocError>
    ensures { IfOk result (λ names. names ≡ is_file (overlay_file program.now) text.now) }
{
    match overlaid(program) {
        [] => Ok(false),
        [..] => names_file(alloc, main_unit(program), text),
    }
}
