//! Globals: the variable of the unit Overlay is the first object, and then come those of the units in order.

ghost use Rattle.std.specs.Prelude.{◌≡◌, IfOk};
ghost use Rattle.std.specs.Option.{option_map};
ghost use Rattle.tp_meaning.specs.Programs.{globals_before, global_serial, global_in, global_sort};
ghost use Rattle.interpreter_store.specs.cell_store.Views.{view_key};
ghost use Rattle.interpreter_store.specs.typed_cells.Sorts.{view_sort};

use crate::program_names::sources::Sources;
use crate::program_names::units::{is_overlay, unit_named};
use interpreter_store::cell_store::Key;
use interpreter_store::typed_cells::Sort;
use std::alloc::AllocError;
use type_layout::Name;
use typed_tree::{Program, Unit};

// How many globals the units before one have. A number that passes 64 bits is answered as out of memory.
fn globals_before(units: &[Unit], name: &Name) -> Result<usize, AllocError>
    ensures { IfOk result (λ count. count ≡ globals_before units.now name.now) }
{
    match units {
        [] => Ok(0),
        [unit, rest @ ..] => {
            if *name == unit.name {
                return Ok(0);
            }
            let behind = globals_before(rest, name)?;
            unit.globals.len().checked_add(behind).ok_or(AllocError)
        }
    }
}

/// The serial number of a global.
pub fn global_serial(program: &Program, key: &Key) -> Result<usize, AllocError>
    ensures { IfOk result (λ serial. serial ≡ global_serial program.now (view_key key.now)) }
{
    if is_overlay(&key.unit) {
        return Ok(0);
    }
    let before = globals_before(program.units.as_slice(), &key.unit)?;
    let first = before.checked_add(1).ok_or(AllocError)?;
    first.checked_add(key.number as usize).ok_or(AllocError)
}

fn global_in<'a>(number: u32, unit: &'a Unit) -> Option<Sort<'a>>
    ensures { option_map view_sort result ≡ global_in number unit.now }
{
    match unit.globals.as_slice().get(number as usize) {
        None => None,
        Some(global) => Some(Sort::Of {
            types: &unit.types,
            ty: global.ty,
        }),
    }
}

impl<'a> Sources<'a> {
    /// The type of a global.
    pub fn global_sort(&self, key: &Key) -> Option<Sort<'a>>
        ensures { option_map view_sort result ≡ global_sort self.now.program.now (view_key key.now) }
    {
        if is_overlay(&key.unit) {
            return Some(Sort::Alone(self.integer));
        }
        match unit_named(self.program, &key.unit) {
            None => None,
            Some(unit) => global_in(key.number, unit),
        }
    }
}
