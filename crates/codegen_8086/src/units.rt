//! The object unit of a flat unit.

ghost use Rattle.std.specs.Prelude.{◌≡◌, ◌<◌, ◌≤◌, ◌++◌, ◌∷◌, [], length, IsTrue, IfOk, IfErr, OnOk};
ghost use Rattle.x86_table.specs.Lines.{code_size};
ghost use Rattle.codegen_8086.specs.declared.error.GenError.TheVariants.{NoMemory};
ghost use Rattle.codegen_8086.specs.object_code.Objects.{has_short_arguments, IsLaidOut, ObjectFor, code_of};
ghost use Rattle.codegen_8086.specs.Causes.{IsCause};

use crate::error::GenError;
use crate::generate_code::Numbers;
use crate::layout::{Layout, assembled, lay_out, size_with};
use crate::object_data::{globals_of, vmts_of};
use flat_code::{FlatRoutine, FlatUnit};
use object_file::object_unit::{Codes, ObjectUnit};
use std::alloc::Global;
use type_layout::Name;

// Appends the code of a routine that is laid out, unless the code has too many bytes with it.
fn push_code(
    alloc: Global,
    names: &[Name],
    codes: &mut Codes,
    bytes: u64,
    routine: &FlatRoutine,
    layout: &Layout,
) -> Result<(), GenError>
    requires named { 0 < length names.now }
    requires laid { IsLaidOut layout.now.marked layout.now.lines }
    requires counted { code_size layout.now.lines ≤ bytes }
    ensures ok { bytes ≤ 65520 → OnOk result (codes.new ≡ codes.old ++ code_of names.now routine.now layout.now.marked layout.now.lines ∷ []) }
    ensures err { IfErr result (λ e. e ≡ NoMemory) }
{
    if bytes <= 65_520 {
        codes.push(assembled(alloc, names, routine, layout)?)?;
    }
    Ok(())
}

/// Whether each routine of a unit has fewer than 65,536 bytes of arguments.
pub fn has_short_arguments(unit: &FlatUnit) -> bool
    ensures { result ≡ has_short_arguments unit.now }
{
    unit.routines
        .as_slice()
        .iter()
        .all(|routine| routine.arguments < 0x1_0000)
}

/// The object unit of a unit that has a name and whose routines have fewer than 65,536 bytes of arguments: the code of its
/// routines, laid out with near jumps made short, with what it refers to; its data, and behind them a datum for each far
/// pointer that a statement stores; and its virtual method tables. `CodeTooLarge` where the code has more than 65,520 bytes.
pub fn generate(alloc: Global, unit: &FlatUnit) -> Result<ObjectUnit, GenError>
    requires named { 0 < length unit.now.names }
    requires arguments { IsTrue (has_short_arguments unit.now) }
    ensures object { IfOk result (ObjectFor unit.now) }
    ensures cause { IfErr result (IsCause unit.now) }
{
    let names = unit.names.as_slice();
    let mut numbers = Numbers::new(alloc, unit.routines.as_slice().len())?;
    let mut routines = Codes::new(alloc);
    let mut bytes = 0;
    for routine in unit.routines.as_slice() {
        let layout = lay_out(alloc, &mut numbers, unit, routine)?;
        bytes = size_with(bytes, layout.lines.as_slice())?;
        push_code(alloc, names, &mut routines, bytes, routine, &layout)?;
    }
    if bytes > 65_520 {
        return Err(GenError::CodeTooLarge { bytes });
    }
    Ok(ObjectUnit {
        globals: globals_of(alloc, unit, numbers.stored())?,
        vmts: vmts_of(alloc, unit)?,
        routines,
    })
}
