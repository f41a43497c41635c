//! The kernel as an object unit.

ghost use Rattle.std.specs.Prelude.{◌≡◌, IfOk, codes};
ghost use Rattle.kernel_code.specs.Kernel.{text_datum, flag_datum, kernel_of};

use crate::errors::{error_bytes, error_routine};
use crate::initial::Initial;
use crate::lines::known_name;
use crate::services::{clear_routine, flag_routine};
use crate::start::start_routine;
use object_file::object_unit::{Codes, Datum, ObjectData, ObjectUnit, Refs};
use std::alloc::{AllocError, Global};
use type_layout::{Bytes, Name};

/// The kernel's name: no unit of a program has it.
pub fn kernel_name() -> Name
    ensures { result ≡ codes "SYSTEM" }
{
    known_name(b"SYSTEM")
}

/// The text of the error routine.
fn text_datum(alloc: Global) -> Result<Datum, AllocError>
    ensures { IfOk result (λ datum. datum ≡ text_datum) }
{
    Ok(Datum {
        size: 21,
        first: error_bytes(alloc)?,
        refs: Refs::new(alloc),
    })
}

/// The byte of the installed flag.
fn flag_datum(alloc: Global) -> Datum
    ensures { result ≡ flag_datum }
{
    Datum {
        size: 1,
        first: Bytes::new(alloc),
        refs: Refs::new(alloc),
    }
}

/// The kernel of a program that begins with these routines, one after another: the start, the error routine, the one that
/// clears the overlay buffer, and the one that sets the installed flag. Its data are the error's text and the flag. Without
/// overlaid units the routine that clears the buffer does nothing.
pub fn kernel_unit(
    alloc: Global,
    name: &Name,
    initials: &[Initial],
    has_overlays: bool,
) -> Result<ObjectUnit, AllocError>
    ensures { IfOk result (λ unit. unit ≡ kernel_of name.now initials.now has_overlays) }
{
    let mut routines = Codes::new(alloc);
    routines.push(start_routine(alloc, name, initials)?)?;
    routines.push(error_routine(alloc, name)?)?;
    routines.push(clear_routine(alloc, has_overlays)?)?;
    routines.push(flag_routine(alloc, name)?)?;
    let mut globals = ObjectData::new(alloc);
    globals.push(text_datum(alloc)?)?;
    globals.push(flag_datum(alloc))?;
    Ok(ObjectUnit {
        globals,
        vmts: ObjectData::new(alloc),
        routines,
    })
}
