//! The routines of two effects of the machine.

ghost use Rattle.std.specs.Prelude.{◌≡◌, IfOk};
ghost use Rattle.kernel_code.specs.Kernel.{clear_of, flag_of};

use crate::lines::{encoded, known_name, reference, routine};
use object_file::object_unit::{Code8086, RefKind, Refs};
use std::alloc::{AllocError, Global};
use type_layout::Name;
use x86_table::{ByteOperand, Immediate, Instr, Memory, Place};

/// The routine that clears the overlay buffer, by INT 60h. A program without overlays has no buffer, and under DOS no such
/// interrupt: there it only returns.
pub(crate) fn clear_routine(alloc: Global, has_overlays: bool) -> Result<Code8086, AllocError>
    ensures { IfOk result (λ code. code ≡ clear_of has_overlays) }
{
    let code = if has_overlays {
        encoded(alloc, &[Instr::Int(0x60), Instr::RetFar])?
    } else {
        encoded(alloc, &[Instr::RetFar])?
    };
    Ok(routine(known_name(b"CLEAR"), code, Refs::new(alloc)))
}

/// The routine that sets the installed flag, the kernel's second datum.
pub(crate) fn flag_routine(alloc: Global, kernel: &Name) -> Result<Code8086, AllocError>
    ensures { IfOk result (λ code. code ≡ flag_of kernel.now) }
{
    let flag = ByteOperand::Mem(Memory {
        segment: None,
        place: Place::Direct(0),
    });
    let set = Instr::MovImmediate(Immediate::Byte(flag, 1));
    let code = encoded(alloc, &[set, Instr::RetFar])?;
    let mut refs = Refs::new(alloc);
    refs.push(reference(2, RefKind::DataOffset, kernel, 1))?;
    Ok(routine(known_name(b"FLAG"), code, refs))
}
