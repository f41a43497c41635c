//! Code of the kernel, from instructions and lines.

ghost use Rattle.std.specs.Prelude.{◌≡◌, IfOk};
ghost use Rattle.type_layout.specs.Words.{IsName};
ghost use Rattle.x86_table.specs.Lines.{assembled};
ghost use Rattle.kernel_code.specs.Parts.{encoded, reference, routine};

use object_file::object_unit::{Code8086, Ref, RefKind, Refs};
use std::alloc::{AllocError, Global};
use type_layout::{Bytes, Name};
use x86_table::{CodeBytes, Instr, Line, assemble, is_small};

/// A name that is known to be one.
pub(crate) fn known_name(text: &[u8]) -> Name
    requires { IsName text.now }
    ensures { result ≡ text.now }
{
    match Name::new(text) {
        Some(name) => name,
        None => unreachable!(),
    }
}

/// Instructions, one after another, as bytes.
pub(crate) fn encoded(alloc: Global, code: &[Instr]) -> Result<Bytes, AllocError>
    ensures { IfOk result (λ bytes. bytes ≡ encoded code.now) }
{
    let mut bytes = CodeBytes::new(alloc);
    for instr in code {
        bytes.push_instr(instr)?;
    }
    Ok(Bytes::from_vec(bytes.into_vec()))
}

/// Lines with labels, as bytes; fails where they are too many or a short jump doesn't reach, which those of the kernel
/// never are.
pub(crate) fn assembled(alloc: Global, lines: &[Line]) -> Result<Bytes, AllocError>
    ensures { IfOk result (λ bytes. bytes ≡ assembled lines.now) }
{
    if !is_small(lines) {
        return Err(AllocError);
    }
    match assemble(alloc, lines) {
        Ok(code) => Ok(Bytes::from_vec(code.bytes.into_vec())),
        Err(_) => Err(AllocError),
    }
}

/// A reference to a part.
pub(crate) fn reference(offset: u32, kind: RefKind, unit: &Name, number: u32) -> Ref
    ensures { result ≡ reference offset kind unit.now number }
{
    Ref {
        offset,
        kind,
        unit: unit.copied(),
        number,
    }
}

/// A far routine, which takes no room on the stack that is counted.
pub(crate) fn routine(name: Name, code: Bytes, refs: Refs) -> Code8086
    ensures { result ≡ routine name code refs }
{
    Code8086 {
        name,
        far: true,
        frame: 0,
        code,
        refs,
    }
}
