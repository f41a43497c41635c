//! Reading a unit file.

ghost use Rattle.std.specs.Prelude.{◌≡◌, ◌==◌, ◌-◌, Ok, IfOk};
ghost use Rattle.object_file.specs.file_parts.Parts.{Gives as PartGives, ruled, each, list_of, name_at, word_at, long_at, option_at};
ghost use Rattle.unit_file.specs.interface_file.Reading.{interface_at};
ghost use Rattle.unit_file.specs.declared.unit.UnitRecord.{UnitRecord};
ghost use Rattle.unit_file.specs.Format.{IsUnit, spelling};
ghost use Rattle.unit_file.specs.Reading.{letter, is_version, front_at, is_stack, is_heap, globals_asked, routines_asked, most, is_start, code_at, tail_at, unit_at, unit_of, reading, Gives};
ghost use Rattle.unit_file.specs.declared.error.UnitFileError.{UnitFileError};

use crate::error::UnitFileError;
use crate::interface_file::interface_of;
use crate::tail::Tail;
use crate::unit::{Interfaces, UnitRecord};
use object_file::file_parts::{
    PartError, byte_of, damaged, long_of, name_of, option_of, truth_of, word_of,
};
use object_file::object_of;
use object_file::object_unit::ObjectUnit;
use std::alloc::Global;
use type_layout::Names;
use typed_tree::Item;
use unit_interface::Interface;

/// The bytes behind this one.
fn behind_letter(code: u8, bytes: &[u8]) -> Result<(u8, &[u8]), PartError>
    ensures { PartGives (λ x. (x.0, x.1.now)) result (letter code bytes.now) }
{
    let (byte, rest) = byte_of(bytes)?;
    if byte != code {
        return damaged(bytes.len());
    }
    Ok((byte, rest))
}

fn version_of(bytes: &[u8]) -> Result<(u16, &[u8]), PartError>
    ensures { PartGives (λ x. (x.0, x.1.now)) result (ruled is_version word_at bytes.now) }
{
    let (version, rest) = word_of(bytes)?;
    if version < 1 || version > 2 {
        return damaged(bytes.len());
    }
    Ok((version, rest))
}

/// The version, and the bytes behind the four letters and it.
#[tactic(auto, unfolding(crate::specs::Reading::front_at))]
fn front_of(bytes: &[u8]) -> Result<(u16, &[u8]), PartError>
    ensures { PartGives (λ x. (x.0, x.1.now)) result (front_at bytes.now) }
{
    let (_, rest) = behind_letter(b'T', bytes)?;
    let (_, rest) = behind_letter(b'P', rest)?;
    let (_, rest) = behind_letter(b'W', rest)?;
    let (_, rest) = behind_letter(b'1', rest)?;
    version_of(rest)
}

fn stack_of(bytes: &[u8]) -> Result<(u32, &[u8]), PartError>
    ensures { PartGives (λ x. (x.0, x.1.now)) result (ruled is_stack long_at bytes.now) }
{
    let (stack, rest) = long_of(bytes)?;
    if stack < 1024 || stack > 65_520 {
        return damaged(bytes.len());
    }
    Ok((stack, rest))
}

fn heap_of(bytes: &[u8]) -> Result<(u32, &[u8]), PartError>
    ensures { PartGives (λ x. (x.0, x.1.now)) result (ruled is_heap long_at bytes.now) }
{
    let (heap, rest) = long_of(bytes)?;
    if heap > 196_608 {
        return damaged(bytes.len());
    }
    Ok((heap, rest))
}

fn names_in_turn(alloc: Global, left: u32, bytes: &[u8]) -> Result<(Names, &[u8]), PartError>
    ensures { PartGives (λ x. (x.0, x.1.now)) result (each name_at left bytes.now) }
{
    let mut names = Names::new(alloc);
    let mut rest = bytes;
    for _ in 0..left {
        let (name, after) = name_of(rest)?;
        names.push(name)?;
        rest = after;
    }
    Ok((names, rest))
}

fn names_of(alloc: Global, bytes: &[u8]) -> Result<(Names, &[u8]), PartError>
    ensures { PartGives (λ x. (x.0, x.1.now)) result (list_of name_at bytes.now) }
{
    let (left, rest) = long_of(bytes)?;
    names_in_turn(alloc, left, rest)
}

fn imports_in_turn(alloc: Global, left: u32, bytes: &[u8]) -> Result<(Interfaces, &[u8]), PartError>
    ensures { PartGives (λ x. (x.0, x.1.now)) result (each interface_at left bytes.now) }
{
    let mut imports = Interfaces::new(alloc);
    let mut rest = bytes;
    for _ in 0..left {
        let (import, after) = interface_of(alloc, rest)?;
        imports.push(import)?;
        rest = after;
    }
    Ok((imports, rest))
}

fn imports_of(alloc: Global, bytes: &[u8]) -> Result<(Interfaces, &[u8]), PartError>
    ensures { PartGives (λ x. (x.0, x.1.now)) result (list_of interface_at bytes.now) }
{
    let (left, rest) = long_of(bytes)?;
    imports_in_turn(alloc, left, rest)
}

/// How many globals an item asks for.
fn globals_asked(item: &Item) -> usize
    ensures { result ≡ globals_asked item.now }
{
    match item {
        Item::Var { number, .. } => *number as usize + 1,
        _ => 0,
    }
}

/// How many routines an item asks for.
fn routines_asked(item: &Item) -> usize
    ensures { result ≡ routines_asked item.now }
{
    match item {
        Item::Code { number, .. } => *number as usize + 1,
        _ => 0,
    }
}

fn most_globals(items: &[Item]) -> usize
    ensures { result ≡ most globals_asked items.now }
{
    let mut most = 0;
    for item in items {
        most = globals_asked(item).max(most);
    }
    most
}

fn most_routines(items: &[Item]) -> usize
    ensures { result ≡ most routines_asked items.now }
{
    let mut most = 0;
    for item in items {
        most = routines_asked(item).max(most);
    }
    most
}

fn is_start(program: bool, object: &ObjectUnit, start: Option<u32>) -> bool
    ensures { result ≡ is_start program object.now start }
{
    match start {
        None => !program,
        Some(number) => (number as usize) < object.routines.len(),
    }
}

fn start_of<'a>(
    program: bool,
    object: &ObjectUnit,
    bytes: &'a [u8],
) -> Result<(Option<u32>, &'a [u8]), PartError>
    ensures { PartGives (λ x. (x.0, x.1.now)) result (ruled (is_start program object.now) option_at bytes.now) }
{
    let (start, rest) = option_of(bytes)?;
    if !is_start(program, object, start) {
        return damaged(bytes.len());
    }
    Ok((start, rest))
}

/// The object unit that the interface asks for, and the start.
#[tactic(auto, unfolding(crate::specs::Reading::code_at))]
fn code_of<'a>(
    alloc: Global,
    program: bool,
    interface: &Interface,
    bytes: &'a [u8],
) -> Result<((ObjectUnit, Option<u32>), &'a [u8]), PartError>
    ensures { PartGives (λ x. ((x.0.0, x.0.1), x.1.now)) result (code_at program interface.now bytes.now) }
{
    let items = interface.items.as_slice();
    let (object, rest) = object_of(alloc, most_globals(items), most_routines(items), bytes)?;
    let (start, rest) = start_of(program, &object, rest)?;
    Ok(((object, start), rest))
}

#[tactic(auto, unfolding(crate::specs::Reading::tail_at))]
fn tail_of<'a>(
    alloc: Global,
    program: bool,
    interface: &Interface,
    bytes: &'a [u8],
) -> Result<(Tail, &'a [u8]), PartError>
    ensures { PartGives (λ x. (x.0, x.1.now)) result (tail_at program interface.now bytes.now) }
{
    let (overlaid, rest) = names_of(alloc, bytes)?;
    let (stack, rest) = stack_of(rest)?;
    let (heap, rest) = heap_of(rest)?;
    let (imports, rest) = imports_of(alloc, rest)?;
    let ((object, start), rest) = code_of(alloc, program, interface, rest)?;
    let tail = Tail {
        overlaid,
        stack,
        heap,
        imports,
        object,
        start,
    };
    Ok((tail, rest))
}

fn unit_with(
    version: u16,
    program: bool,
    overlayable: bool,
    interface: Interface,
    tail: Tail,
) -> UnitRecord
    ensures { result ≡ unit_of (version, (program, (overlayable, (interface, tail)))) }
{
    UnitRecord {
        version,
        name: interface.name.copied(),
        program,
        overlayable,
        interface,
        overlaid: tail.overlaid,
        stack: tail.stack,
        heap: tail.heap,
        imports: tail.imports,
        object: tail.object,
        start: tail.start,
    }
}

#[tactic(auto, unfolding(crate::specs::Reading::unit_at))]
fn unit_of(alloc: Global, bytes: &[u8]) -> Result<(UnitRecord, &[u8]), PartError>
    ensures { PartGives (λ x. (x.0, x.1.now)) result (unit_at bytes.now) }
{
    let (version, rest) = front_of(bytes)?;
    let (program, rest) = truth_of(rest)?;
    let (overlayable, rest) = truth_of(rest)?;
    let (interface, rest) = interface_of(alloc, rest)?;
    let (tail, rest) = tail_of(alloc, program, &interface, rest)?;
    let unit = unit_with(version, program, overlayable, interface, tail);
    Ok((unit, rest))
}

/// Damage where so many bytes of a file of this size are left.
fn damaged_with(size: usize, left: usize) -> UnitFileError
    ensures { result ≡ UnitFileError.Damaged (size - left) }
{
    let at = size.saturating_sub(left) as u64;
    UnitFileError::Damaged { at }
}

#[tactic(auto, unfolding(crate::specs::Reading::reading))]
fn whole(alloc: Global, bytes: &[u8]) -> Result<UnitRecord, UnitFileError>
    ensures { Gives result (reading bytes.now) }
{
    match unit_of(alloc, bytes) {
        Ok((unit, [])) => Ok(unit),
        Ok((_, rest)) => Err(damaged_with(bytes.len(), rest.len())),
        Err(PartError::Damaged { left }) => Err(damaged_with(bytes.len(), left)),
        Err(PartError::NoMemory) => Err(UnitFileError::NoMemory),
    }
}

/// The unit of a unit file. `Damaged` comes exactly where the bytes are no unit file, at the first part that breaks a rule
/// given the parts before it.
pub fn read_unit(alloc: Global, bytes: &[u8]) -> Result<UnitRecord, UnitFileError>
    // What is read is spelled so, each byte of it.
    ensures found { IfOk result (λ unit. IsUnit unit × (bytes.now ≡ spelling unit)) }
    // What is spelled so is read, unless memory runs out.
    ensures only { (unit : UnitRecord) → IsUnit unit → bytes.now ≡ spelling unit → Gives result (Ok unit) }
    // What the parts in their order give: the unit, or the place of damage.
    ensures exact { Gives result (reading bytes.now) }
{
    whole(alloc, bytes)
}
