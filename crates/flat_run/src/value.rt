//! Places and values in an activation.

ghost use Rattle.std.specs.Prelude.{◌≡◌, ℕ, ◌/◌, ◌%◌, ◌≤◌, List, map, length};
ghost use Rattle.common_values.specs.integers.Words.{w16, word_of, signed_quotient, signed_remainder, wrapping_add};
ghost use Rattle.std.specs.Option.{option_copied};
ghost use Rattle.flat_code.specs.Memory.{cells_of};
ghost use Rattle.flat_code.specs.Program.{named};
ghost use Rattle.flat_code.specs.Meaning.{linked, op_of, truth, divided, datum_place, vmt_offset, routine_pointer, place_of, value_of};
ghost use Rattle.flat_code.specs.View.{view_expr};
ghost use Rattle.flat_code.specs.Plain.{view_unit, units_size, choice_of};
ghost use Rattle.flat_run.specs.Views.{view_frame};

use crate::memory::Memory;
use crate::program::{datum_of, far_of, vmt_of};
use common_values::integers::{
    high_product, is_signed_less, shifted_left, shifted_right, signed_quotient, signed_remainder,
};
use flat_code::{Address, FlatExpr, FlatOp, FlatUnit, Place, Trap};
use type_layout::Name;

/// The segments that the interpreter takes for data, stack and heap.
pub const DATA_SEGMENT: u16 = 0x1000;

pub const STACK_SEGMENT: u16 = 0x2000;

pub const HEAP_SEGMENT: u16 = 0x3000;

/// A live activation.
#[derive(Clone, Copy)]
pub struct Activation<'a> {
    /// What its unit is called.
    pub name: &'a [u8],
    /// The unit itself, and the units that it refers to.
    pub names: &'a [Name],
    pub bp: u16,
    /// The offset of its link word.
    pub link: u16,
    pub sp: u16,
    /// The sum of the frames of all that are live.
    pub sum: u32,
}

// The lower word of a distance.
fn low_word(distance: i32) -> u16
    ensures { result ≡ word_of w16 distance }
{
    (distance.cast_unsigned() % 0x1_0000) as u16
}

fn truth(holds: bool) -> u16
    ensures { result ≡ truth holds }
{
    u16::from(holds)
}

// The value of an operator.
fn op_of(op: FlatOp, x: u16, y: u16) -> Result<u16, Trap>
    ensures { result ≡ op_of op x y }
{
    match op {
        FlatOp::Add => Ok(x.wrapping_add(y)),
        FlatOp::Sub => Ok(x.wrapping_sub(y)),
        FlatOp::Mul => Ok(x.wrapping_mul(y)),
        FlatOp::MulHigh => Ok(high_product(x, y)),
        FlatOp::And => Ok(x & y),
        FlatOp::Or => Ok(x | y),
        FlatOp::Xor => Ok(x ^ y),
        FlatOp::Shl => Ok(shifted_left(x, u32::from(y % 0x100))),
        FlatOp::Shr => Ok(shifted_right(x, u32::from(y % 0x100))),
        FlatOp::Equal => Ok(truth(x == y)),
        FlatOp::Less => Ok(truth(is_signed_less(x, y))),
        FlatOp::Below => Ok(truth(x < y)),
        FlatOp::Div => signed_division(x, y),
        FlatOp::Mod => signed_rest(x, y),
        FlatOp::DivUnsigned => division(x, y),
        FlatOp::ModUnsigned => rest(x, y),
    }
}

fn signed_division(x: u16, y: u16) -> Result<u16, Trap>
    ensures { result ≡ divided y (signed_quotient w16 x y) }
{
    if y == 0 {
        return Err(Trap::ByZero);
    }
    Ok(signed_quotient(x, y))
}

fn signed_rest(x: u16, y: u16) -> Result<u16, Trap>
    ensures { result ≡ divided y (signed_remainder w16 x y) }
{
    if y == 0 {
        return Err(Trap::ByZero);
    }
    Ok(signed_remainder(x, y))
}

fn division(x: u16, y: u16) -> Result<u16, Trap>
    ensures { result ≡ divided y (x / y) }
{
    if y == 0 {
        return Err(Trap::ByZero);
    }
    Ok(x / y)
}

fn rest(x: u16, y: u16) -> Result<u16, Trap>
    ensures { result ≡ divided y (x % y) }
{
    if y == 0 {
        return Err(Trap::ByZero);
    }
    Ok(x % y)
}

/// The name of a unit by its place in the names of a unit, the first of which is the unit itself.
pub fn named<'a>(own: &'a [u8], names: &'a [Name], unit: u32) -> Option<&'a [u8]>
    ensures { option_copied result ≡ named own.now names.now unit }
{
    if unit == 0 {
        return Some(own);
    }
    let name = names.get(unit as usize)?;
    Some(name.as_bytes())
}

// So far from an offset in the stack.
fn stack_place(base: u16, distance: i32) -> Place
    ensures { result ≡ record { segment = 8192; offset = wrapping_add w16 base (word_of w16 distance) } }
{
    Place {
        segment: STACK_SEGMENT,
        offset: base.wrapping_add(low_word(distance)),
    }
}

// The offset of the link word to which so many links lead.
fn linked(units: &[FlatUnit], memory: &Memory, levels: u8, at: u16) -> Result<u16, Trap>
    ensures { result ≡ linked (choice_of (map view_unit units.now)) (cells_of memory.now.cells.items) levels at }
{
    if levels == 0 {
        return Ok(at);
    }
    let up = memory.word(Place {
        segment: STACK_SEGMENT,
        offset: at,
    })?;
    linked(units, memory, levels - 1, up)
}

// Where a datum lies.
fn datum_place(units: &[FlatUnit], f: &Activation, unit: u32, number: u32) -> Result<Place, Trap>
    requires few { length units.now ≤ 4096 }
    requires small { units_size (map view_unit units.now) ≤ 65520 }
    ensures { result ≡ datum_place (choice_of (map view_unit units.now)) (view_frame f.now) unit number }
{
    let name = named(f.name, f.names, unit).ok_or(Trap::Bad(2))?;
    let offset = datum_of(0, 0, units, name, number as usize).ok_or(Trap::Bad(2))?;
    Ok(Place {
        segment: DATA_SEGMENT,
        offset,
    })
}

// The offset of a virtual method table.
fn vmt_offset(units: &[FlatUnit], f: &Activation, unit: u32, number: u32) -> Result<u16, Trap>
    requires few { length units.now ≤ 4096 }
    requires small { units_size (map view_unit units.now) ≤ 65520 }
    ensures { result ≡ vmt_offset (choice_of (map view_unit units.now)) (view_frame f.now) unit number }
{
    let name = named(f.name, f.names, unit).ok_or(Trap::Bad(2))?;
    vmt_of(0, 0, units, name, number as usize).ok_or(Trap::Bad(2))
}

/// The far pointer to a routine.
pub fn routine_pointer(
    units: &[FlatUnit],
    f: &Activation,
    unit: u32,
    number: u32,
) -> Result<Place, Trap>
    requires few { length units.now ≤ 4096 }
    ensures { result ≡ routine_pointer (choice_of (map view_unit units.now)) (view_frame f.now) unit number }
{
    let name = named(f.name, f.names, unit).ok_or(Trap::Bad(2))?;
    far_of(0, units, name, number).ok_or(Trap::Bad(2))
}

/// The place of an address.
pub fn place_of(
    units: &[FlatUnit],
    f: &Activation,
    memory: &Memory,
    at: Address,
) -> Result<Place, Trap>
    requires few { length units.now ≤ 4096 }
    requires small { units_size (map view_unit units.now) ≤ 65520 }
    ensures { result ≡ place_of (choice_of (map view_unit units.now)) (view_frame f.now) (cells_of memory.now.cells.items) at }
{
    match at {
        Address::Global { unit, number, plus } => {
            Ok(datum_place(units, f, unit, number)?.after(plus))
        }
        Address::Local(at) => Ok(stack_place(f.bp, at)),
        Address::Outer { levels, at } => {
            let link = linked(units, memory, levels, f.link)?;
            Ok(stack_place(link, at))
        }
        Address::Through { slot, plus } => Ok(memory.far(stack_place(f.bp, slot))?.after(plus)),
    }
}

/// The value of an expression.
pub fn value_of(
    units: &[FlatUnit],
    f: &Activation,
    memory: &Memory,
    expr: &FlatExpr,
) -> Result<u16, Trap>
    requires few { length units.now ≤ 4096 }
    requires small { units_size (map view_unit units.now) ≤ 65520 }
    ensures { result ≡ value_of (choice_of (map view_unit units.now)) (view_frame f.now) (cells_of memory.now.cells.items) (view_expr expr.now) }
{
    match expr {
        FlatExpr::Number(n) => Ok(*n),
        FlatExpr::Byte(at) => {
            let place = place_of(units, f, memory, *at)?;
            Ok(u16::from(memory.byte(place, 0)?))
        }
        FlatExpr::Word(at) => memory.word(place_of(units, f, memory, *at)?),
        FlatExpr::AddressOf(at) => Ok(place_of(units, f, memory, *at)?.offset),
        FlatExpr::SegmentOf(at) => Ok(place_of(units, f, memory, *at)?.segment),
        FlatExpr::VmtOf { unit, number } => vmt_offset(units, f, *unit, *number),
        FlatExpr::Op { op, a, b } => {
            let x = value_of(units, f, memory, a)?;
            let y = value_of(units, f, memory, b)?;
            op_of(*op, x, y)
        }
    }
}
