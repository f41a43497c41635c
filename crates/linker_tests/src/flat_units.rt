//! Flat units of rows.

use crate::rows::{RoutineRow, Step, UnitRow};
use flat_code::{
    Address, FlatDatum, FlatExpr, FlatList, FlatOp, FlatRoutine, FlatStmt, FlatUnit, FlatVmt,
};
use std::alloc::{AllocError, Global};
use type_layout::{Bytes, Name, Names, RoutineId, Sequence};

/// The bytes of locals that each routine has: a far pointer at -6, and a word at -2.
const LOCALS: u32 = 6;

const DIGIT: Address = Address::Local(-2);

const POINTER: i32 = -6;

fn own_datum(number: u32, plus: u16) -> Address {
    Address::Global {
        unit: 0,
        number,
        plus,
    }
}

fn overlay_datum(number: u32) -> Address {
    Address::Global {
        unit: 1,
        number,
        plus: 0,
    }
}

fn set(to: Address, value: FlatExpr) -> FlatStmt {
    FlatStmt::StoreWord { to, value }
}

fn op(alloc: Global, op: FlatOp, a: FlatExpr, b: FlatExpr) -> Result<FlatExpr, AllocError> {
    let a = Box::new(alloc, a)?;
    let b = Box::new(alloc, b)?;
    Ok(FlatExpr::Op { op, a, b })
}

fn write(alloc: Global, at: Address, count: u16) -> Result<FlatStmt, AllocError> {
    Ok(FlatStmt::Runtime {
        number: 0,
        args: vec![in alloc;
            FlatExpr::Number(1),
            FlatExpr::SegmentOf(at),
            FlatExpr::AddressOf(at),
            FlatExpr::Number(count),
        ]?,
        result: None,
    })
}

fn exit(alloc: Global, code: FlatExpr) -> Result<FlatStmt, AllocError> {
    Ok(FlatStmt::Runtime {
        number: 2,
        args: vec![in alloc; code]?,
        result: None,
    })
}

fn call(unit: u32, number: u32, args: Vec<FlatExpr>) -> FlatStmt {
    FlatStmt::Call {
        routine: RoutineId { unit, number },
        args,
        result: None,
    }
}

/// The argument of a routine.
fn argument(routine: &RoutineRow) -> FlatExpr {
    FlatExpr::Word(Address::Local(if routine.far { 6 } else { 4 }))
}

/// Where the argument isn't 0, a call with one less, and else these statements.
fn call_down(
    alloc: Global,
    routine: &RoutineRow,
    unit: u32,
    number: u32,
    no: FlatList,
) -> Result<FlatStmt, AllocError> {
    let less = op(alloc, FlatOp::Sub, argument(routine), FlatExpr::Number(1))?;
    let down = call(unit, number, vec![in alloc; less]?);
    Ok(FlatStmt::If {
        test: argument(routine),
        yes: vec![in alloc; down]?,
        no,
    })
}

/// Calls a routine through the far pointer in the locals, so many bytes behind where that leads or itself.
fn call_at(alloc: Global, pointer: Address) -> FlatStmt {
    FlatStmt::CallThrough {
        pointer,
        args: Vec::new(alloc),
        result: None,
    }
}

fn push_calls_at(alloc: Global, body: &mut FlatList, step: Step) -> Result<(), AllocError> {
    match step {
        Step::CallThrough { unit, number } => {
            let to = Address::Local(POINTER);
            let routine = RoutineId { unit, number };
            body.push(FlatStmt::StoreRoutine { to, routine })?;
            body.push(call_at(alloc, to))?;
        }
        Step::CallVirtual { table } => {
            let table = FlatExpr::VmtOf {
                unit: 0,
                number: table,
            };
            body.push(set(Address::Local(POINTER), table))?;
            let segment = FlatExpr::SegmentOf(own_datum(0, 0));
            body.push(set(Address::Local(POINTER + 2), segment))?;
            let slot = Address::Through {
                slot: POINTER,
                plus: 4,
            };
            body.push(call_at(alloc, slot))?;
        }
        _ => {}
    }
    Ok(())
}

/// Lets the far pointer in the locals lead to the last paragraph of the heap, which has so many before it.
fn push_heap_pointer(
    alloc: Global,
    body: &mut FlatList,
    paragraphs: u16,
) -> Result<Address, AllocError> {
    let heap = FlatExpr::Word(overlay_datum(1));
    let segment = op(alloc, FlatOp::Add, heap, FlatExpr::Number(paragraphs))?;
    body.push(set(Address::Local(POINTER), FlatExpr::Number(0)))?;
    body.push(set(Address::Local(POINTER + 2), segment))?;
    Ok(Address::Through {
        slot: POINTER,
        plus: 14,
    })
}

fn push_runtime(alloc: Global, body: &mut FlatList, step: Step) -> Result<(), AllocError> {
    match step {
        Step::OvrInit => {
            let name = own_datum(1, 0);
            let args = vec![in alloc; FlatExpr::SegmentOf(name), FlatExpr::AddressOf(name)]?;
            body.push(FlatStmt::Runtime {
                number: 768,
                args,
                result: None,
            })?;
        }
        Step::OvrClearBuf => body.push(FlatStmt::Runtime {
            number: 770,
            args: Vec::new(alloc),
            result: None,
        })?,
        Step::FillHeap { paragraphs, value } => {
            let last = push_heap_pointer(alloc, body, paragraphs)?;
            body.push(set(last, FlatExpr::Number(value)))?;
        }
        Step::ExitHeap { paragraphs } => {
            let last = push_heap_pointer(alloc, body, paragraphs)?;
            body.push(exit(alloc, FlatExpr::Word(last))?)?;
        }
        Step::ExitResult => body.push(exit(alloc, FlatExpr::Word(overlay_datum(0)))?)?,
        _ => {}
    }
    Ok(())
}

fn push_step(
    alloc: Global,
    body: &mut FlatList,
    routine: &RoutineRow,
    step: Step,
) -> Result<(), AllocError> {
    match step {
        Step::Say { from, count } => body.push(write(alloc, own_datum(0, from), count)?)?,
        Step::SayArgument => {
            let digit = op(alloc, FlatOp::Add, argument(routine), FlatExpr::Number(48))?;
            body.push(set(DIGIT, digit))?;
            body.push(write(alloc, DIGIT, 1)?)?;
        }
        Step::Call { unit, number } => body.push(call(unit, number, Vec::new(alloc)))?,
        Step::CallWith {
            unit,
            number,
            value,
        } => {
            let args = vec![in alloc; FlatExpr::Number(value)]?;
            body.push(call(unit, number, args))?;
        }
        Step::CallDown {
            unit,
            number,
            other,
            least,
        } => {
            let no = vec![in alloc; call(other, least, Vec::new(alloc))]?;
            body.push(call_down(alloc, routine, unit, number, no)?)?;
        }
        Step::CallLess { unit, number } => {
            body.push(call_down(alloc, routine, unit, number, Vec::new(alloc))?)?;
        }
        Step::CallThrough { .. } | Step::CallVirtual { .. } => push_calls_at(alloc, body, step)?,
        _ => push_runtime(alloc, body, step)?,
    }
    Ok(())
}

fn flat_routine(alloc: Global, row: &RoutineRow) -> Result<FlatRoutine, AllocError> {
    let mut body = Vec::new(alloc);
    for step in row.steps {
        push_step(alloc, &mut body, row, *step)?;
    }
    let arguments = if row.has_argument { 2 } else { 0 };
    Ok(FlatRoutine {
        name: Name::new(b"R").ok_or(AllocError)?,
        far: row.far,
        arguments,
        locals: LOCALS,
        frame: arguments + LOCALS + if row.far { 6 } else { 4 },
        result: None,
        body,
    })
}

/// A datum that begins with these bytes, of this size at least.
fn datum(alloc: Global, bytes: &[u8], least: u32) -> Result<FlatDatum, AllocError> {
    Ok(FlatDatum {
        size: least.max(bytes.len().min(0xFFFF) as u32),
        first: Bytes::from_slice(alloc, bytes)?,
    })
}

/// The string of a file's name.
fn file_datum(alloc: Global, name: &[u8]) -> Result<FlatDatum, AllocError> {
    let mut string = Vec::new(alloc);
    string.push(name.len().min(0xFF) as u8)?;
    string.extend_from_slice(name)?;
    datum(alloc, string.as_slice(), 0)
}

fn table(alloc: Global, unit: u32, number: u32) -> Result<FlatVmt, AllocError> {
    let mut slots = Sequence::new(alloc);
    slots.push(RoutineId { unit, number })?;
    Ok(FlatVmt { size: 2, slots })
}

/// The flat unit of a row.
pub fn flat_unit(alloc: Global, row: &UnitRow) -> Result<FlatUnit, AllocError> {
    let mut names = Names::new(alloc);
    for name in row.names {
        names.push(Name::new(name).ok_or(AllocError)?)?;
    }
    let mut routines = Sequence::new(alloc);
    for routine in row.routines {
        routines.push(flat_routine(alloc, routine)?)?;
    }
    let mut globals = Sequence::new(alloc);
    globals.push(datum(alloc, row.text, row.size)?)?;
    globals.push(file_datum(alloc, row.file)?)?;
    let mut vmts = Sequence::new(alloc);
    for (unit, number) in row.tables {
        vmts.push(table(alloc, *unit, *number)?)?;
    }
    Ok(FlatUnit {
        names,
        routines,
        globals,
        vmts,
        initial: if row.starts { Some(0) } else { None },
    })
}
