//! One vector: the machine is set up, steps once and is compared.

ghost use Rattle.std.specs.Prelude.{◌<◌};

use crate::text::{read_cell, value_at, word};
use cpu_8086::{Event, Flag, Machine, Reg};

const REGISTERS: [Reg; 13] = [
    Reg::Ax,
    Reg::Cx,
    Reg::Dx,
    Reg::Bx,
    Reg::Sp,
    Reg::Bp,
    Reg::Si,
    Reg::Di,
    Reg::Es,
    Reg::Cs,
    Reg::Ss,
    Reg::Ds,
    Reg::Ip,
];

const FLAGS: [Flag; 5] = [
    Flag::Carry,
    Flag::Zero,
    Flag::Sign,
    Flag::Overflow,
    Flag::Direction,
];

/// The linear address of a byte of code.
fn code_address(cs: u16, ip: u16, distance: u16) -> u32
    ensures { result < 1048576 }
{
    (16 * u32::from(cs) + u32::from(ip.wrapping_add(distance))) % 0x10_0000
}

fn set_registers(machine: &mut Machine, registers: &str, flags: &str) {
    for (register, text) in REGISTERS.iter().zip(registers.split(' ')) {
        machine.set_reg(*register, word(text).unwrap_or(0));
    }
    for (flag, digit) in FLAGS.iter().zip(flags.bytes()) {
        machine.set_flag(*flag, digit == b'1');
    }
}

fn same_registers(machine: &Machine, registers: &str, flags: &str) -> bool {
    let mut same = true;
    for (register, text) in REGISTERS.iter().zip(registers.split(' ')) {
        same = same && word(text) == Some(machine.reg(*register));
    }
    for (flag, digit) in FLAGS.iter().zip(flags.bytes()) {
        same = same && machine.flag(*flag) == (digit == b'1');
    }
    same
}

fn set_cells(machine: &mut Machine, cells: &str) {
    for text in cells.split(',') {
        if let Some(found) = read_cell(text) {
            machine.set_byte(found.at, found.value);
        }
    }
}

/// Whether each of these bytes is as it was, or as the changes say; afterwards they are 0.
fn same_cells(machine: &mut Machine, cells: &str, changes: &str) -> bool {
    let mut same = true;
    for text in cells.split(',') {
        if let Some(found) = read_cell(text) {
            let want = value_at(changes, found.at).unwrap_or(found.value);
            same = same && machine.byte(found.at) == want;
            machine.set_byte(found.at, 0);
        }
    }
    same
}

/// The byte so far into a list of two digits each.
fn code_byte(code: &str, index: u16) -> Option<u8> {
    let start = 2 * usize::from(index);
    let digits = code.get(start..start + 2)?;
    u8::from_str_radix(digits, 16).ok()
}

fn set_code(machine: &mut Machine, code: &str, cs: u16, ip: u16) {
    for index in 0..8u16 {
        if let Some(byte) = code_byte(code, index) {
            machine.set_byte(code_address(cs, ip, index), byte);
        }
    }
}

fn same_code(machine: &mut Machine, code: &str, cs: u16, ip: u16, changes: &str) -> bool {
    let mut same = true;
    for index in 0..8u16 {
        if let Some(byte) = code_byte(code, index) {
            let at = code_address(cs, ip, index);
            let want = value_at(changes, at).unwrap_or(byte);
            same = same && machine.byte(at) == want;
            machine.set_byte(at, 0);
        }
    }
    same
}

fn same_event(event: Event, text: &str, cs: u16, ip: u16) -> bool {
    match event {
        Event::Ran => text == "Ran",
        Event::Divide => text == "Divide",
        Event::Unknown { cs: at, ip: offset } => text == "Unknown" && at == cs && offset == ip,
        Event::Service(number) => match text.split_once(' ') {
            Some(("Service", digits)) => digits.parse::<u8>().ok() == Some(number),
            _ => false,
        },
    }
}

/// Whether the machine does with a vector's instruction what the vector says.
fn compared(machine: &mut Machine, line: &str) -> Option<bool> {
    let mut fields = line.split('|');
    let _number = fields.next()?;
    let _row = fields.next()?;
    let code = fields.next()?;
    let registers = fields.next()?;
    let flags = fields.next()?;
    let cells = fields.next()?;
    let event = fields.next()?;
    let registers_after = fields.next()?;
    let flags_after = fields.next()?;
    let changes = fields.next()?;
    set_registers(machine, registers, flags);
    let cs = machine.reg(Reg::Cs);
    let ip = machine.reg(Reg::Ip);
    set_code(machine, code, cs, ip);
    set_cells(machine, cells);
    let event_same = same_event(machine.step(), event, cs, ip);
    let registers_same = same_registers(machine, registers_after, flags_after);
    let code_same = same_code(machine, code, cs, ip, changes);
    let cells_same = same_cells(machine, cells, changes);
    Some(event_same && registers_same && code_same && cells_same)
}

pub fn agrees(machine: &mut Machine, line: &str) -> bool {
    compared(machine, line).unwrap_or(false)
}
