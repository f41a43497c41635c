//! Executes a loop of register, memory, stack and jump instructions, so many steps long: to time the machine.
#![tactic(auto)]

use cpu_8086::{Event, Machine, Reg};
use std::{env, io};

/// MOV BX,200h, and in a loop from 3 on: MOV AX,[BX+SI]; ADD AX,CX; MOV [BX+SI],AX; PUSH AX; CALL 40h; POP DX; INC SI;
/// AND SI,FFh; CMP SI,0; JNE 3; INC CX; JMP 3.
const CODE: [u8; 27] = [
    0xbb, 0x00, 0x02, 0x8b, 0x00, 0x01, 0xc8, 0x89, 0x00, 0x50, 0xe8, 0x33, 0x00, 0x5a, 0x46, 0x81,
    0xe6, 0xff, 0x00, 0x83, 0xfe, 0x00, 0x75, 0xeb, 0x41, 0xeb, 0xe8,
];

/// At 40h: PUSH BP; MOV BP,SP; XOR AX,[BP+2]; POP BP; RET.
const ROUTINE: [u8; 8] = [0x55, 0x89, 0xe5, 0x33, 0x46, 0x02, 0x5d, 0xc3];

fn load(machine: &mut Machine) {
    for (at, byte) in CODE.iter().enumerate() {
        machine.set_byte(0x1000 + at as u32, *byte);
    }
    for (at, byte) in ROUTINE.iter().enumerate() {
        machine.set_byte(0x1040 + at as u32, *byte);
    }
    machine.set_reg(Reg::Cs, 0x100);
    machine.set_reg(Reg::Ds, 0x200);
    machine.set_reg(Reg::Ss, 0x300);
    machine.set_reg(Reg::Sp, 0x1000);
}

/// How many steps ran, of at most so many.
fn run(machine: &mut Machine, steps: u64) -> u64 {
    let mut ran = 0u64;
    for _step in 0..steps {
        match machine.step() {
            Event::Ran => ran = ran.saturating_add(1),
            _ => break,
        }
    }
    ran
}

fn main(rt: HostRuntime) -> io::Result<()> {
    let mut steps = 1000u64;
    for text in env::args(&rt)?.skip(1) {
        steps = text.parse().unwrap_or(steps);
    }
    let mut machine = Machine::new(rt.alloc())?;
    load(&mut machine);
    let ran = run(&mut machine, steps);
    let cx = machine.reg(Reg::Cx);
    let si = machine.reg(Reg::Si);
    println!(rt; "{ran} steps ran; CX is {cx} and SI {si}")
}
