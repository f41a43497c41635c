//! Runs of code in a machine, whose DOS calls and error routine are served here.

use crate::linked::{ERROR, Linked};
use crate::objects::generated;
use cpu_8086::{Event, Machine, Reg};
use flat_rows::{Program, put_output};
use flat_run::{MeanEnd, Meaning};
use std::alloc::Global;
use test_rows::{Line, put, put_numbered};

const MOST_STEPS: u64 = 100_000;

/// What a run shows, and its exit code or error.
#[derive(Drop)]
struct Shown {
    out: Vec<u8>,
    code: u16,
}

/// A run that goes on.
#[derive(Drop)]
struct Going<'a> {
    machine: Machine,
    // What is left of the input.
    input: &'a [u8],
    out: Vec<u8>,
}

impl<'a> Going<'a> {
    // AH 40 writes CX bytes from DS:DX, AH 3F reads one there, AH 4C ends the run with a code.
    fn serve(&mut self) -> Option<Option<u16>> {
        let ax = self.machine.reg(Reg::Ax);
        let ds = self.machine.reg(Reg::Ds);
        let dx = self.machine.reg(Reg::Dx);
        match ax / 0x100 {
            0x40 => {
                for k in 0..self.machine.reg(Reg::Cx) {
                    let byte = self.machine.load_byte(ds, dx.wrapping_add(k));
                    self.out.push(byte).ok()?;
                }
                Some(None)
            }
            0x3f => {
                let mut count = 0;
                if let [byte, rest @ ..] = self.input {
                    self.machine.store_byte(ds, dx, *byte);
                    self.input = rest;
                    count = 1;
                }
                self.machine.set_reg(Reg::Ax, count);
                Some(None)
            }
            0x4c => Some(Some(ax % 0x100)),
            _ => None,
        }
    }

    // The exit code or error, if the run ends so.
    fn interrupt(&mut self, number: u8) -> Option<Option<u16>> {
        match number {
            ERROR => Some(Some(self.machine.reg(Reg::Ax))),
            0x21 => self.serve(),
            _ => None,
        }
    }

    fn run(mut self) -> Option<Shown> {
        for _ in 0..MOST_STEPS {
            match self.machine.step() {
                Event::Ran => {}
                Event::Service(number) => {
                    if let Some(code) = self.interrupt(number)? {
                        return Some(Shown {
                            out: self.out,
                            code,
                        });
                    }
                }
                Event::Divide | Event::Unknown { .. } => return None,
            }
        }
        None
    }
}

fn run_of(alloc: Global, program: &Program) -> Option<Shown> {
    let units = program.units.as_slice();
    let mut objects = Vec::new(alloc);
    for unit in units {
        objects.push(generated(alloc, unit)?.ok()?).ok()?;
    }
    let linked = Linked {
        units,
        objects: objects.as_slice(),
    };
    let machine = linked.loaded(alloc, (program.stack % 0x1_0000) as u16)?;
    let going = Going {
        machine,
        input: program.input.as_slice(),
        out: Vec::new(alloc),
    };
    going.run()
}

fn is_meant(shown: &Shown, meaning: &Meaning) -> bool {
    match meaning.end {
        MeanEnd::Ended(code) => {
            shown.code == u16::from(code) && shown.out.as_slice() == meaning.out.as_slice()
        }
        _ => false,
    }
}

/// Writes what the code of a program shows, where that is not what the program means.
pub(crate) fn put_shown(alloc: Global, out: &mut Line, program: &Program, meaning: &Meaning) {
    match run_of(alloc, program) {
        Some(shown) => {
            if !is_meant(&shown, meaning) {
                put(out, ", but its code shows ");
                put_output(out, program.shown.as_slice(), shown.out.as_slice());
                put_numbered(out, " ends ", u64::from(shown.code));
            }
        }
        None => put(out, ", but its code does not end"),
    }
}
