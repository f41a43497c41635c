//! Runs a program by its meaning and by the flat code that it is lowered to, and says whether both show the same.
#![tactic(auto)]

mod both_runs;
mod cases;

use crate::both_runs::compare;
use crate::cases::Case;
use front_end::typed_program;
use std::io;
use tp_outside::RealSource;
use tp_outside::whole_input::whole_input;

fn main(rt: HostRuntime) -> io::Result<()> {
    let alloc = rt.alloc();
    let mut source = RealSource::new(rt.stdin());
    let Ok(bytes) = whole_input(alloc, &mut source) else {
        return println!(rt; "there is no program to read");
    };
    let Some(mut case) = Case::read(alloc, bytes.as_slice())? else {
        return println!(rt; "what is given is no program");
    };
    let name = case.name.copied();
    let program = match typed_program(alloc, &name, &mut case.files) {
        Ok(program) => program,
        Err(outcome) => return println!(rt; "refused: {outcome:?}"),
    };
    let compared = compare(alloc, &program, case.input, case.turns)?;
    println!(rt; "{compared}")
}
