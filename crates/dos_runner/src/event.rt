//! One event of a process: an instruction, with the service that it asks for.

ghost use Rattle.std.specs.Prelude.{◌≡◌, ℕ, ◌<◌, ◌≤◌, ◌/◌, Bool, false, OnOk, OnErr};
ghost use Rattle.std.specs.Io.KnownBytes.{append_known};
ghost use Rattle.tp_outside.specs.Faults.{HasRisen};
ghost use Rattle.tp_outside.specs.Streams.{TakesPrefix};
ghost use Rattle.cpu_8086.specs.State.{State};
ghost use Rattle.cpu_8086.specs.Process.{answered, written_bytes};
ghost use Rattle.dos_runner.specs.Run.{IsEvent, IsFinish, IsService};
ghost use Rattle.dos_runner.specs.Outside.{Outside, Advances};

use crate::runner::RunEnd;
use crate::transfer::{read_bytes, write_bytes};
use cpu_8086::{Event, Far, Flag, Machine, Reg, Why};
use tp_outside::{Failed, Sink, Source};

/// Answers a DOS function in AX and CF.
fn answer(machine: &mut Machine, ax: u16, failed: bool)
    ensures { machine.new ≡ answered machine.old ax failed }
{
    machine.set_reg(Reg::Ax, ax);
    machine.set_flag(Flag::Carry, failed);
}

/// Writes CX bytes from DS:DX, and answers.
fn write_to<K: Sink>(machine: &mut Machine, sink: &mut K) -> Result<(), Failed>
    ensures answered { OnOk result (machine.new ≡ answered machine.old machine.old.registers.cx false) }
    ensures written { OnOk result (K.contents sink.new ≡
        append_known (K.contents sink.old) (written_bytes machine.old)) }
    ensures prefix { TakesPrefix (K.contents sink.old) (K.contents sink.new) (written_bytes machine.old) }
    ensures some { OnErr result (0 < machine.old.registers.cx) }
    ensures counted { K.faults sink.old ≤ K.faults sink.new }
    ensures failed { OnErr result (HasRisen (K.faults sink.old) (K.faults sink.new)) }
{
    let segment = machine.reg(Reg::Ds);
    let offset = machine.reg(Reg::Dx);
    let count = machine.reg(Reg::Cx);
    write_bytes(machine, segment, offset, count, sink)?;
    answer(machine, count, false);
    Ok(())
}

/// AH = 40h, at the handle of the output.
fn write_output<K: Sink>(machine: &mut Machine, output: &mut K) -> Option<RunEnd>
    requires function { machine.old.registers.ax / 256 ≡ 64 }
    requires handle { machine.old.registers.bx ≡ 1 }
    ensures served { (before : State) (over : Bool) (rest : Outside) →
        Advances (IsService before machine.old 33 over) result machine.new over over
        (record rest { output = K.contents output.old; output_faults = K.faults output.old })
        (record rest { output = K.contents output.new; output_faults = K.faults output.new }) }
    ensures counted { K.faults output.old ≤ K.faults output.new }
{
    match write_to(machine, output) {
        Ok(()) => None,
        Err(_) => Some(RunEnd::OutputFault),
    }
}

/// AH = 40h, at the handle of the errors.
fn write_errors<E: Sink>(machine: &mut Machine, errors: &mut E) -> Option<RunEnd>
    requires function { machine.old.registers.ax / 256 ≡ 64 }
    requires handle { machine.old.registers.bx ≡ 2 }
    ensures served { (before : State) (over : Bool) (rest : Outside) →
        Advances (IsService before machine.old 33 over) result machine.new over over
        (record rest { errors = E.contents errors.old; errors_faults = E.faults errors.old })
        (record rest { errors = E.contents errors.new; errors_faults = E.faults errors.new }) }
    ensures counted { E.faults errors.old ≤ E.faults errors.new }
{
    match write_to(machine, errors) {
        Ok(()) => None,
        Err(_) => Some(RunEnd::ErrorsFault),
    }
}

/// AH = 40h: writes to the handle BX.
fn write_call<K: Sink, E: Sink>(
    machine: &mut Machine,
    output: &mut K,
    errors: &mut E,
) -> Option<RunEnd>
    requires { machine.old.registers.ax / 256 ≡ 64 }
    ensures served { (before : State) (over : Bool) (rest : Outside) →
        Advances (IsService before machine.old 33 over) result machine.new over over
        (record rest {
          output = K.contents output.old;
          errors = E.contents errors.old;
          output_faults = K.faults output.old;
          errors_faults = E.faults errors.old;
        })
        (record rest {
          output = K.contents output.new;
          errors = E.contents errors.new;
          output_faults = K.faults output.new;
          errors_faults = E.faults errors.new;
        }) }
    ensures output_counted { K.faults output.old ≤ K.faults output.new }
    ensures errors_counted { E.faults errors.old ≤ E.faults errors.new }
{
    let handle = machine.reg(Reg::Bx);
    if handle == 1 {
        return write_output(machine, output);
    }
    if handle == 2 {
        return write_errors(machine, errors);
    }
    answer(machine, 6, true);
    None
}

/// AH = 3Fh: reads from the handle BX.
fn read_call<S: Source>(machine: &mut Machine, over: &mut bool, input: &mut S) -> Option<RunEnd>
    requires { machine.old.registers.ax / 256 ≡ 63 }
    ensures served { (before : State) (rest : Outside) →
        Advances (IsService before machine.old 33 over.new) result machine.new over.old over.new
        (record rest { input = S.remaining input.old; input_faults = S.faults input.old })
        (record rest { input = S.remaining input.new; input_faults = S.faults input.new }) }
    ensures counted { S.faults input.old ≤ S.faults input.new }
{
    if machine.reg(Reg::Bx) != 0 {
        answer(machine, 6, true);
        return None;
    }
    let segment = machine.reg(Reg::Ds);
    let offset = machine.reg(Reg::Dx);
    let count = machine.reg(Reg::Cx);
    match read_bytes(machine, segment, offset, count, over, input) {
        Ok(done) => {
            answer(machine, done, false);
            None
        }
        Err(_) => Some(RunEnd::InputFault),
    }
}

/// INT 21h, at this place: the function is in AH.
fn dos_call<S: Source, K: Sink, E: Sink>(
    machine: &mut Machine,
    at: Far,
    over: &mut bool,
    input: &mut S,
    output: &mut K,
    errors: &mut E,
) -> Option<RunEnd>
    ensures served { (before : State) → before.cs ≡ at.segment → before.registers.ip ≡ at.offset →
        Advances (IsService before machine.old 33 over.new) result machine.new over.old over.new
        (record {
          input = S.remaining input.old;
          output = K.contents output.old;
          errors = E.contents errors.old;
          input_faults = S.faults input.old;
          output_faults = K.faults output.old;
          errors_faults = E.faults errors.old;
        })
        (record {
          input = S.remaining input.new;
          output = K.contents output.new;
          errors = E.contents errors.new;
          input_faults = S.faults input.new;
          output_faults = K.faults output.new;
          errors_faults = E.faults errors.new;
        }) }
    ensures input_counted { S.faults input.old ≤ S.faults input.new }
    ensures output_counted { K.faults output.old ≤ K.faults output.new }
    ensures errors_counted { E.faults errors.old ≤ E.faults errors.new }
{
    let ax = machine.reg(Reg::Ax);
    let function = (ax / 256) as u8;
    if function == 0x40 {
        return write_call(machine, output, errors);
    }
    if function == 0x3F {
        return read_call(machine, over, input);
    }
    if function == 0x4C {
        return Some(RunEnd::Ended {
            code: (ax % 256) as u8,
        });
    }
    Some(RunEnd::Stopped {
        cs: at.segment,
        ip: at.offset,
        why: Why::Function(function),
    })
}

/// What INT with this number does, at this place.
#[inline(never)]
fn serve<S: Source, K: Sink, E: Sink>(
    machine: &mut Machine,
    number: u8,
    at: Far,
    over: &mut bool,
    input: &mut S,
    output: &mut K,
    errors: &mut E,
) -> Option<RunEnd>
    ensures served { (before : State) → before.cs ≡ at.segment → before.registers.ip ≡ at.offset →
        Advances (IsService before machine.old number over.new) result machine.new over.old over.new
        (record {
          input = S.remaining input.old;
          output = K.contents output.old;
          errors = E.contents errors.old;
          input_faults = S.faults input.old;
          output_faults = K.faults output.old;
          errors_faults = E.faults errors.old;
        })
        (record {
          input = S.remaining input.new;
          output = K.contents output.new;
          errors = E.contents errors.new;
          input_faults = S.faults input.new;
          output_faults = K.faults output.new;
          errors_faults = E.faults errors.new;
        }) }
    ensures input_counted { S.faults input.old ≤ S.faults input.new }
    ensures output_counted { K.faults output.old ≤ K.faults output.new }
    ensures errors_counted { E.faults errors.old ≤ E.faults errors.new }
{
    if number == 0x21 {
        return dos_call(machine, at, over, input, output, errors);
    }
    if number == 0x60 {
        return None;
    }
    let why = if number == 0x3F {
        Why::NoStub
    } else {
        Why::Interrupt(number)
    };
    Some(RunEnd::Stopped {
        cs: at.segment,
        ip: at.offset,
        why,
    })
}

/// Finishes an event whose instruction, which stands at this place, was stepped over: the DOS function or the stop that it
/// asks for. None where the process goes on.
#[inline(always)]
pub fn finish_step<S: Source, K: Sink, E: Sink>(
    machine: &mut Machine,
    event: Event,
    at: Far,
    over: &mut bool,
    input: &mut S,
    output: &mut K,
    errors: &mut E,
) -> Option<RunEnd>
    ensures finished { (before : State) → before.cs ≡ at.segment → before.registers.ip ≡ at.offset →
        Advances (IsFinish before machine.old event over.new) result machine.new over.old over.new
        (record {
          input = S.remaining input.old;
          output = K.contents output.old;
          errors = E.contents errors.old;
          input_faults = S.faults input.old;
          output_faults = K.faults output.old;
          errors_faults = E.faults errors.old;
        })
        (record {
          input = S.remaining input.new;
          output = K.contents output.new;
          errors = E.contents errors.new;
          input_faults = S.faults input.new;
          output_faults = K.faults output.new;
          errors_faults = E.faults errors.new;
        }) }
    ensures input_counted { S.faults input.old ≤ S.faults input.new }
    ensures output_counted { K.faults output.old ≤ K.faults output.new }
    ensures errors_counted { E.faults errors.old ≤ E.faults errors.new }
{
    match event {
        Event::Ran => None,
        Event::Service(number) => serve(machine, number, at, over, input, output, errors),
        Event::Divide => Some(RunEnd::Stopped {
            cs: at.segment,
            ip: at.offset,
            why: Why::Divide,
        }),
        Event::Unknown { .. } => Some(RunEnd::Stopped {
            cs: at.segment,
            ip: at.offset,
            why: Why::Opcode,
        }),
    }
}

/// One event. None where the process goes on.
pub fn advance<S: Source, K: Sink, E: Sink>(
    machine: &mut Machine,
    over: &mut bool,
    input: &mut S,
    output: &mut K,
    errors: &mut E,
) -> Option<RunEnd>
    ensures advanced { Advances (IsEvent machine.old over.new) result machine.new over.old over.new
        (record {
          input = S.remaining input.old;
          output = K.contents output.old;
          errors = E.contents errors.old;
          input_faults = S.faults input.old;
          output_faults = K.faults output.old;
          errors_faults = E.faults errors.old;
        })
        (record {
          input = S.remaining input.new;
          output = K.contents output.new;
          errors = E.contents errors.new;
          input_faults = S.faults input.new;
          output_faults = K.faults output.new;
          errors_faults = E.faults errors.new;
        }) }
    ensures input_counted { S.faults input.old ≤ S.faults input.new }
    ensures output_counted { K.faults output.old ≤ K.faults output.new }
    ensures errors_counted { E.faults errors.old ≤ E.faults errors.new }
{
    let offset = machine.reg(Reg::Ip);
    let segment = machine.reg(Reg::Cs);
    let at = Far { offset, segment };
    let event = machine.step();
    finish_step(machine, event, at, over, input, output, errors)
}
