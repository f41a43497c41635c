//! Running a process.

ghost use Rattle.std.specs.Prelude.{◌≤◌};
ghost use Rattle.dos_runner.specs.Outside.{RunsTo};

use crate::event::advance;
use cpu_8086::{Machine, Why};
use tp_outside::{Sink, Source};

/// How a call that runs a process ended.
#[derive(Clone, Copy, PartialEq, Eq, Debug)]
pub enum RunEnd {
    /// The process ended with this code.
    Ended { code: u8 },
    /// So many instructions were executed, as many as were allowed, and the process still runs.
    Limit { taken: u64 },
    /// The process was stopped at this instruction.
    Stopped { cs: u16, ip: u16, why: Why },
    /// The input could not be read.
    InputFault,
    /// The output could not be written.
    OutputFault,
    /// The errors could not be written.
    ErrorsFault,
    /// A file could not be read. A process without overlays reads none.
    FilesFault,
}

/// Runs the process that stands in a machine, for at most so many instructions. It reads the input only where the
/// process does, and takes no memory.
pub fn run<S: Source, K: Sink, E: Sink>(
    machine: &mut Machine,
    input: &mut S,
    output: &mut K,
    errors: &mut E,
    limit: u64,
) -> RunEnd
    ensures run { RunsTo result limit machine.old machine.new
        (record {
          input = S.remaining input.old;
          output = K.contents output.old;
          errors = E.contents errors.old;
          input_faults = S.faults input.old;
          output_faults = K.faults output.old;
          errors_faults = E.faults errors.old;
        })
        (record {
          input = S.remaining input.new;
          output = K.contents output.new;
          errors = E.contents errors.new;
          input_faults = S.faults input.new;
          output_faults = K.faults output.new;
          errors_faults = E.faults errors.new;
        }) }
    ensures input_counted { S.faults input.old ≤ S.faults input.new }
    ensures output_counted { K.faults output.old ≤ K.faults output.new }
    ensures errors_counted { E.faults errors.old ≤ E.faults errors.new }
{
    let mut over = false;
    for event in 0..limit {
        match advance(machine, &mut over, input, output, errors) {
            Some(end) => return end,
            None => (),
        }
    }
    RunEnd::Limit { taken: limit }
}
