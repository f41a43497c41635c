//! What a program means on an input, written to the output and the errors.

ghost use Rattle.std.specs.Prelude.{◌≡◌, ◌≢◌, ◌<◌, ◌≤◌, All, IfOk, IfErr, OnErr};
ghost use Rattle.tp_outside.specs.Faults.{HasRisen};
ghost use Rattle.tp_outside.specs.Streams.{GaveSome};
ghost use Rattle.common_values.specs.behaviour.Seen.{Seen, Stopped};
ghost use Rattle.tp_meaning.specs.Meaning.{IsNeverStopped};
ghost use Rattle.interpreter.specs.Whole.{view_end, view_meaning};
ghost use Rattle.tp_outside.specs.whole_input.Input.{IsWhole};
ghost use Rattle.commands.specs.mean_program.Shown.{streams, Stands, IsUnread, Writes, Shows};

use front_end::outcomes::{Outcome, Refusal, What};
use interpreter::{MeanEnd, Meaning, mean};
use std::alloc::Global;
use tp_outside::whole_input::{InputError, whole_input};
use tp_outside::{Sink, Source, write_all};
use typed_tree::Program;

fn read_input<S: Source>(alloc: Global, input: &mut S) -> Result<Vec<u8>, Outcome>
    ensures whole { IfOk result (λ bytes. IsWhole (S.remaining input.old) (S.remaining input.new) bytes.items) }
    ensures unread { IfErr result (IsUnread (S.remaining input.old) (S.remaining input.new) (S.faults input.old) (S.faults input.new)) }
    ensures counted { S.faults input.old ≤ S.faults input.new }
{
    match whole_input(alloc, input) {
        Ok(bytes) => Ok(bytes),
        Err(InputError::TooLarge { bytes }) => Err(Outcome::Refused(Refusal::TooLarge {
            what: What::Input,
            number: bytes,
        })),
        Err(InputError::Failed) => Err(Outcome::InputFault),
        Err(InputError::NoMemory) => Err(Outcome::NoMemory),
    }
}

// An input is of bytes, as its type says. It does nothing.
fn of_bytes(input: &[u8])
    ensures { All (λ byte. byte < 256) input.now }
{}

/// The outcome by how the meaning stands, which is not stopped.
fn outcome_of(end: MeanEnd) -> Outcome
    requires { view_end end ≢ Stopped }
    ensures { Stands (view_end end) result }
{
    match end {
        MeanEnd::Ended(code) => Outcome::Program { code },
        MeanEnd::Going => Outcome::TurnLimit,
        MeanEnd::Undefined(act) => Outcome::Undefined { act },
        MeanEnd::Stopped => unreachable!(),
    }
}

/// Writes what the meaning writes, to the output first.
fn write_meaning<K: Sink, E: Sink>(meaning: &Meaning, output: &mut K, errors: &mut E) -> Outcome
    requires { (view_meaning meaning.now).end ≢ Stopped }
    ensures written { Writes (view_meaning meaning.now) result
        (streams (K.contents output.old) (E.contents errors.old) (K.faults output.old) (E.faults errors.old))
        (streams (K.contents output.new) (E.contents errors.new) (K.faults output.new) (E.faults errors.new)) }
    ensures output_counted { K.faults output.old ≤ K.faults output.new }
    ensures errors_counted { E.faults errors.old ≤ E.faults errors.new }
{
    match write_all(output, meaning.out.as_slice()) {
        Ok(()) => match write_all(errors, meaning.err.as_slice()) {
            Ok(()) => outcome_of(meaning.end),
            Err(_) => Outcome::ErrorsFault,
        },
        Err(_) => Outcome::OutputFault,
    }
}

/// Reads the whole input, and writes what the program writes on it within so many turns, as its meaning has it. The outcome is how
/// that stands, or why the input was not read, or a fault of a sink. The program is one that is never stopped at a step that is none of
/// the language.
pub fn show_meaning<S: Source, K: Sink, E: Sink>(
    alloc: Global,
    program: &Program,
    turns: u64,
    input: &mut S,
    output: &mut K,
    errors: &mut E,
) -> Outcome
    requires sound { IsNeverStopped program.now }
    ensures shown { Shows program.now turns result
        (S.remaining input.old) (S.remaining input.new) (S.faults input.old) (S.faults input.new)
        (streams (K.contents output.old) (E.contents errors.old) (K.faults output.old) (E.faults errors.old))
        (streams (K.contents output.new) (E.contents errors.new) (K.faults output.new) (E.faults errors.new)) }
    ensures input_counted { S.faults input.old ≤ S.faults input.new }
    ensures output_counted { K.faults output.old ≤ K.faults output.new }
    ensures errors_counted { E.faults errors.old ≤ E.faults errors.new }
{
    let bytes = match read_input(alloc, input) {
        Ok(bytes) => bytes,
        Err(outcome) => return outcome,
    };
    let given = bytes.as_slice();
    of_bytes(given);
    match mean(alloc, program, given, turns) {
        Ok(meaning) => write_meaning(&meaning, output, errors),
        Err(_) => Outcome::NoMemory,
    }
}
