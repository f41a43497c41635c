//! What a command does, before its last line.

ghost use Rattle.std.specs.Prelude.{◌≤◌, map, string_bytes};
ghost use Rattle.commands.specs.Performs.{Performs};
ghost use Rattle.commands.specs.World.{world};

use crate::go::go;
use crate::mean::mean;
use crate::run::run_program;
use crate::texts::{help_text, show, version_text};
use command_line::{Command, command_of};
use front_end::outcomes::{Outcome, Refusal};
use std::alloc::Global;
use tp_outside::{Files, Sink, Source};

/// Does what the words say.
pub fn perform<F: Files, S: Source, K: Sink, E: Sink>(
    alloc: Global,
    words: &[String],
    files: &mut F,
    input: &mut S,
    output: &mut K,
    errors: &mut E,
) -> Outcome
    ensures performs { Performs result (map string_bytes words.now)
        (world (F.folder files.old) (F.faults files.old)
        (S.remaining input.old) (K.contents output.old) (E.contents errors.old)
        (S.faults input.old) (K.faults output.old) (E.faults errors.old))
        (world (F.folder files.new) (F.faults files.new)
        (S.remaining input.new) (K.contents output.new) (E.contents errors.new)
        (S.faults input.new) (K.faults output.new) (E.faults errors.new)) }
    ensures files_counted { F.faults files.old ≤ F.faults files.new }
    ensures errors_counted { E.faults errors.old ≤ E.faults errors.new }
{
    match command_of(alloc, words) {
        Ok(Some(Command::Go { name, options })) => {
            go(alloc, &name, options, files, input, output, errors)
        }
        Ok(Some(Command::Run { name, options })) => {
            run_program(alloc, &name, options, files, input, output, errors)
        }
        Ok(Some(Command::Mean { name, turns })) => {
            mean(alloc, &name, turns, files, input, output, errors)
        }
        Ok(Some(Command::Help)) => show(output, help_text()),
        Ok(Some(Command::Version)) => show(output, version_text()),
        Ok(None) => Outcome::Refused(Refusal::Usage),
        Err(_) => Outcome::NoMemory,
    }
}
