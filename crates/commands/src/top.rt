//! The top call.

ghost use Rattle.std.specs.Prelude.{map, string_bytes};
ghost use Rattle.commands.specs.Specifications.{Promises};

use crate::perform::perform;
use front_end::outcomes::{Outcome, write_line};
use std::alloc::Global;
use tp_outside::{Files, Sink, Source};

/// Does what the words say, after the program's own name: `go NAME` reads the program's sources, writes its
/// executable, and runs that; `run NAME` runs the program that stands in its executable and its overlay file; `mean NAME` shows what the
/// program's sources mean; `--help` and `--version` write a text. Where the outcome is not the
/// program's own end, nor that of a text, the errors then end with a line that says what it is.
pub fn turbo<F: Files, S: Source, K: Sink, E: Sink>(
    alloc: Global,
    words: &[String],
    files: &mut F,
    input: &mut S,
    output: &mut K,
    errors: &mut E,
) -> Outcome
    ensures promises { Promises (map string_bytes words.now)
        (record {
          folder = F.folder files.old;
          files_faults = F.faults files.old;
          streams = record {
            input = S.remaining input.old;
            output = K.contents output.old;
            errors = E.contents errors.old;
            input_faults = S.faults input.old;
            output_faults = K.faults output.old;
            errors_faults = E.faults errors.old;
          };
        })
        (record {
          folder = F.folder files.new;
          files_faults = F.faults files.new;
          streams = record {
            input = S.remaining input.new;
            output = K.contents output.new;
            errors = E.contents errors.new;
            input_faults = S.faults input.new;
            output_faults = K.faults output.new;
            errors_faults = E.faults errors.new;
          };
        }) result }
{
    let outcome = perform(alloc, words, files, input, output, errors);
    match write_line(errors, &outcome) {
        Ok(()) => outcome,
        Err(_) => Outcome::ErrorsFault,
    }
}
