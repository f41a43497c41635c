//! The command `mean`, before its last line.

ghost use Rattle.std.specs.Prelude.{◌≡◌, ◌≤◌, unwrap_or};
ghost use Rattle.commands.specs.Mean.{MeanDid};
ghost use Rattle.commands.specs.World.{world};

use crate::mean_program::show_meaning;
use checked_front_end::formed_sources;
use front_end::outcomes::Outcome;
use std::alloc::Global;
use tp_outside::{Files, Sink, Source};
use type_layout::Name;
use type_soundness::programs::sound_program_laws;

/// How many turns a program may take where the words don't say it.
const TURNS: u64 = 1_000_000;

/// Types the program of this name from its sources, and writes what it means on the whole input, within so many turns.
pub fn mean<F: Files, S: Source, K: Sink, E: Sink>(
    alloc: Global,
    name: &Name,
    turns: Option<u64>,
    files: &mut F,
    input: &mut S,
    output: &mut K,
    errors: &mut E,
) -> Outcome
    ensures did { MeanDid result name.now turns
        (world (F.folder files.old) (F.faults files.old)
        (S.remaining input.old) (K.contents output.old) (E.contents errors.old)
        (S.faults input.old) (K.faults output.old) (E.faults errors.old))
        (world (F.folder files.new) (F.faults files.new)
        (S.remaining input.new) (K.contents output.new) (E.contents errors.new)
        (S.faults input.new) (K.faults output.new) (E.faults errors.new)) }
    ensures files_counted { F.faults files.old ≤ F.faults files.new }
    ensures errors_counted { E.faults errors.old ≤ E.faults errors.new }
{
    match formed_sources(alloc, name, files) {
        Ok(found) => {
            let turns = turns.unwrap_or(TURNS);
            sound_program_laws();
            show_meaning(alloc, &found.program, turns, input, output, errors)
        }
        Err(outcome) => outcome,
    }
}
