//! The runner.

ghost use Rattle.std.specs.Prelude.{◌≡◌, ◌≤◌, Err, None, Some, IfOk, IfErr, IfSome};
ghost use Rattle.tp_outside.specs.Faults.{HasRisen};
ghost use Rattle.tp_outside.specs.Folder.{bytes_of};
ghost use Rattle.dos_runner.specs.declared.opened_program.error.OpenError.{OpenError};
ghost use Rattle.dos_runner.specs.opened_program.Opening.{IsRefused};
ghost use Rattle.dos_runner.specs.overlay_runner.Event.{Rises};
ghost use Rattle.dos_runner.specs.overlay_runner.Runner.{Begins, with_retry, RunsOn, lasting, counts_of};

use crate::RunEnd;
use crate::opened_program::{OpenError, Opened, open_program};
use crate::overlay_runner::counts::Counts;
use crate::overlay_runner::course::Course;
use std::alloc::Global;
use tp_outside::{Files, Sink, Source};
use type_layout::FileName;

/// A program that was opened from its files, as far as it ran.
#[derive(Drop)]
pub struct Runner {
    course: Course,
    end: Option<RunEnd>,
    traps: u64,
    instructions: u64,
}

/// How a run ended for all later calls: a limit ends but the call.
fn lasting(end: RunEnd) -> Option<RunEnd>
    ensures { result ≡ lasting end }
{
    match end {
        RunEnd::Limit { .. } => None,
        end => Some(end),
    }
}

impl Runner {
    /// Opens the program whose executable file has these bytes, with its overlay file and with a buffer of so many
    /// paragraphs, or as many as its largest overlay has.
    pub fn open<F: Files>(
        alloc: Global,
        exe: &[u8],
        ovr_name: &FileName,
        files: &mut F,
        buffer: Option<u16>,
    ) -> Result<Runner, OpenError>
        ensures opened { IfSome (F.folder files.old) (λ held.
            IfOk result (Begins exe.now ovr_name.now (held ovr_name.now) buffer)) }
        ensures refused { IfSome (F.folder files.old) (λ held.
            IfErr result (IsRefused exe.now ovr_name.now (held ovr_name.now) buffer)) }
        ensures idle { IfOk result (λ runner. runner.end ≡ None) }
        ensures unchanged { F.folder files.new ≡ F.folder files.old }
        ensures counted { F.faults files.old ≤ F.faults files.new }
        ensures failed { result ≡ Err OpenError.FilesFault → HasRisen (F.faults files.old) (F.faults files.new) }
    {
        let Opened { machine, ovr } = open_program(alloc, exe, ovr_name, files, buffer)?;
        let course = Course {
            machine,
            ovr,
            over: false,
        };
        Ok(Runner {
            course,
            end: None,
            traps: 0,
            instructions: 0,
        })
    }

    /// From now on so many paragraphs of overlays that live returns need are kept and moved.
    pub fn set_retry(&mut self, retry: u16)
        ensures { self.new ≡ with_retry self.old retry }
    {
        self.course.ovr.set_retry(retry);
    }

    /// Takes the run further, for at most so many instructions. Once it has ended but by its limit, each further call
    /// answers the same and calls nothing.
    pub fn run<F: Files, S: Source, K: Sink, E: Sink>(
        &mut self,
        files: &mut F,
        input: &mut S,
        output: &mut K,
        errors: &mut E,
        limit: u64,
    ) -> RunEnd
        ensures runs { self.old.end ≡ None → IfSome (F.folder files.old) (λ held.
            RunsOn (bytes_of held self.old.course.ovr.name) result limit self.old self.new
            (record {
              input = S.remaining input.old;
              output = K.contents output.old;
              errors = E.contents errors.old;
              input_faults = S.faults input.old;
              output_faults = K.faults output.old;
              errors_faults = E.faults errors.old;
            })
            (record {
              input = S.remaining input.new;
              output = K.contents output.new;
              errors = E.contents errors.new;
              input_faults = S.faults input.new;
              output_faults = K.faults output.new;
              errors_faults = E.faults errors.new;
            })) }
        ensures again { IfSome self.old.end (λ end. (result ≡ end) × (self.new ≡ self.old)) }
        ensures calls_nothing { IfSome self.old.end (λ end.
            (files.new ≡ files.old) × (input.new ≡ input.old) × (output.new ≡ output.old) × (errors.new ≡ errors.old)) }
        ensures ended { self.old.end ≡ None → self.new.end ≡ lasting result }
        ensures rises { self.old.end ≡ None → Rises (Some result)
            (record {
              input = S.remaining input.old;
              output = K.contents output.old;
              errors = E.contents errors.old;
              input_faults = S.faults input.old;
              output_faults = K.faults output.old;
              errors_faults = E.faults errors.old;
            })
            (record {
              input = S.remaining input.new;
              output = K.contents output.new;
              errors = E.contents errors.new;
              input_faults = S.faults input.new;
              output_faults = K.faults output.new;
              errors_faults = E.faults errors.new;
            }) (F.faults files.old) (F.faults files.new) }
        ensures unchanged { F.folder files.new ≡ F.folder files.old }
        ensures files_counted { F.faults files.old ≤ F.faults files.new }
        ensures input_counted { S.faults input.old ≤ S.faults input.new }
        ensures output_counted { K.faults output.old ≤ K.faults output.new }
        ensures errors_counted { E.faults errors.old ≤ E.faults errors.new }
    {
        if let Some(end) = self.end {
            return end;
        }
        let part = self.course.run(files, input, output, errors, limit);
        self.end = lasting(part.end);
        self.traps = self.traps.saturating_add(part.traps);
        self.instructions = self.instructions.saturating_add(part.events);
        part.end
    }

    /// How much of the program ran so far.
    pub fn counts(&self) -> Counts
        ensures { result ≡ counts_of self.now }
    {
        let tally = self.course.ovr.tally();
        Counts {
            loads: tally.loads,
            traps: self.traps,
            patched: tally.patched,
            instructions: self.instructions,
        }
    }
}
