//! The course of a program with overlays, event by event.

ghost use Rattle.std.specs.Prelude.{◌≡◌, ◌≤◌, ◌<◌, ◌+◌, Some, IfSome};
ghost use Rattle.tp_outside.specs.Folder.{bytes_of};
ghost use Rattle.cpu_8086.specs.State.{State};
ghost use Rattle.cpu_8086.specs.declared.machine.Event.{Event};
ghost use Rattle.dos_runner.specs.overlay_runner.Event.{IsManagedEvent, IsManagedFinish, IsTrap, FindsTrap, ManagedAdvances, Rises};
ghost use Rattle.dos_runner.specs.overlay_runner.Course.{Courses, events_in};

use crate::overlay_runner::traps::{clear, trap};
use crate::{RunEnd, finish_step};
use cpu_8086::{Event, Far, Machine, Reg};
use overlay_manager::Ovr;
use tp_outside::{Files, Sink, Source};

/// Where the run of a program stands: its machine, the manager of its overlays, and whether the input is over.
#[derive(Drop)]
pub struct Course {
    pub machine: Machine,
    pub ovr: Ovr,
    pub over: bool,
}

/// What a part of a run did: how it ended, how many events it had, and how many overlay traps were served.
#[derive(Clone, Copy, PartialEq, Eq, Debug)]
pub struct Part {
    pub end: RunEnd,
    pub events: u64,
    pub traps: u64,
}

impl Course {
    /// Serves INT with this number, which stands at this place. None where the process goes on.
    #[inline(never)]
    fn serve<F: Files, S: Source, K: Sink, E: Sink>(
        &mut self,
        number: u8,
        at: Far,
        traps: &mut u64,
        files: &mut F,
        input: &mut S,
        output: &mut K,
        errors: &mut E,
    ) -> Option<RunEnd>
        requires { traps.old < u64.MAX }
        ensures served { IfSome (F.folder files.old) (λ held. (before : State) → before.cs ≡ at.segment → before.registers.ip ≡ at.offset →
            ManagedAdvances (IsManagedFinish (bytes_of held self.old.ovr.name) before self.old.machine (Event.Service number)
            self.old.ovr traps.old self.new.ovr traps.new self.new.over)
            ((number ≡ 63) × IsTrap self.old.ovr self.old.machine) result self.old self.new traps.old traps.new
            (record {
              input = S.remaining input.old;
              output = K.contents output.old;
              errors = E.contents errors.old;
              input_faults = S.faults input.old;
              output_faults = K.faults output.old;
              errors_faults = E.faults errors.old;
            })
            (record {
              input = S.remaining input.new;
              output = K.contents output.new;
              errors = E.contents errors.new;
              input_faults = S.faults input.new;
              output_faults = K.faults output.new;
              errors_faults = E.faults errors.new;
            })) }
        ensures rises { Rises result
            (record {
              input = S.remaining input.old;
              output = K.contents output.old;
              errors = E.contents errors.old;
              input_faults = S.faults input.old;
              output_faults = K.faults output.old;
              errors_faults = E.faults errors.old;
            })
            (record {
              input = S.remaining input.new;
              output = K.contents output.new;
              errors = E.contents errors.new;
              input_faults = S.faults input.new;
              output_faults = K.faults output.new;
              errors_faults = E.faults errors.new;
            }) (F.faults files.old) (F.faults files.new) }
        ensures name { IfSome (F.folder files.old) (λ held. self.new.ovr.name ≡ self.old.ovr.name) }
        ensures few { traps.new ≤ traps.old + 1 }
        ensures unchanged { F.folder files.new ≡ F.folder files.old }
        ensures files_counted { F.faults files.old ≤ F.faults files.new }
        ensures input_counted { S.faults input.old ≤ S.faults input.new }
        ensures output_counted { K.faults output.old ≤ K.faults output.new }
        ensures errors_counted { E.faults errors.old ≤ E.faults errors.new }
    {
        if number == 0x3F {
            return trap(&mut self.machine, &mut self.ovr, traps, at, files);
        }
        if number == 0x60 {
            return clear(&mut self.machine, &mut self.ovr, at);
        }
        let event = Event::Service(number);
        finish_step(
            &mut self.machine,
            event,
            at,
            &mut self.over,
            input,
            output,
            errors,
        )
    }

    /// One event. None where the process goes on.
    #[inline(always)]
    fn advance<F: Files, S: Source, K: Sink, E: Sink>(
        &mut self,
        traps: &mut u64,
        files: &mut F,
        input: &mut S,
        output: &mut K,
        errors: &mut E,
    ) -> Option<RunEnd>
        requires { traps.old < u64.MAX }
        ensures advanced { IfSome (F.folder files.old) (λ held.
            ManagedAdvances (IsManagedEvent (bytes_of held self.old.ovr.name) self.old.machine
            self.old.ovr traps.old self.new.ovr traps.new self.new.over)
            (FindsTrap self.old.ovr self.old.machine) result self.old self.new traps.old traps.new
            (record {
              input = S.remaining input.old;
              output = K.contents output.old;
              errors = E.contents errors.old;
              input_faults = S.faults input.old;
              output_faults = K.faults output.old;
              errors_faults = E.faults errors.old;
            })
            (record {
              input = S.remaining input.new;
              output = K.contents output.new;
              errors = E.contents errors.new;
              input_faults = S.faults input.new;
              output_faults = K.faults output.new;
              errors_faults = E.faults errors.new;
            })) }
        ensures rises { Rises result
            (record {
              input = S.remaining input.old;
              output = K.contents output.old;
              errors = E.contents errors.old;
              input_faults = S.faults input.old;
              output_faults = K.faults output.old;
              errors_faults = E.faults errors.old;
            })
            (record {
              input = S.remaining input.new;
              output = K.contents output.new;
              errors = E.contents errors.new;
              input_faults = S.faults input.new;
              output_faults = K.faults output.new;
              errors_faults = E.faults errors.new;
            }) (F.faults files.old) (F.faults files.new) }
        ensures name { IfSome (F.folder files.old) (λ held. self.new.ovr.name ≡ self.old.ovr.name) }
        ensures few { traps.new ≤ traps.old + 1 }
        ensures unchanged { F.folder files.new ≡ F.folder files.old }
        ensures files_counted { F.faults files.old ≤ F.faults files.new }
        ensures input_counted { S.faults input.old ≤ S.faults input.new }
        ensures output_counted { K.faults output.old ≤ K.faults output.new }
        ensures errors_counted { E.faults errors.old ≤ E.faults errors.new }
    {
        let offset = self.machine.reg(Reg::Ip);
        let segment = self.machine.reg(Reg::Cs);
        let at = Far { offset, segment };
        match self.machine.step() {
            Event::Ran => None,
            Event::Service(number) => {
                self.serve(number, at, traps, files, input, output, errors)
            }
            event => finish_step(
                &mut self.machine,
                event,
                at,
                &mut self.over,
                input,
                output,
                errors,
            ),
        }
    }

    /// Runs a program for at most so many instructions. It reads the input only where the process does, and takes no memory.
    pub fn run<F: Files, S: Source, K: Sink, E: Sink>(
        &mut self,
        files: &mut F,
        input: &mut S,
        output: &mut K,
        errors: &mut E,
        limit: u64,
    ) -> Part
        ensures courses { IfSome (F.folder files.old) (λ held.
            Courses (bytes_of held self.old.ovr.name) result.end result.events result.traps limit self.old self.new
            (record {
              input = S.remaining input.old;
              output = K.contents output.old;
              errors = E.contents errors.old;
              input_faults = S.faults input.old;
              output_faults = K.faults output.old;
              errors_faults = E.faults errors.old;
            })
            (record {
              input = S.remaining input.new;
              output = K.contents output.new;
              errors = E.contents errors.new;
              input_faults = S.faults input.new;
              output_faults = K.faults output.new;
              errors_faults = E.faults errors.new;
            })) }
        ensures rises { Rises (Some result.end)
            (record {
              input = S.remaining input.old;
              output = K.contents output.old;
              errors = E.contents errors.old;
              input_faults = S.faults input.old;
              output_faults = K.faults output.old;
              errors_faults = E.faults errors.old;
            })
            (record {
              input = S.remaining input.new;
              output = K.contents output.new;
              errors = E.contents errors.new;
              input_faults = S.faults input.new;
              output_faults = K.faults output.new;
              errors_faults = E.faults errors.new;
            }) (F.faults files.old) (F.faults files.new) }
        ensures unchanged { F.folder files.new ≡ F.folder files.old }
        ensures files_counted { F.faults files.old ≤ F.faults files.new }
        ensures input_counted { S.faults input.old ≤ S.faults input.new }
        ensures output_counted { K.faults output.old ≤ K.faults output.new }
        ensures errors_counted { E.faults errors.old ≤ E.faults errors.new }
    {
        let mut traps = 0;
        for event in 0..limit {
            match self.advance(&mut traps, files, input, output, errors) {
                Some(end) => {
                    return Part {
                        end,
                        events: event + events_in(end),
                        traps,
                    };
                }
                None => (),
            }
        }
        Part {
            end: RunEnd::Limit { taken: limit },
            events: limit,
            traps,
        }
    }
}

/// How many events the last one is that ended a run so: none where nothing came of it.
#[inline(always)]
fn events_in(end: RunEnd) -> u64
    ensures value { result ≡ events_in end }
    ensures small { result ≤ 1 }
{
    match end {
        RunEnd::InputFault => 0,
        RunEnd::FilesFault => 0,
        _ => 1,
    }
}
