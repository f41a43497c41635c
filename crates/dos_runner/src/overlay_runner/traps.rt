//! The services of a program's overlays: traps, and the clear of the buffer.

ghost use Rattle.std.specs.Prelude.{◌≡◌, ◌≤◌, ◌<◌, ◌+◌, ℕ, IfSome};
ghost use Rattle.tp_outside.specs.Faults.{HasRisen};
ghost use Rattle.tp_outside.specs.Folder.{bytes_of};
ghost use Rattle.dos_runner.specs.declared.runner.RunEnd.{RunEnd};
ghost use Rattle.overlay_manager.specs.overlay_run.Managed.{IsTrapped, IsCleared};
ghost use Rattle.dos_runner.specs.overlay_runner.Event.{managed, GoesOrStops, IsTrap, IsQuietEnd};

use crate::RunEnd;
use cpu_8086::{Far, Machine, Why};
use overlay_manager::{Ovr, ServiceStop, clear_buffer, service};
use tp_outside::Files;

fn stopped(at: Far, why: Why) -> RunEnd
    ensures { result ≡ RunEnd.Stopped at.segment at.offset why }
{
    RunEnd::Stopped {
        cs: at.segment,
        ip: at.offset,
        why,
    }
}

/// Serves an INT 3Fh that stands at this place, past which the machine stands. None where the process goes on.
pub fn trap<F: Files>(
    machine: &mut Machine,
    ovr: &mut Ovr,
    traps: &mut u64,
    at: Far,
    files: &mut F,
) -> Option<RunEnd>
    requires { traps.old < u64.MAX }
    ensures trapped { IfSome (F.folder files.old) (λ held. GoesOrStops
        (λ p q. IsTrapped (bytes_of held ovr.old.name) (managed ovr.old traps.old p) machine.old q) result at machine.new ovr.new traps.new) }
    ensures found { result ≡ Some RunEnd.FilesFault → IsTrap ovr.old machine.old }
    ensures tally { result ≡ Some RunEnd.FilesFault → ovr.new.tally ≡ ovr.old.tally }
    ensures served { result ≡ Some RunEnd.FilesFault → traps.new ≡ traps.old }
    ensures name { IfSome (F.folder files.old) (λ held. ovr.new.name ≡ ovr.old.name) }
    ensures quiet { IsQuietEnd result }
    ensures few { traps.new ≤ traps.old + 1 }
    ensures unchanged { F.folder files.new ≡ F.folder files.old }
    ensures counted { F.faults files.old ≤ F.faults files.new }
    ensures failed { result ≡ Some RunEnd.FilesFault → HasRisen (F.faults files.old) (F.faults files.new) }
{
    match service(machine, ovr, files) {
        Ok(()) => {
            *traps += 1;
            None
        }
        Err(ServiceStop::NoStub { .. }) => Some(stopped(at, Why::NoStub)),
        Err(ServiceStop::BadChain { bp }) => Some(stopped(at, Why::BadChain(bp))),
        Err(ServiceStop::ShortOverlay { overlay }) => Some(stopped(at, Why::ShortOverlay(overlay))),
        Err(ServiceStop::FilesFault) => Some(RunEnd::FilesFault),
    }
}

/// Serves an INT 60h that stands at this place, past which the machine stands: all overlays go out. None where the process
/// goes on.
pub fn clear(machine: &mut Machine, ovr: &mut Ovr, at: Far) -> Option<RunEnd>
    ensures cleared { (traps : ℕ) → GoesOrStops
        (λ p q. IsCleared (managed ovr.old traps p) machine.old q) result at machine.new ovr.new traps }
    ensures name { ovr.new.name ≡ ovr.old.name }
    ensures quiet { IsQuietEnd result }
    ensures no_fault { result ≡ Some RunEnd.FilesFault → ⊥ }
{
    match clear_buffer(machine, ovr) {
        Ok(()) => None,
        Err(bad) => Some(stopped(at, Why::BadChain(bad.bp))),
    }
}
