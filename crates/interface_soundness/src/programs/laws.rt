//! What follows for the sources of every program.

ghost use Rattle.interface_soundness.specs.programs.Laws.{OneProgram, IsComplete, NoneIsMissing};
ghost use Rattle.interface_soundness.specs.programs.Closing.{AreWellScoped, ShowsAlike, WellScopedUnits};

use crate::tables::table_laws;

/// What holds of sources that were gathered; it does nothing.
pub fn program_laws()
    ensures one { OneProgram }
    ensures complete { IsComplete }
    ensures present { NoneIsMissing }
    ensures closed { AreWellScoped }
    ensures units { WellScopedUnits }
    ensures shown { ShowsAlike }
{
    table_laws();
}
