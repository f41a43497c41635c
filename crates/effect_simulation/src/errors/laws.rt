//! The law of the error routine, the contract of a function that does nothing.

ghost use Rattle.flat_code.specs.declared.memory.Place.{Place};
ghost use Rattle.statement_simulation.specs.flow.Sites.{World, Site, Live, Fits};
ghost use Rattle.statement_simulation.specs.flow.Outcomes.{EndsErrors};
ghost use Rattle.effect_simulation.specs.errors.Routine.{HasErrorRoutine};

/// Where the lines of the error routine stand, whatever has entered it with a code in AX ends there: the text
/// `Runtime error N` with a line end goes to the errors, and the run ends with code N, of which an exit code is the low byte.
/// The routine pushes nothing, so it needs no room on the stack, and takes at most 60 events.
pub fn error_law()
    ensures { (w : World) (site : Site) (live : Live) (to : Place) → Fits w site live → HasErrorRoutine w live to → EndsErrors w live to }
{}
