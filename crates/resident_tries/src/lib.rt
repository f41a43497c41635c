//! Runs of the resident machine that are tried by computation.
#![tactic(auto)]

ghost use Rattle.std.specs.Prelude.{◌≡◌, List, length, Some};
ghost use Rattle.resident_machine.specs.Program.{Program};
ghost use Rattle.resident_machine.specs.Run.{RunsFramed};
ghost use Rattle.resident_machine.specs.State.{ResidentState};
ghost use Rattle.resident_tries.specs.Tries.{Move, followed};

/// Where a list of instructions is followed from a state, each one where it stands and framed where a service may follow, that is a framed run.
pub fn try_law()
    ensures { (p : Program) (moves : List Move) (r t : ResidentState) → followed p moves r ≡ Some t → RunsFramed p (length moves) r t }
{}
