//! Lines written out.

ghost use Rattle.std.specs.Prelude.{◌≡◌, [], ◌∷◌, Some, codes};
ghost use Rattle.clap.specs.Words.{first_of};
ghost use Rattle.clap.specs.declared.error.kind.ErrorKind.TheVariants.{ArgumentConflict, InvalidValue, MissingRequiredArgument, UnknownArgument};
ghost use Rattle.command_line.specs.Line.{faults, said};

/// What lines that are written out say, or what is wrong with them: an option stands before or behind the name, and its value
/// behind it or behind `=`; it is said once, with a value; both words are there.
pub fn worked_lines()
    ensures plain { faults (codes "go" ∷ codes "A" ∷ []) ≡ [] }
    ensures equals { first_of (codes "limit") (said (codes "run" ∷ codes "--limit=5" ∷ codes "A" ∷ [])) ≡ Some (codes "5") }
    ensures before { first_of (codes "name") (said (codes "run" ∷ codes "--buffer" ∷ codes "2" ∷ codes "A" ∷ [])) ≡ Some (codes "A") }
    ensures twice { faults (codes "run" ∷ codes "A" ∷ codes "--limit" ∷ codes "9" ∷ codes "--limit" ∷ codes "9" ∷ []) ≡ ArgumentConflict ∷ [] }
    ensures valueless { faults (codes "run" ∷ codes "A" ∷ codes "--limit" ∷ []) ≡ InvalidValue ∷ [] }
    ensures nameless { faults (codes "run" ∷ []) ≡ MissingRequiredArgument ∷ [] }
    ensures unknown { faults (codes "run" ∷ codes "A" ∷ codes "--fast" ∷ []) ≡ UnknownArgument ∷ [] }
{}
