//! What holds of every object unit in a file.

ghost use Rattle.std.specs.Prelude.{◌≡◌, ◌++◌, ℕ, List};
ghost use Rattle.object_file.specs.declared.object_unit.object.ObjectUnit.{ObjectUnit};
ghost use Rattle.object_file.specs.Text.{object_text, IsObjectUnit};

/// Object units have one spelling, and none begins another.
pub fn one_spelling()
    ensures { (object other : ObjectUnit) (x y : List ℕ) → IsObjectUnit object → IsObjectUnit other
        → object_text object ++ x ≡ object_text other ++ y → object ≡ other }
{}
