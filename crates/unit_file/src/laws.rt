//! What holds of every unit file.

ghost use Rattle.std.specs.Prelude.{◌≡◌, ◌++◌, ℕ, List};
ghost use Rattle.unit_file.specs.declared.unit.UnitRecord.{UnitRecord};
ghost use Rattle.unit_file.specs.Format.{spelling, IsUnit};

/// Each unit has one spelling, and none begins another.
pub fn one_spelling()
    ensures { (unit other : UnitRecord) (x y : List ℕ) → IsUnit unit → IsUnit other → spelling unit ++ x ≡ spelling other ++ y → unit ≡ other }
{}
