//! The law of sizes, the contract of a function that does nothing.

ghost use Rattle.std.specs.Prelude.{◌≤◌, ℕ, length};
ghost use Rattle.std.specs.List.{AllByRecursion};
ghost use Rattle.object_file.specs.declared.object_unit.object.Code8086.{Code8086};
ghost use Rattle.object_file.specs.declared.object_unit.object.ObjectUnit.{ObjectUnit};
ghost use Rattle.flat_code.specs.declared.unit.FlatUnit.{FlatUnit};
ghost use Rattle.flat_code.specs.Plain.{view_unit};
ghost use Rattle.flat_code.specs.Weights.{unit_weight};
ghost use Rattle.codegen_8086.specs.object_code.Objects.{IsTooLarge, ObjectFor};
ghost use Rattle.codegen_8086.specs.object_sizes.Sizes.{code_bytes};

/// The code of an object unit has at most as many bytes as flat code weighs the unit, and that of each routine at least 6. So
/// code is too large only where the weight is.
pub fn size_law()
    ensures most { (unit : FlatUnit) (object : ObjectUnit) → ObjectFor unit object → code_bytes object.routines ≤ unit_weight (view_unit unit) }
    ensures least { (unit : FlatUnit) (object : ObjectUnit) → ObjectFor unit object → AllByRecursion (λ (code : Code8086). 6 ≤ length code.code) object.routines }
    ensures too_large { (unit : FlatUnit) (bytes : ℕ) → IsTooLarge unit bytes → bytes ≤ unit_weight (view_unit unit) }
{}
