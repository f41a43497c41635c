//! The runtime's routines on LongInts, as flat code.

ghost use Rattle.std.specs.Prelude.{ℕ};
ghost use Rattle.flat_code.specs.Program.{FlatProgram, Choice, UnitCode, runtime_key};
ghost use Rattle.flat_code.specs.Legal.{StackFits};
ghost use Rattle.flat_code.specs.Runtime.{negation_number, product_number, less_number, quotient_number, remainder_number, negation_routine};
ghost use Rattle.runtime_proofs.specs.routine_proofs.Specifications.{IsHeld};
ghost use Rattle.rt_strings.specs.long_integers.Routines.{product_routine, less_routine, sum_routine, difference_routine, equal_routine, left_shift_routine, right_shift_routine, range_routine, between_routine};
ghost use Rattle.rt_strings.specs.long_integers.Division.{quotient_routine, remainder_routine};
ghost use Rattle.rt_strings.specs.long_integers.Numbers.{sum_number, difference_number, equal_number, left_shift_number, right_shift_number, range_number, between_number};
ghost use Rattle.rt_strings.specs.long_integers.Specifications.{Negates, Multiplies, Compares, Divides, TakesRemainder, Adds, Subtracts, TestsEqual, ShiftsLeft, ShiftsRight, TestsRange, TestsBetween};

mod division;
mod shifts;
mod words;

pub use division::{quotient, remainder};
pub use shifts::{between, left_shift, range, right_shift};
pub use words::{difference, equal, less, negation, product, sum};

/// The laws of the routines: in each program whose unit of strings holds the routine under its number,
/// and wherever its parts lie, it computes what the runtime promises. It does nothing.
pub fn number_laws()
    ensures negation { (program : FlatProgram) (choice : Choice) (unit : UnitCode) → StackFits program choice → IsHeld program (runtime_key negation_number) unit negation_routine → Negates program choice }
    ensures product { (program : FlatProgram) (choice : Choice) (unit : UnitCode) → StackFits program choice → IsHeld program (runtime_key product_number) unit product_routine → Multiplies program choice }
    ensures less { (program : FlatProgram) (choice : Choice) (unit : UnitCode) → StackFits program choice → IsHeld program (runtime_key less_number) unit less_routine → Compares program choice }
    ensures quotient { (program : FlatProgram) (choice : Choice) (unit : UnitCode) → StackFits program choice → IsHeld program (runtime_key quotient_number) unit quotient_routine → Divides program choice }
    ensures remainder { (program : FlatProgram) (choice : Choice) (unit : UnitCode) → StackFits program choice → IsHeld program (runtime_key remainder_number) unit remainder_routine → TakesRemainder program choice }
    ensures sum { (program : FlatProgram) (choice : Choice) (unit : UnitCode) → StackFits program choice → IsHeld program (runtime_key sum_number) unit sum_routine → Adds program choice }
    ensures difference { (program : FlatProgram) (choice : Choice) (unit : UnitCode) → StackFits program choice → IsHeld program (runtime_key difference_number) unit difference_routine → Subtracts program choice }
    ensures equal { (program : FlatProgram) (choice : Choice) (unit : UnitCode) → StackFits program choice → IsHeld program (runtime_key equal_number) unit equal_routine → TestsEqual program choice }
    ensures left_shift { (program : FlatProgram) (choice : Choice) (unit : UnitCode) → StackFits program choice → IsHeld program (runtime_key left_shift_number) unit left_shift_routine → ShiftsLeft program choice }
    ensures right_shift { (program : FlatProgram) (choice : Choice) (unit : UnitCode) → StackFits program choice → IsHeld program (runtime_key right_shift_number) unit right_shift_routine → ShiftsRight program choice }
    ensures range { (program : FlatProgram) (choice : Choice) (unit : UnitCode) → StackFits program choice → IsHeld program (runtime_key range_number) unit range_routine → TestsRange program choice }
    ensures between { (program : FlatProgram) (choice : Choice) (unit : UnitCode) → StackFits program choice → IsHeld program (runtime_key between_number) unit between_routine → TestsBetween program choice }
{}
