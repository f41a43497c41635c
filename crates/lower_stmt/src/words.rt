//! Uses of the runtime whose result goes to any place.

ghost use Rattle.std.specs.Prelude.{◌≡◌};
ghost use Rattle.flat_code.specs.Tree.{Code, Do};
ghost use Rattle.flat_code.specs.View.{view_exprs, view_stmt};
ghost use Rattle.lower_stmt.specs.Words.{computed};

use flat_code::{Address, FlatExprs, FlatResult, FlatStmt};
use runtime_units::numbers::RuntimeRoutine;

/// A use of a routine of the runtime that gives so many bytes to a place.
pub fn compute(routine: RuntimeRoutine, args: FlatExprs, at: Address, bytes: u8) -> FlatStmt
    ensures { (next : Code) → view_stmt result next ≡ Do (computed routine (view_exprs args.items) at bytes) next }
{
    FlatStmt::Runtime {
        number: routine.number(),
        args,
        result: Some(FlatResult { at, bytes }),
    }
}
