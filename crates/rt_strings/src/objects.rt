//! What the runtime finds by the class of an instance, as flat code.

ghost use Rattle.std.specs.Prelude.{◌≡◌, IfOk};
ghost use Rattle.flat_code.specs.View.{view_expr, view_list};
ghost use Rattle.flat_code.specs.Plain.{view_routine};
ghost use Rattle.flat_code.specs.Program.{FlatProgram, Choice, UnitCode, runtime_key};
ghost use Rattle.flat_code.specs.Legal.{StackFits};
ghost use Rattle.flat_code.specs.Tree.{Word};
ghost use Rattle.runtime_proofs.specs.routine_proofs.Specifications.{IsHeld};
ghost use Rattle.rt_strings.specs.objects.Routines.{method_code, method_routine, class_size_code, class_size_routine};
ghost use Rattle.rt_strings.specs.objects.Specifications.{method_number, class_size_number, FindsMethod, TellsClassSize};

use flat_code::flat_builders::{name, op, routine, set, when, word};
use flat_code::{Address, FlatExpr, FlatList, FlatOp, FlatRoutine, FlatStmt};
use runtime_proofs::string_loops::raise;
use std::alloc::{AllocError, Global};

// The word so far behind a pointer.
fn word_through(slot: i32, plus: u16) -> FlatExpr
    ensures { view_expr result ≡ Word (Address.Through slot plus) }
{
    FlatExpr::Word(Address::Through { slot, plus })
}

fn method_code(alloc: Global) -> Result<FlatList, AllocError>
    ensures { IfOk result (λ list. view_list list.items ≡ method_code) }
{
    let none = vec![in alloc; FlatStmt::Error(210)]?;
    let table = op(alloc, FlatOp::Sub, word_through(12, 0), FlatExpr::Number(1))?;
    Ok(vec![in alloc;
        raise(alloc, 12, word(10))?,
        when(word_through(12, 0), Vec::new(alloc), none),
        set(-2, word(6)),
        set(-4, op(alloc, FlatOp::Add, table, word(8))?),
        set(-8, word_through(-4, 0)),
        set(-6, word_through(-4, 2)),
    ]?)
}

/// The far pointer that the virtual method table of an instance's class holds at an offset, or error 210
/// where the instance has no class.
pub fn method(alloc: Global) -> Result<FlatRoutine, AllocError>
    ensures { IfOk result (λ routine. view_routine routine ≡ method_routine) }
{
    Ok(routine(name(b"METHOD"), 10, 8, -8, 4, method_code(alloc)?))
}

fn class_size_code(alloc: Global) -> Result<FlatList, AllocError>
    ensures { IfOk result (λ list. view_list list.items ≡ class_size_code) }
{
    let table = op(alloc, FlatOp::Sub, word_through(10, 0), FlatExpr::Number(1))?;
    Ok(vec![in alloc;
        raise(alloc, 10, word(8))?,
        set(-2, word(6)),
        set(-4, table),
        set(-2, word_through(-4, 0)),
    ]?)
}

/// The size of an instance's class.
pub fn class_size(alloc: Global) -> Result<FlatRoutine, AllocError>
    ensures { IfOk result (λ routine. view_routine routine ≡ class_size_routine) }
{
    Ok(routine(name(b"CLASSSIZE"), 8, 4, -2, 2, class_size_code(alloc)?))
}

/// The laws of the routines: in each program whose unit of strings holds them under their numbers, and
/// wherever its parts lie, they do what the runtime promises. It does nothing.
pub fn object_laws()
    ensures method { (program : FlatProgram) (choice : Choice) (unit : UnitCode) → StackFits program choice → IsHeld program (runtime_key method_number) unit method_routine → FindsMethod program choice }
    ensures size { (program : FlatProgram) (choice : Choice) (unit : UnitCode) → StackFits program choice → IsHeld program (runtime_key class_size_number) unit class_size_routine → TellsClassSize program choice }
{}
