//! The runtime's relations of sets and `in`, as flat code.

ghost use Rattle.std.specs.Prelude.{◌≡◌, IfOk};
ghost use Rattle.flat_code.specs.View.{view_expr, view_list};
ghost use Rattle.flat_code.specs.Plain.{view_routine};
ghost use Rattle.flat_code.specs.Program.{FlatProgram, Choice, UnitCode, runtime_key};
ghost use Rattle.flat_code.specs.Legal.{StackFits};
ghost use Rattle.runtime_proofs.specs.routine_proofs.Specifications.{IsHeld};
ghost use Rattle.rt_strings.specs.set_relations.Routines.{relation_start, relation_step, relation_round, relation_routine, same_test, subset_test, member_bit, member_code, member_routine};
ghost use Rattle.rt_strings.specs.set_relations.Specifications.{same_number, subset_number, member_number, TellsSame, TellsSubset, TellsMember};

use flat_code::flat_builders::{name, op, repeat, routine, set, then, when, word};
use flat_code::{FlatExpr, FlatList, FlatOp, FlatRoutine, FlatStmt};
use runtime_proofs::string_loops::{behind, lessen, raise};
use std::alloc::{AllocError, Global};
use type_layout::Name;

fn relation_start(alloc: Global) -> Result<FlatList, AllocError>
    ensures { IfOk result (λ list. view_list list.items ≡ relation_start) }
{
    Ok(vec![in alloc; set(-2, FlatExpr::Number(1)), set(-4, FlatExpr::Number(32))]?)
}

fn relation_step(alloc: Global) -> Result<FlatList, AllocError>
    ensures { IfOk result (λ list. view_list list.items ≡ relation_step) }
{
    Ok(vec![in alloc;
        raise(alloc, 10, FlatExpr::Number(1))?,
        raise(alloc, 6, FlatExpr::Number(1))?,
        lessen(alloc, -4, FlatExpr::Number(1))?,
    ]?)
}

// Where two bytes fail the test, the sets do.
fn relation_round(alloc: Global, test: FlatExpr) -> Result<FlatList, AllocError>
    ensures { IfOk result (λ list. view_list list.items ≡ relation_round (view_expr test)) }
{
    let failed = vec![in alloc; set(-2, FlatExpr::Number(0)), FlatStmt::Leave { loops: 1 }]?;
    let tested = vec![in alloc; when(test, relation_step(alloc)?, failed)]?;
    let leave = vec![in alloc; FlatStmt::Leave { loops: 1 }]?;
    Ok(vec![in alloc; when(word(-4), tested, leave)]?)
}

fn relation(alloc: Global, name: Name, test: FlatExpr) -> Result<FlatRoutine, AllocError>
    ensures { IfOk result (λ routine. view_routine routine ≡ relation_routine (view_expr test)) }
{
    let rounds = vec![in alloc; repeat(relation_round(alloc, test)?)]?;
    let body = then(relation_start(alloc)?, rounds)?;
    Ok(routine(name, 8, 4, -2, 2, body))
}

/// Whether two sets have the same elements.
pub fn same(alloc: Global) -> Result<FlatRoutine, AllocError>
    ensures { IfOk result (λ routine. view_routine routine ≡ relation_routine same_test) }
{
    let test = op(alloc, FlatOp::Equal, behind(10, 0), behind(6, 0))?;
    relation(alloc, name(b"SAME"), test)
}

/// Whether the right set has each element of the left one.
pub fn subset(alloc: Global) -> Result<FlatRoutine, AllocError>
    ensures { IfOk result (λ routine. view_routine routine ≡ relation_routine subset_test) }
{
    let both = op(alloc, FlatOp::And, behind(10, 0), behind(6, 0))?;
    let test = op(alloc, FlatOp::Equal, both, behind(10, 0))?;
    relation(alloc, name(b"SUBSET"), test)
}

fn member_bit(alloc: Global) -> Result<FlatList, AllocError>
    ensures { IfOk result (λ list. view_list list.items ≡ member_bit) }
{
    let byte = op(alloc, FlatOp::DivUnsigned, word(12), FlatExpr::Number(8))?;
    let place = op(alloc, FlatOp::ModUnsigned, word(12), FlatExpr::Number(8))?;
    let shifted = op(alloc, FlatOp::Shr, behind(6, 0), place)?;
    let bit = op(alloc, FlatOp::And, shifted, FlatExpr::Number(1))?;
    Ok(vec![in alloc; raise(alloc, 6, byte)?, set(-2, bit)]?)
}

// No number beyond 255 is in a set.
fn member_code(alloc: Global) -> Result<FlatList, AllocError>
    ensures { IfOk result (λ list. view_list list.items ≡ member_code) }
{
    let below = op(alloc, FlatOp::Below, word(12), FlatExpr::Number(256))?;
    let small = vec![in alloc; when(below, member_bit(alloc)?, Vec::new(alloc))]?;
    Ok(vec![in alloc;
        set(-2, FlatExpr::Number(0)),
        when(word(10), Vec::new(alloc), small),
    ]?)
}

/// The operator `in`, for any LongInt.
pub fn member(alloc: Global) -> Result<FlatRoutine, AllocError>
    ensures { IfOk result (λ routine. view_routine routine ≡ member_routine) }
{
    Ok(routine(name(b"MEMBER"), 8, 2, -2, 2, member_code(alloc)?))
}

/// The laws of the routines: in each program whose unit of strings holds them under their numbers, and
/// wherever its parts lie, they do what the runtime promises. It does nothing.
pub fn relation_laws()
    ensures same { (program : FlatProgram) (choice : Choice) (unit : UnitCode) → StackFits program choice → IsHeld program (runtime_key same_number) unit (relation_routine same_test) → TellsSame program choice }
    ensures subset { (program : FlatProgram) (choice : Choice) (unit : UnitCode) → StackFits program choice → IsHeld program (runtime_key subset_number) unit (relation_routine subset_test) → TellsSubset program choice }
    ensures member { (program : FlatProgram) (choice : Choice) (unit : UnitCode) → StackFits program choice → IsHeld program (runtime_key member_number) unit member_routine → TellsMember program choice }
{}
