//! Arguments of calls.

ghost use Rattle.std.specs.Prelude.{◌≡◌, ◌++◌, ◌∷◌, [], map, IfOk};
ghost use Rattle.tp_meaning.specs.Standard.{handed};
ghost use Rattle.interpreter_store.specs.cell_store.Views.{view_value};
ghost use Rattle.interpreter_effects.specs.standard_effects.Operands.{view_operand};

use interpreter_effects::standard_effects::{Operand, handed};
use interpreter_store::cell_store::Value;
use std::alloc::{AllocError, Global};

/// The arguments as they are handed to a routine of the sources.
pub fn all_handed(alloc: Global, args: Vec<Operand>) -> Result<Vec<Value>, AllocError>
    ensures { IfOk result (λ values. map view_value values.items ≡ map handed (map view_operand args.entry.items)) }
{
    let mut values = Vec::new(alloc);
    'operands: for operand in args {
        values.push(handed(operand))?;
    }
    Ok(values)
}

/// An argument behind others.
pub fn operand_behind<'a>(
    front: Vec<Operand<'a>>,
    last: Operand<'a>,
) -> Result<Vec<Operand<'a>>, AllocError>
    ensures { IfOk result (λ all. map view_operand all.items ≡ map view_operand front.entry.items ++ view_operand last.entry ∷ []) }
{
    let mut all = front;
    all.push(last)?;
    Ok(all)
}
