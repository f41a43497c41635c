//! Conversions and tests of values.

ghost use Rattle.std.specs.Prelude.{◌≡◌, ℕ, Some};
ghost use Rattle.type_layout.specs.declared.definitions.TypeDef.TheVariants as type;
ghost use Rattle.tp_meaning.specs.Trees.{Ordinal};
ghost use Rattle.std.specs.Option.{option_copied};
ghost use Rattle.tp_meaning.specs.Operators.{converted, is_between, within, ranged, element_of, spanned};
ghost use Rattle.interpreter_store.specs.cell_store.Views.{view_value};
ghost use Rattle.interpreter_store.specs.cell_store.Finding.{Finds, Gets};

use crate::cell_store::{Stop, Trap, Value};
use crate::value_operators::numbers::kept_as;
use common_values::sets::with_range;
use std::alloc::Global;
use type_layout::{Bytes, TypeDef, storage_of};

// A Char as a string. One above 255, which no typed program has, is answered as out of memory.
fn char_as_text(alloc: Global, z: i32) -> Result<Value, Stop>
    ensures { (max : ℕ) → Gets view_value result (converted (Some (type.Str max)) (Ordinal z)) }
{
    if z < 0 {
        return Err(Stop::Trapped(Trap::IllTyped));
    }
    if z > 255 {
        return Err(Stop::OutOfMemory);
    }
    Ok(Value::Text(Bytes::from_slice(alloc, &[z as u8])?))
}

/// An ordinal by the low bytes of what stores a type, or a Char as a string.
pub fn converted(alloc: Global, ty: Option<&TypeDef>, value: &Value) -> Result<Value, Stop>
    ensures { Gets view_value result (converted (option_copied ty.entry) (view_value value.now)) }
{
    let Some(ty) = ty else {
        return Err(Stop::Trapped(Trap::IllTyped));
    };
    match ty {
        TypeDef::Ordinal { host, low, high } => match value {
            Value::Ordinal(z) => {
                let storage = storage_of(*host, *low, *high);
                Ok(Value::Ordinal(kept_as(storage, i64::from(*z))))
            }
            _ => Err(Stop::Trapped(Trap::IllTyped)),
        },
        TypeDef::Str { .. } => match value {
            Value::Ordinal(z) => char_as_text(alloc, *z),
            _ => Err(Stop::Trapped(Trap::IllTyped)),
        },
        _ => Err(Stop::Trapped(Trap::IllTyped)),
    }
}

/// Whether a number lies between two bounds, both included.
pub fn is_between(low: i32, high: i32, z: i32) -> bool
    ensures { result ≡ is_between low high z }
{
    low <= z && z <= high
}

/// A number that must lie between two bounds: error 201 outside.
pub fn within(low: i32, high: i32, z: i32) -> Result<i32, Trap>
    ensures { Finds (λ z. z) result (within low high z) }
{
    if is_between(low, high, z) {
        Ok(z)
    } else {
        Err(Trap::Error(201))
    }
}

/// An ordinal that must lie between two bounds.
pub fn ranged(low: i32, high: i32, value: &Value) -> Result<Value, Trap>
    ensures { Finds view_value result (ranged low high (view_value value.now)) }
{
    Ok(Value::Ordinal(within(low, high, value.number()?)?))
}

fn element_number(z: i32) -> Result<u8, Trap>
    ensures { Finds (λ element. element) result (element_of (Ordinal z)) }
{
    if 0 <= z && z < 256 {
        Ok(z as u8)
    } else {
        Err(Trap::Act(3))
    }
}

/// An element of a set: outside 0 to 255 it is an undefined act.
pub fn element_of(value: &Value) -> Result<u8, Trap>
    ensures { Finds (λ element. element) result (element_of (view_value value.now)) }
{
    element_number(value.number()?)
}

/// The set with the elements from one number to another. A range that is empty adds nothing, whatever its bounds are.
pub fn spanned(alloc: Global, set: Vec<u8>, low: &Value, high: &Value) -> Result<Vec<u8>, Stop>
    ensures { Gets (λ more. more.items) result (spanned set.items (view_value low.now) (view_value high.now)) }
{
    let first = low.number()?;
    let last = high.number()?;
    if last < first {
        return Ok(set);
    }
    let m = element_of(low)?;
    let n = element_of(high)?;
    Ok(with_range(alloc, set.as_slice(), m, n)?)
}
