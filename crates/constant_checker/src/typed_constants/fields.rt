//! Values of fields against the fields that are due.

ghost use Rattle.std.specs.Prelude.{◌≡◌};
ghost use Rattle.std.specs.Option.{option_copied};
ghost use Rattle.typing_rules.specs.Judgements.{Gives};
ghost use Rattle.constant_checker.specs.typed_constants.Initializers.{element_of, due_type, fields_in, is_next, behind_next, due_for, placed, ended, grouped};

use crate::typed_constants::fitting::unfit;
use type_layout::{Bytes, Field, Name, Place, TypeDef, TypeId, Types};
use typing_rules::{Refusal, definition};

/// What is due as an element, where an array is.
pub(crate) fn element_due(types: &Types, due: Option<TypeId>) -> Option<TypeId>
    ensures { result ≡ element_of (due_type types.now.types due) }
{
    match definition(types, due?) {
        Some(TypeDef::ArrayOf { element, .. }) => Some(*element),
        _ => None,
    }
}

/// The fields that are due, where a record is.
pub(crate) fn fields_due(types: &Types, due: Option<TypeId>) -> Option<&[Field]>
    ensures { option_copied result ≡ fields_in (due_type types.now.types due) }
{
    match definition(types, due?) {
        Some(TypeDef::RecordOf { fields }) => Some(fields.as_slice()),
        _ => None,
    }
}

/// What is due for a field, where it is the next one.
pub(crate) fn due_for(due: Option<&[Field]>, name: &Name) -> Option<TypeId>
    ensures { result ≡ due_for (option_copied due.entry) name.now }
{
    match due? {
        [field, ..] if *name == field.name => Some(field.ty),
        _ => None,
    }
}

/// The fields that are due behind the next one.
pub(crate) fn behind_next(due: Option<&[Field]>) -> Option<&[Field]>
    ensures { option_copied result ≡ behind_next (option_copied due.entry) }
{
    match due? {
        [_, rest @ ..] => Some(rest),
        [] => Some(&[]),
    }
}

fn is_next(fields: &[Field], name: &Name) -> bool
    ensures { result ≡ is_next fields.now name.now }
{
    match fields {
        [field, ..] => *name == field.name,
        [] => false,
    }
}

/// The bytes up to a field at a place, which is the next one.
pub(crate) fn placed(
    place: Place,
    due: Option<&[Field]>,
    name: &Name,
    bytes: Bytes,
) -> Result<Bytes, Refusal>
    ensures { Gives (λ all. all) result (placed place (option_copied due.entry) name.now bytes).run }
{
    match due {
        Some(fields) if !is_next(fields, name) => Err(unfit(place)),
        _ => Ok(bytes),
    }
}

/// The bytes up to the end of a group of fields at a place, behind which no field is due.
pub(crate) fn ended(place: Place, due: Option<&[Field]>, bytes: Bytes) -> Result<Bytes, Refusal>
    ensures { Gives (λ all. all) result (ended place (option_copied due.entry) bytes).run }
{
    match due {
        Some([_, ..]) => Err(unfit(place)),
        Some([]) | None => Ok(bytes),
    }
}

/// The bytes of a group of fields at a place, where a record is due.
#[tactic(auto, unfolding(crate::specs::typed_constants::Initializers::grouped))]
pub(crate) fn grouped(
    types: &Types,
    place: Place,
    due: Option<TypeId>,
    bytes: Bytes,
) -> Result<Bytes, Refusal>
    ensures { Gives (λ all. all) result (grouped types.now.types place due bytes).run }
{
    match due {
        None => Ok(bytes),
        Some(ty) => match definition(types, ty) {
            Some(TypeDef::RecordOf { .. }) => Ok(bytes),
            _ => Err(unfit(place)),
        },
    }
}
