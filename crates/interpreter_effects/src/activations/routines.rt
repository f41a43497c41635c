//! What a routine's header and variables say.

ghost use Rattle.std.specs.Prelude.{◌≡◌, ◌++◌, map, IfOk, OnOk};
ghost use Rattle.type_layout.specs.declared.definitions.Param.{Param as ParamOf};
ghost use Rattle.typed_tree.specs.type_fits.Routines.{listed, variables_of};
ghost use Rattle.tp_meaning.specs.Activations.{is_self_of, is_alias, result_number, is_constructor};

use std::alloc::{AllocError, Global};
use type_layout::{Kind, Param, TypeId};
use typed_tree::Routine;

/// Whether a variable of a routine is Self of a method, which is numbered behind the parameters.
pub(crate) fn is_self_of(routine: &Routine, number: u32) -> bool
    ensures { result ≡ is_self_of routine.now number }
{
    routine.owner.is_some() && number as usize == routine.header.params.len()
}

/// Whether a variable stands for the place that it was given: Self and variable parameters do.
pub(crate) fn is_alias(routine: &Routine, number: u32) -> bool
    ensures { result ≡ is_alias routine.now number }
{
    match routine.header.params.as_slice().get(number as usize) {
        None => is_self_of(routine, number),
        Some(param) => param.by_ref,
    }
}

fn append_params(params: &[Param], to: &mut Vec<TypeId>) -> Result<(), AllocError>
    ensures { OnOk result (to.new.items ≡ to.old.items ++ map (λ (param : ParamOf). param.ty) params.now) }
{
    'params: for param in params {
        to.push(param.ty)?;
    }
    Ok(())
}

fn append_listed(ty: Option<TypeId>, to: &mut Vec<TypeId>) -> Result<(), AllocError>
    ensures { OnOk result (to.new.items ≡ to.old.items ++ listed ty) }
{
    match ty {
        None => Ok(()),
        Some(ty) => {
            to.push(ty)?;
            Ok(())
        }
    }
}

/// The types of a routine's variables, in the order of their numbers.
pub(crate) fn variables_of(alloc: Global, routine: &Routine) -> Result<Vec<TypeId>, AllocError>
    ensures { IfOk result (λ types. types.items ≡ variables_of routine.now) }
{
    let mut types = Vec::new(alloc);
    append_params(routine.header.params.as_slice(), &mut types)?;
    append_listed(routine.owner, &mut types)?;
    append_listed(routine.header.result, &mut types)?;
    types.extend_from_slice(routine.locals.as_slice())?;
    Ok(types)
}

/// The number of a function's result among its variables. A number that passes 64 bits is answered as out of memory.
pub(crate) fn result_number(routine: &Routine) -> Result<usize, AllocError>
    ensures { IfOk result (λ number. number ≡ result_number routine.now) }
{
    let own = if routine.owner.is_some() { 1 } else { 0 };
    routine
        .header
        .params
        .len()
        .checked_add(own)
        .ok_or(AllocError)
}

/// Whether a routine is a constructor.
pub(crate) fn is_constructor(kind: Kind) -> bool
    ensures { result ≡ is_constructor kind }
{
    match kind {
        Kind::Constructor => true,
        Kind::Procedure | Kind::Function | Kind::Destructor => false,
    }
}
