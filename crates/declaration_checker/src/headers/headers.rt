//! Headers.

ghost use Rattle.std.specs.Prelude.{◌≡◌, option_copied};
ghost use Rattle.typing_rules.specs.Judgements.{Gives};
ghost use Rattle.declaration_checker.specs.headers.Names.{itself};
ghost use Rattle.declaration_checker.specs.headers.Headers.{is_result, result_of, procedure_header, function_header, routine_header, method_header};

use crate::headers::limits::limited;
use crate::headers::names::named_type;
use crate::headers::parameters::parameters;
use scopes::Scope;
use std::alloc::Global;
use syntax_tree::source_tree::RoutineHeader;
use syntax_tree::type_tree::{MethodHeader, NamedType, ParameterGroup};
use type_layout::{Header, Kind, Place, TypeId};
use typing_rules::{Refusal, Rule, Sort, broken, sort_of_type};

fn is_result(sort: Sort) -> bool
    ensures { result ≡ is_result sort }
{
    !matches!(sort, Sort::Set(_) | Sort::Nil | Sort::Other)
}

// The result of a function that begins at a place.
fn result_of(scope: &Scope, place: Place, one: Option<&NamedType>) -> Result<TypeId, Refusal>
    ensures { Gives itself result (result_of scope.now place (option_copied one.entry)).run }
{
    match one {
        Some(one) => {
            let ty = named_type(scope, one)?;
            if is_result(sort_of_type(scope.types(), ty)) {
                Ok(ty)
            } else {
                Err(Refusal::Because(broken(place, Rule::ResultType)))
            }
        }
        None => Err(Refusal::Because(broken(place, Rule::ResultType))),
    }
}

/// The header of a procedure, a constructor or a destructor that begins at a place. A method has Self besides its parameters.
pub fn procedure_header(
    alloc: Global,
    scope: &Scope,
    is_method: bool,
    place: Place,
    kind: Kind,
    groups: &[ParameterGroup],
) -> Result<Header, Refusal>
    ensures { Gives (λ header. header) result (procedure_header scope.now is_method place kind groups.now).run }
{
    let params = parameters(alloc, scope, groups)?;
    let header = Header {
        kind,
        params,
        result: None,
    };
    limited(scope.types(), is_method, place, header)
}

/// The header of a function that begins at a place. It has a result, and that is an ordinal, a pointer or a string.
pub fn function_header(
    alloc: Global,
    scope: &Scope,
    is_method: bool,
    place: Place,
    groups: &[ParameterGroup],
    result_type: Option<&NamedType>,
) -> Result<Header, Refusal>
    ensures { Gives (λ header. header) result (function_header scope.now is_method place groups.now (option_copied result_type.entry)).run }
{
    let params = parameters(alloc, scope, groups)?;
    let ty = result_of(scope, place, result_type)?;
    let header = Header {
        kind: Kind::Function,
        params,
        result: Some(ty),
    };
    limited(scope.types(), is_method, place, header)
}

/// The header of a routine that is no method.
pub fn routine_header(alloc: Global, scope: &Scope, one: &RoutineHeader) -> Result<Header, Refusal>
    ensures { Gives (λ header. header) result (routine_header scope.now one.now).run }
{
    match one {
        RoutineHeader::Procedure {
            position,
            parameters,
            ..
        } => {
            let groups = parameters.as_slice();
            procedure_header(alloc, scope, false, position.place, Kind::Procedure, groups)
        }
        RoutineHeader::Function {
            position,
            parameters,
            result,
            ..
        } => {
            let groups = parameters.as_slice();
            function_header(alloc, scope, false, position.place, groups, result.as_ref())
        }
    }
}

/// The header of a method.
pub fn method_header(alloc: Global, scope: &Scope, one: &MethodHeader) -> Result<Header, Refusal>
    ensures { Gives (λ header. header) result (method_header scope.now one.now).run }
{
    match one {
        MethodHeader::Procedure {
            position,
            parameters,
            ..
        } => {
            let groups = parameters.as_slice();
            procedure_header(alloc, scope, true, position.place, Kind::Procedure, groups)
        }
        MethodHeader::Function {
            position,
            parameters,
            result,
            ..
        } => {
            let groups = parameters.as_slice();
            function_header(alloc, scope, true, position.place, groups, result.as_ref())
        }
        MethodHeader::Constructor {
            position,
            parameters,
            ..
        } => {
            let groups = parameters.as_slice();
            procedure_header(
                alloc,
                scope,
                true,
                position.place,
                Kind::Constructor,
                groups,
            )
        }
        MethodHeader::Destructor {
            position,
            parameters,
            ..
        } => {
            let groups = parameters.as_slice();
            procedure_header(alloc, scope, true, position.place, Kind::Destructor, groups)
        }
    }
}
