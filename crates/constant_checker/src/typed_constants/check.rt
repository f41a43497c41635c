//! The checker of first values.

ghost use Rattle.std.specs.Prelude.{◌≡◌, IfOk, IfErr, length, ℕ, List};
ghost use Rattle.type_layout.specs.Layouts.{size_of};
ghost use Rattle.typing_rules.specs.Faults.{Tells, answer_of, IsAnswered};
ghost use Rattle.constant_checker.specs.typed_constants.Trees.{view_initializer};
ghost use Rattle.constant_checker.specs.typed_constants.Initializers.{IsFirst, FailsAt};
ghost use Rattle.constant_checker.specs.typed_constants.Laws.{AreExact, AreWhole};

use crate::typed_constants::initial::first_value;
use scopes::Scope;
use std::alloc::Global;
use syntax_tree::type_tree::Initializer;
use type_layout::{Bytes, Place, TypeId};
use typing_rules::{CheckError, Refusal, error_for};

// What users are told.
fn answered(found: Result<Bytes, Refusal>) -> Result<Bytes, CheckError>
    ensures { result ≡ answer_of found }
{
    match found {
        Ok(bytes) => Ok(bytes),
        Err(refusal) => Err(error_for(refusal)),
    }
}

/// The bytes that a typed constant of a type begins with, which stands at a place. An error names a rule that fails, or what is
/// left out, and the place.
pub fn check_initializer(
    alloc: Global,
    tree: &Initializer,
    scope: &Scope,
    place: Place,
    ty: TypeId,
) -> Result<Bytes, CheckError>
    // Every rule holds in the first value, and these are its bytes.
    ensures typed { IfOk result (λ bytes. IsFirst scope.now place ty (view_initializer tree.now) bytes) }
    // What fits is answered, unless memory runs out.
    ensures complete { (bytes : List ℕ) → IsFirst scope.now place ty (view_initializer tree.now) bytes → IsAnswered (λ all. all) bytes result }
    // What is told of fails there.
    ensures fails { IfErr result (λ error. Tells (FailsAt scope.now place ty (view_initializer tree.now)) error) }
    // The bytes are as many as the type's size.
    ensures whole { IfOk result (λ bytes. length bytes ≡ size_of scope.now.types.types ty) }
{
    let _count = scope.types().count();
    answered(first_value(alloc, tree, scope, place, ty))
}

/// A type and a first value give one list of bytes exactly where no rule fails in it, and that has the size of the type.
pub fn initializer_laws()
    ensures exact { AreExact }
    ensures whole { AreWhole }
{}
