//! The checker of constant expressions.

ghost use Rattle.std.specs.Prelude.{◌≡◌, IfOk, IfErr};
ghost use Rattle.typing_rules.specs.Faults.{Tells, answer_of, IsAnswered};
ghost use Rattle.syntax_tree.specs.expression_tree.Trees.{view_simple};
ghost use Rattle.constant_checker.specs.constant_expressions.Values.{itself};
ghost use Rattle.constant_checker.specs.constant_expressions.Constants.{IsConstant, FailsAt};
ghost use Rattle.constant_checker.specs.constant_expressions.Laws.{AreExact, AreSetsOf};

use crate::constant_expressions::constants::Constant;
use crate::constant_expressions::expressions::constant_of;
use scopes::Scope;
use std::alloc::Global;
use syntax_tree::SimpleExpression;
use typing_rules::{CheckError, Refusal, error_for};

// What users are told.
fn answered(found: Result<Constant, Refusal>) -> Result<Constant, CheckError>
    ensures { result ≡ answer_of found }
{
    match found {
        Ok(constant) => Ok(constant),
        Err(refusal) => Err(error_for(refusal)),
    }
}

/// The value of a constant expression, and its type. An error names a rule that fails, or what is left out, and the place.
pub fn check_constant(
    alloc: Global,
    tree: &SimpleExpression,
    scope: &Scope,
) -> Result<Constant, CheckError>
    // Every rule holds in the expression, and this is its value.
    ensures typed { IfOk result (λ c. IsConstant scope.now (view_simple tree.now) c) }
    // What is a constant is answered, unless memory runs out.
    ensures complete { (c : Constant) → IsConstant scope.now (view_simple tree.now) c → IsAnswered itself c result }
    // What is told of fails there.
    ensures fails { IfErr result (λ error. Tells (FailsAt scope.now (view_simple tree.now)) error) }
{
    answered(constant_of(alloc, tree, scope))
}

/// An expression is a constant exactly where no rule on constants fails in it, and then it is one alone; a constant set has the
/// elements that it is made of.
pub fn constant_laws()
    ensures exact { AreExact }
    ensures sets { AreSetsOf }
{}
