//! The checker of expressions.

ghost use Rattle.std.specs.Prelude.{◌≡◌, IfOk, IfErr};
ghost use Rattle.typed_tree.specs.Expressions.{Expression as TypedExpression, view_expr};
ghost use Rattle.typing_rules.specs.Faults.{Tells, answer_of, IsAnswered};
ghost use Rattle.typing_rules.specs.Judgements.{Gives};
ghost use Rattle.syntax_tree.specs.expression_tree.Trees.{view_expression};
ghost use Rattle.tp_check_expr.specs.Typed.{judged, IsTypedAs, FailsAt};
ghost use Rattle.tp_check_expr.specs.Laws.{AreExact};

use crate::expressions::expression_as;
use crate::names::Purpose;
use scopes::Scope;
use std::alloc::Global;
use syntax_tree::Expression;
use typed_tree::Expr;
use typing_rules::{CheckError, Refusal, error_for};

// What users are told.
fn answered(found: Result<Expr, Refusal>) -> Result<Expr, CheckError>
    ensures { result ≡ answer_of found }
{
    match found {
        Ok(expr) => Ok(expr),
        Err(refusal) => Err(error_for(refusal)),
    }
}

/// The node of the value of an expression.
pub fn judged_expression(alloc: Global, tree: &Expression, scope: &Scope) -> Result<Expr, Refusal>
    ensures { Gives view_expr result (judged scope.now (view_expression tree.now)).run }
{
    expression_as(alloc, tree, Purpose::Value, scope)
}

/// The typed node of an expression. An error names a rule that fails, or what is left out, and the place. The scope stays as
/// it is.
pub fn check_expr(alloc: Global, tree: &Expression, scope: &mut Scope) -> Result<Expr, CheckError>
    // Every rule holds in the expression, and this is its node.
    ensures typed { IfOk result (λ e. IsTypedAs scope.old (view_expression tree.now) (view_expr e)) }
    // An expression with a node is given it, unless memory runs out.
    ensures complete { (e : TypedExpression) → IsTypedAs scope.old (view_expression tree.now) e → IsAnswered view_expr e result }
    // What is told of fails there.
    ensures fails { IfErr result (λ error. Tells (FailsAt scope.old (view_expression tree.now)) error) }
    ensures unchanged { scope.new ≡ scope.old }
{
    answered(judged_expression(alloc, tree, scope))
}

/// An expression has a typed node exactly where no rule fails in it, and then one alone.
pub fn expression_laws()
    ensures { AreExact }
{}
