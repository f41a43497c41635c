//! The checker of statements.

ghost use Rattle.std.specs.Prelude.{◌≡◌, IfOk, IfErr};
ghost use Rattle.typed_tree.specs.Statements.{Statement as TypedStatement, view_stmt};
ghost use Rattle.typing_rules.specs.Faults.{Tells, answer_of, IsAnswered};
ghost use Rattle.syntax_tree.specs.statement_tree.Trees.{view_statement};
ghost use Rattle.tp_check_stmt.specs.Typed.{IsStatedAs, FailsAt};
ghost use Rattle.tp_check_stmt.specs.Laws.{AreExact};

use crate::statements::stated;
use scopes::Scope;
use std::alloc::Global;
use syntax_tree::Statement;
use typed_tree::Stmt;
use typing_rules::{CheckError, Refusal, error_for};

// What users are told.
fn answered(found: Result<Stmt, Refusal>) -> Result<Stmt, CheckError>
    ensures { result ≡ answer_of found }
{
    match found {
        Ok(stmt) => Ok(stmt),
        Err(refusal) => Err(error_for(refusal)),
    }
}

/// The typed node of a statement. An error names a rule that fails, or what is left out, and the place. The scope is
/// afterwards as it was, also after an error.
pub fn check_stmt(alloc: Global, tree: &Statement, scope: &mut Scope) -> Result<Stmt, CheckError>
    // Every rule holds in the statement, and this is its node.
    ensures typed { IfOk result (λ s. IsStatedAs scope.old (view_statement tree.now) (view_stmt s)) }
    // A statement with a node is given it, unless memory runs out.
    ensures complete { (s : TypedStatement) → IsStatedAs scope.old (view_statement tree.now) s → IsAnswered view_stmt s result }
    // What is told of fails there.
    ensures fails { IfErr result (λ error. Tells (FailsAt scope.old (view_statement tree.now)) error) }
    ensures unchanged { scope.new ≡ scope.old }
{
    answered(stated(alloc, tree, scope))
}

/// A statement has a typed node exactly where no rule fails in it, and then one alone.
pub fn statement_laws()
    ensures { AreExact }
{}
