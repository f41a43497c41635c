//! Nodes that hold other nodes.

ghost use Rattle.std.specs.Prelude.{◌≡◌, IfErr, IfOk, List, [], ◌∷◌};
ghost use Rattle.pascal_grammar.specs.Productions.{assignment, no_arguments, called, no_more_arguments, no_cast, compound_statement, if_statement, with_else, while_statement, for_statement, with_statement, with_body, next_designator};
ghost use Rattle.syntax_tree.specs.Expressions.{of, word, mark_at, name_of, of_expression};
ghost use Rattle.syntax_tree.specs.Statements.{of_statement, named_of, arguments_of, compound_of, of_else, of_with, designator_of, direction_of};
ghost use Rattle.expression_parser.specs.declared.error.ReadError.TheVariants.{NoMemory};

use crate::ReadError;
use pascal_grammar::Position;
use std::alloc::Global;
use syntax_tree::{
    Argument, CompoundStatement, Designator, ElsePart, Expression, Identifier, PlacedDirection,
    Statement, WithRest,
};

/// An assignment.
pub fn assignment_node(
    alloc: Global,
    target: Designator,
    value: Expression,
) -> Result<Statement, ReadError>
    ensures ok { IfOk result (λ x. of_statement x ≡ named_of target (of assignment (word ∷ of_expression value ∷ []))) }
    ensures err { IfErr result (λ e. e ≡ NoMemory) }
{
    let target = Box::new(alloc, target)?;
    Ok(Statement::Assignment { target, value })
}

/// A call for which no arguments are written.
pub fn bare_call_node(alloc: Global, callee: Designator) -> Result<Statement, ReadError>
    ensures ok { IfOk result (λ x. of_statement x ≡ named_of callee (of no_arguments [])) }
    ensures err { IfErr result (λ e. e ≡ NoMemory) }
{
    let callee = Box::new(alloc, callee)?;
    Ok(Statement::BareCall { callee })
}

/// A call with arguments.
pub fn call_node(
    alloc: Global,
    callee: Designator,
    arguments: Vec<Argument>,
) -> Result<Statement, ReadError>
    ensures ok { IfOk result (λ x. of_statement x ≡ named_of callee (of called (arguments_of arguments.items (of no_more_arguments []) ∷ of no_cast [] ∷ []))) }
    ensures err { IfErr result (λ e. e ≡ NoMemory) }
{
    let callee = Box::new(alloc, callee)?;
    Ok(Statement::ProcedureCall { callee, arguments })
}

/// A compound statement as a statement.
#[tactic(auto, using(crate::proofs::statement_parser::Rows::compound_is))]
pub fn compound_node(compound: CompoundStatement) -> Statement
    ensures { of_statement result ≡ of compound_statement (compound_of compound ∷ []) }
{
    Statement::Compound(compound)
}

/// An `if`.
pub fn if_node(
    alloc: Global,
    position: Position,
    condition: Expression,
    body: Statement,
    otherwise: ElsePart,
) -> Result<Statement, ReadError>
    ensures ok { IfOk result (λ x. of_statement x ≡ of if_statement (mark_at position ∷ of_expression condition ∷ word ∷ of_statement body ∷ of_else otherwise ∷ [])) }
    ensures err { IfErr result (λ e. e ≡ NoMemory) }
{
    match Box::new(alloc, body) {
        Ok(body) => Ok(Statement::If {
            position,
            condition,
            body,
            otherwise,
        }),
        Err(_) => Err(ReadError::NoMemory),
    }
}

/// An `else` with its statement.
pub fn else_node(alloc: Global, body: Statement) -> Result<ElsePart, ReadError>
    ensures ok { IfOk result (λ x. of_else x ≡ of with_else (word ∷ of_statement body ∷ [])) }
    ensures err { IfErr result (λ e. e ≡ NoMemory) }
{
    let body = Box::new(alloc, body)?;
    Ok(ElsePart::Present(body))
}

/// A `while`.
pub fn while_node(
    alloc: Global,
    position: Position,
    condition: Expression,
    body: Statement,
) -> Result<Statement, ReadError>
    ensures ok { IfOk result (λ x. of_statement x ≡ of while_statement (mark_at position ∷ of_expression condition ∷ word ∷ of_statement body ∷ [])) }
    ensures err { IfErr result (λ e. e ≡ NoMemory) }
{
    match Box::new(alloc, body) {
        Ok(body) => Ok(Statement::While {
            position,
            condition,
            body,
        }),
        Err(_) => Err(ReadError::NoMemory),
    }
}

/// A `for`.
pub fn for_node(
    alloc: Global,
    position: Position,
    variable: Identifier,
    first: Expression,
    direction: PlacedDirection,
    last: Expression,
    body: Statement,
) -> Result<Statement, ReadError>
    ensures ok { IfOk result (λ x. of_statement x ≡ of for_statement (mark_at position ∷ name_of variable ∷ word ∷ of_expression first ∷ direction_of direction ∷ of_expression last ∷ word ∷ of_statement body ∷ [])) }
    ensures err { IfErr result (λ e. e ≡ NoMemory) }
{
    let body = Box::new(alloc, body)?;
    Ok(Statement::For {
        position,
        variable,
        first,
        direction,
        last,
        body,
    })
}

/// A `with`.
pub fn with_node(
    alloc: Global,
    position: Position,
    designator: Designator,
    rest: WithRest,
) -> Result<Statement, ReadError>
    ensures ok { IfOk result (λ x. of_statement x ≡ of with_statement (mark_at position ∷ designator_of designator ∷ of_with rest ∷ [])) }
    ensures err { IfErr result (λ e. e ≡ NoMemory) }
{
    let designator = Box::new(alloc, designator)?;
    let rest = Box::new(alloc, rest)?;
    Ok(Statement::With {
        position,
        designator,
        rest,
    })
}

/// The body of a `with`.
pub fn with_body_node(alloc: Global, body: Statement) -> Result<WithRest, ReadError>
    ensures ok { IfOk result (λ x. of_with x ≡ of with_body (word ∷ of_statement body ∷ [])) }
    ensures err { IfErr result (λ e. e ≡ NoMemory) }
{
    let body = Box::new(alloc, body)?;
    Ok(WithRest::Body(body))
}

/// One more designator of a `with`, and what stands behind it.
pub fn with_next_node(
    alloc: Global,
    designator: Designator,
    rest: WithRest,
) -> Result<WithRest, ReadError>
    ensures ok { IfOk result (λ x. of_with x ≡ of next_designator (word ∷ designator_of designator ∷ of_with rest ∷ [])) }
    ensures err { IfErr result (λ e. e ≡ NoMemory) }
{
    let designator = Box::new(alloc, designator)?;
    let rest = Box::new(alloc, rest)?;
    Ok(WithRest::Next(designator, rest))
}
