//! Statements, for the readers of what holds them.

ghost use Rattle.std.specs.Prelude.{◌≡◌, ◌≤◌, IfOk, List, length, Ok, true};
ghost use Rattle.pascal_grammar.specs.Follows.{follows};
ghost use Rattle.pascal_grammar.specs.Lexemes.{front_kind};
ghost use Rattle.pascal_grammar.specs.Parts.{statement, compound};
ghost use Rattle.pascal_grammar.specs.declared.lexeme.Lexeme.{Lexeme};
ghost use Rattle.syntax_tree.specs.Expressions.{Parsed};
ghost use Rattle.syntax_tree.specs.Statements.{of_statement, compound_of};
ghost use Rattle.expression_parser.specs.Gives.{Gives};
ghost use Rattle.expression_parser.specs.Spelled.{Spelled};
ghost use Rattle.expression_parser.specs.statement_parser.Reading.{within, statement_at, whole_compound_at};

use crate::statement_parser::statement::{next_compound, next_statement};
use crate::{ReadError, begins};
use pascal_grammar::{Kind, Lexeme};
use std::alloc::Global;
use syntax_tree::{CompoundStatement, Statement};

/// The statement that the first lexemes spell, and what stands behind it, where at most `depth` constructs may be open at
/// once. An error is out of memory, or the first lexeme at fault.
pub fn read_statement(
    alloc: Global,
    depth: u32,
    lexemes: &[Lexeme],
) -> Result<(Statement, &[Lexeme]), ReadError>
    // Which fault it is.
    ensures gives { Gives (λ x. (of_statement x.0, x.1.now)) result (statement_at depth (within depth) lexemes.now) }
    ensures shorter { IfOk result (λ x. length x.1.now ≤ length lexemes.now) }
    // What is read is spelled so.
    ensures spelled { IfOk result (λ x. Spelled statement depth lexemes.now (of_statement x.0) x.1.now) }
    // What is spelled so is read, where it is followed by what may follow a statement.
    ensures only { (t : Parsed) (rest : List Lexeme) → Spelled statement depth lexemes.now t rest → follows statement (front_kind rest) ≡ true → Gives {Y = Parsed × List Lexeme} (λ x. (of_statement x.0, x.1.now)) result (Ok (t, rest)) }
{
    next_statement(alloc, depth, lexemes)
}

/// The statements between `begin` and `end` that the first lexemes spell, as `read_statement` reads one.
pub fn read_compound(
    alloc: Global,
    depth: u32,
    lexemes: &[Lexeme],
) -> Result<(CompoundStatement, &[Lexeme]), ReadError>
    ensures gives { Gives (λ x. (compound_of x.0, x.1.now)) result (whole_compound_at depth lexemes.now) }
    ensures shorter { IfOk result (λ x. length x.1.now ≤ length lexemes.now) }
    ensures spelled { IfOk result (λ x. Spelled compound depth lexemes.now (compound_of x.0) x.1.now) }
    ensures only { (t : Parsed) (rest : List Lexeme) → Spelled compound depth lexemes.now t rest → follows compound (front_kind rest) ≡ true → Gives {Y = Parsed × List Lexeme} (λ x. (compound_of x.0, x.1.now)) result (Ok (t, rest)) }
{
    whole_compound(alloc, depth, lexemes)
}

// The same, where nothing may have been begun.
#[tactic(auto, unfolding(crate::specs::statement_parser::Reading::compound_by))]
fn whole_compound(
    alloc: Global,
    depth: u32,
    lexemes: &[Lexeme],
) -> Result<(CompoundStatement, &[Lexeme]), ReadError>
    ensures gives { Gives (λ x. (compound_of x.0, x.1.now)) result (whole_compound_at depth lexemes.now) }
{
    if !begins(lexemes, Kind::Begin) {
        return Err(ReadError::Syntax(lexemes.len()));
    }
    next_compound(alloc, depth, lexemes)
}
