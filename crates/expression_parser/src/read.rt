//! Expressions and their parts, for the readers of what holds them.

ghost use Rattle.std.specs.Prelude.{◌≡◌, ◌≤◌, IfOk, List, [], length, Ok, true};
ghost use Rattle.pascal_grammar.specs.Follows.{follows};
ghost use Rattle.pascal_grammar.specs.Lexemes.{front_kind};
ghost use Rattle.pascal_grammar.specs.Parts.{expression, simple};
ghost use Rattle.pascal_grammar.specs.Productions.{no_terms, no_selectors, no_more_arguments};
ghost use Rattle.pascal_grammar.specs.declared.lexeme.Lexeme.{Lexeme};
ghost use Rattle.syntax_tree.specs.Expressions.{Parsed, of, of_expression, of_simple, head_of, selectors};
ghost use Rattle.expression_parser.specs.Gives.{Gives};
ghost use Rattle.expression_parser.specs.Reading.{inside, expression_at, simple_at, named_at, arguments_at};
ghost use Rattle.expression_parser.specs.Spelled.{Spelled};
ghost use Rattle.expression_parser.specs.Views.{arguments_of};

use crate::error::ReadError;
use crate::expressions::{next_arguments, next_designator, next_expression, next_simple};
use pascal_grammar::Lexeme;
use std::alloc::Global;
use syntax_tree::{Argument, Designator, Expression, SimpleExpression};

/// The expression that the first lexemes spell, and what stands behind it, where at most `depth` constructs may be open at
/// once. An error is out of memory, or the first lexeme at fault.
pub fn read_expression(
    alloc: Global,
    depth: u32,
    lexemes: &[Lexeme],
) -> Result<(Expression, &[Lexeme]), ReadError>
    // Which fault it is.
    ensures gives { Gives (λ x. (of_expression x.0, x.1.now)) result (expression_at (inside depth) lexemes.now) }
    ensures shorter { IfOk result (λ x. length x.1.now ≤ length lexemes.now) }
    // What is read is spelled so.
    ensures spelled { IfOk result (λ x. Spelled expression depth lexemes.now (of_expression x.0) x.1.now) }
    // What is spelled so is read, where it is followed by what may follow an expression.
    ensures only { (t : Parsed) (rest : List Lexeme) → Spelled expression depth lexemes.now t rest → follows expression (front_kind rest) ≡ true → Gives {Y = Parsed × List Lexeme} (λ x. (of_expression x.0, x.1.now)) result (Ok (t, rest)) }
{
    next_expression(alloc, depth, lexemes)
}

/// The simple expression that the first lexemes spell, as `read_expression` reads one.
pub fn read_simple(
    alloc: Global,
    depth: u32,
    lexemes: &[Lexeme],
) -> Result<(SimpleExpression, &[Lexeme]), ReadError>
    ensures gives { Gives (λ x. (of_simple x.0 (of no_terms []), x.1.now)) result (simple_at (inside depth) lexemes.now) }
    ensures shorter { IfOk result (λ x. length x.1.now ≤ length lexemes.now) }
    ensures spelled { IfOk result (λ x. Spelled simple depth lexemes.now (of_simple x.0 (of no_terms [])) x.1.now) }
    ensures only { (t : Parsed) (rest : List Lexeme) → Spelled simple depth lexemes.now t rest → follows simple (front_kind rest) ≡ true → Gives {Y = Parsed × List Lexeme} (λ x. (of_simple x.0 (of no_terms []), x.1.now)) result (Ok (t, rest)) }
{
    next_simple(alloc, depth, lexemes)
}

/// The name with its selectors that the first lexemes spell, and what stands behind them.
pub fn read_designator(
    alloc: Global,
    depth: u32,
    lexemes: &[Lexeme],
) -> Result<(Designator, &[Lexeme]), ReadError>
    ensures gives { Gives (λ x. ((head_of x.0, selectors x.0 (of no_selectors [])), x.1.now)) result (named_at (inside depth) lexemes.now) }
    ensures shorter { IfOk result (λ x. length x.1.now ≤ length lexemes.now) }
{
    next_designator(alloc, depth, lexemes)
}

/// The arguments in parentheses that the first lexemes spell, at least one, and what stands behind them.
pub fn read_arguments(
    alloc: Global,
    depth: u32,
    lexemes: &[Lexeme],
) -> Result<(Vec<Argument>, &[Lexeme]), ReadError>
    ensures gives { Gives (λ x. (arguments_of x.0.items (of no_more_arguments []), x.1.now)) result (arguments_at (inside depth) lexemes.now) }
    ensures shorter { IfOk result (λ x. length x.1.now ≤ length lexemes.now) }
{
    let (arguments, rest) = next_arguments(alloc, depth, lexemes)?;
    Ok((arguments.items, rest))
}
