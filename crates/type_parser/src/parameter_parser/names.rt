//! Names behind commas.

ghost use Rattle.std.specs.Prelude.{◌≡◌, ◌≤◌, IfOk, length};
ghost use Rattle.expression_parser.specs.Gives.{Gives};
ghost use Rattle.type_parser.specs.parameter_parser.Reading.{identifiers_at};
ghost use Rattle.syntax_tree.specs.type_tree.Parameters.{identifiers_of};

use crate::parameter_parser::list::push;
use expression_parser::{ReadError, begins, identifier, tail};
use pascal_grammar::{Kind, Lexeme};
use std::alloc::Global;
use syntax_tree::Identifier;

/// The names that stand there, at least one, and what stands behind them.
#[tactic(auto, unfolding(crate::specs::parameter_parser::Reading::identifiers_at))]
pub fn next_identifiers(
    alloc: Global,
    lexemes: &[Lexeme],
) -> Result<(Vec<Identifier>, &[Lexeme]), ReadError>
    ensures gives { Gives (λ x. (identifiers_of x.0.items, x.1.now)) result (identifiers_at lexemes.now) }
    ensures shorter { IfOk result (λ x. length x.1.now ≤ length lexemes.now) }
{
    let mut all = Vec::new(alloc);
    let (first, mut rest) = identifier(lexemes)?;
    push(&mut all, first)?;
    'commas: while begins(rest, Kind::Comma) {
        let (next, after) = identifier(tail(rest))?;
        push(&mut all, next)?;
        rest = after;
    }
    Ok((all, rest))
}
