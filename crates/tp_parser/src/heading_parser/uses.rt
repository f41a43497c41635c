//! Uses clauses.

ghost use Rattle.std.specs.Prelude.{◌≡◌, ◌≤◌, IfOk, length};
ghost use Rattle.syntax_tree.specs.source_tree.Sources.{uses_clause};
ghost use Rattle.expression_parser.specs.Gives.{Gives};
ghost use Rattle.tp_parser.specs.heading_parser.Reading.{uses_at};

use expression_parser::{ReadError, begins, skip};
use pascal_grammar::{Kind, Lexeme};
use std::alloc::Global;
use syntax_tree::Identifier;
use type_parser::parameter_parser::read_identifiers;

/// The units that a uses clause names, none where no clause stands there, and what stands behind it.
#[tactic(auto, using(crate::proofs::heading_parser::Names::uses_named), unfolding(crate::specs::heading_parser::Reading::uses_by))]
pub fn next_uses(
    alloc: Global,
    lexemes: &[Lexeme],
) -> Result<(Vec<Identifier>, &[Lexeme]), ReadError>
    ensures gives { Gives (λ x. (uses_clause x.0.items, x.1.now)) result (uses_at lexemes.now) }
    ensures shorter { IfOk result (λ x. length x.1.now ≤ length lexemes.now) }
{
    if !begins(lexemes, Kind::Uses) {
        return Ok((Vec::new(alloc), lexemes));
    }
    let rest = skip(lexemes, Kind::Uses)?;
    let (names, rest) = read_identifiers(alloc, rest)?;
    let rest = skip(rest, Kind::Semicolon)?;
    Ok((names, rest))
}
