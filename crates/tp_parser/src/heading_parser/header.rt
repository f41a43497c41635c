//! Headers of routines that are no methods.

ghost use Rattle.std.specs.Prelude.{◌≡◌, ◌≤◌, IfOk, length};
ghost use Rattle.syntax_tree.specs.source_tree.Declarations.{of_header};
ghost use Rattle.expression_parser.specs.Gives.{Gives};
ghost use Rattle.expression_parser.specs.Reading.{inside};
ghost use Rattle.tp_parser.specs.heading_parser.Reading.{header_at};

use crate::heading_parser::lookahead::{HeaderStart, header_start};
use expression_parser::{ReadError, identifier, mark};
use pascal_grammar::{Kind, Lexeme};
use std::alloc::Global;
use syntax_tree::source_tree::RoutineHeader;
use type_parser::parameter_parser::{deeper, read_parameters, read_result};

/// The header that the first lexemes spell, and what stands behind it, where at most `depth` constructs may be open at once.
#[tactic(auto, unfolding(crate::specs::heading_parser::Reading::header_by))]
pub fn next_header(
    alloc: Global,
    depth: u32,
    lexemes: &[Lexeme],
) -> Result<(RoutineHeader, &[Lexeme]), ReadError>
    ensures gives { Gives (λ x. (of_header x.0, x.1.now)) result (header_at (inside depth) lexemes.now) }
    ensures shorter { IfOk result (λ x. length x.1.now ≤ length lexemes.now) }
{
    match header_start(lexemes) {
        HeaderStart::Procedure => {
            let depth = deeper(depth, lexemes)?;
            let (position, rest) = mark(lexemes, Kind::Procedure)?;
            let (name, rest) = identifier(rest)?;
            let (parameters, rest) = read_parameters(alloc, depth, rest)?;
            let header = RoutineHeader::Procedure {
                position,
                name,
                parameters,
            };
            Ok((header, rest))
        }
        HeaderStart::Function => {
            let depth = deeper(depth, lexemes)?;
            let (position, rest) = mark(lexemes, Kind::Function)?;
            let (name, rest) = identifier(rest)?;
            let (parameters, rest) = read_parameters(alloc, depth, rest)?;
            let (result, rest) = read_result(rest)?;
            let header = RoutineHeader::Function {
                position,
                name,
                parameters,
                result,
            };
            Ok((header, rest))
        }
        HeaderStart::Nothing => Err(ReadError::Syntax(lexemes.len())),
    }
}
