//! Constants, types and variables behind their word.

ghost use Rattle.std.specs.Prelude.{◌≡◌, ◌≤◌, IfOk, length, suc};
ghost use Rattle.syntax_tree.specs.source_tree.Declarations.{Words, of_part};
ghost use Rattle.expression_parser.specs.Gives.{Gives};
ghost use Rattle.tp_parser.specs.declaration_parser.Reading.{part_by};

use crate::declaration_parser::list::{next_constants, next_types, next_variables};
use crate::declaration_parser::lookahead::PartStart;
use expression_parser::{ReadError, mark};
use pascal_grammar::{Kind, Lexeme};
use std::alloc::Global;
use syntax_tree::source_tree::DeclarationPart;

/// What a word declares, and what stands behind it, where at most `depth` constructs may be open at once.
#[tactic(auto, unfolding(crate::specs::declaration_parser::Reading::part_by))]
pub fn read_part(
    alloc: Global,
    depth: u32,
    start: PartStart,
    lexemes: &[Lexeme],
) -> Result<(DeclarationPart, &[Lexeme]), ReadError>
    // In a block as in an interface part.
    ensures gives { (w : Words) → Gives (λ x. ((λ more. of_part w x.0 more), x.1.now)) result (part_by w start depth lexemes.now) }
    ensures shorter { IfOk result (λ x. suc (length x.1.now) ≤ length lexemes.now) }
{
    match start {
        PartStart::Constants => {
            let (position, rest) = mark(lexemes, Kind::Const)?;
            let (constants, rest) = next_constants(alloc, depth, rest)?;
            let part = DeclarationPart::Constants {
                position,
                constants,
            };
            Ok((part, rest))
        }
        PartStart::Types => {
            let (position, rest) = mark(lexemes, Kind::Type)?;
            let (types, rest) = next_types(alloc, depth, rest)?;
            Ok((DeclarationPart::Types { position, types }, rest))
        }
        PartStart::Variables => {
            let (position, rest) = mark(lexemes, Kind::Var)?;
            let (variables, rest) = next_variables(alloc, depth, rest)?;
            let part = DeclarationPart::Variables {
                position,
                variables,
            };
            Ok((part, rest))
        }
    }
}
