//! Types, for the readers of what holds them.

ghost use Rattle.std.specs.Prelude.{◌≡◌, ◌≤◌, IfOk, List, length, Ok, true};
ghost use Rattle.pascal_grammar.specs.Follows.{follows};
ghost use Rattle.pascal_grammar.specs.Lexemes.{front_kind};
ghost use Rattle.pascal_grammar.specs.Parts.{type};
ghost use Rattle.pascal_grammar.specs.declared.lexeme.Lexeme.{Lexeme};
ghost use Rattle.syntax_tree.specs.Expressions.{Parsed};
ghost use Rattle.expression_parser.specs.Gives.{Gives};
ghost use Rattle.expression_parser.specs.Spelled.{Spelled};
ghost use Rattle.type_parser.specs.Reading.{type_at, typed_inside};
ghost use Rattle.syntax_tree.specs.type_tree.Types.{of_type};

use crate::types::next_type;
use expression_parser::ReadError;
use pascal_grammar::Lexeme;
use std::alloc::Global;
use syntax_tree::type_tree::TypeDenoter;

/// The type that the first lexemes spell, and what stands behind it, where at most `depth` constructs may be open at once. An
/// error is out of memory, or the first lexeme at fault.
pub fn read_type(
    alloc: Global,
    depth: u32,
    lexemes: &[Lexeme],
) -> Result<(TypeDenoter, &[Lexeme]), ReadError>
    // Which fault it is.
    ensures gives { Gives (λ x. (of_type x.0, x.1.now)) result (type_at depth (typed_inside depth) lexemes.now) }
    ensures shorter { IfOk result (λ x. length x.1.now ≤ length lexemes.now) }
    // What is read is spelled so.
    ensures spelled { IfOk result (λ x. Spelled type depth lexemes.now (of_type x.0) x.1.now) }
    // What is spelled so is read, where it is followed by what may follow a type.
    ensures only { (t : Parsed) (rest : List Lexeme) → Spelled type depth lexemes.now t rest → follows type (front_kind rest) ≡ true → Gives {Y = Parsed × List Lexeme} (λ x. (of_type x.0, x.1.now)) result (Ok (t, rest)) }
{
    next_type(alloc, depth, lexemes)
}
