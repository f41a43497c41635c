//! First values, for the readers of what holds them.

ghost use Rattle.std.specs.Prelude.{◌≡◌, ◌≤◌, IfOk, List, length, Ok, true};
ghost use Rattle.pascal_grammar.specs.Follows.{follows};
ghost use Rattle.pascal_grammar.specs.Lexemes.{front_kind};
ghost use Rattle.pascal_grammar.specs.Parts.{initializer};
ghost use Rattle.pascal_grammar.specs.declared.lexeme.Lexeme.{Lexeme};
ghost use Rattle.syntax_tree.specs.Expressions.{Parsed};
ghost use Rattle.expression_parser.specs.Gives.{Gives};
ghost use Rattle.expression_parser.specs.Spelled.{Spelled};
ghost use Rattle.type_parser.specs.initializer_parser.Reading.{initializer_at, valued_inside};
ghost use Rattle.syntax_tree.specs.type_tree.Initializers.{of_initializer};

use crate::initializer_parser::initializer::next_initializer;
use expression_parser::ReadError;
use pascal_grammar::Lexeme;
use std::alloc::Global;
use syntax_tree::type_tree::Initializer;

/// The first value that the first lexemes spell, and what stands behind it, where at most `depth` constructs may be open at
/// once. An error is out of memory, or the first lexeme at fault.
pub fn read_initializer(
    alloc: Global,
    depth: u32,
    lexemes: &[Lexeme],
) -> Result<(Initializer, &[Lexeme]), ReadError>
    // Which fault it is.
    ensures gives { Gives (λ x. (of_initializer x.0, x.1.now)) result (initializer_at depth (valued_inside depth) lexemes.now) }
    ensures shorter { IfOk result (λ x. length x.1.now ≤ length lexemes.now) }
    // What is read is spelled so.
    ensures spelled { IfOk result (λ x. Spelled initializer depth lexemes.now (of_initializer x.0) x.1.now) }
    // What is spelled so is read, where it is followed by what may follow a first value.
    ensures only { (t : Parsed) (rest : List Lexeme) → Spelled initializer depth lexemes.now t rest → follows initializer (front_kind rest) ≡ true → Gives {Y = Parsed × List Lexeme} (λ x. (of_initializer x.0, x.1.now)) result (Ok (t, rest)) }
{
    next_initializer(alloc, depth, lexemes)
}
