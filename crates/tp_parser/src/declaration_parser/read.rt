//! Declarations and blocks, for the readers of what holds them.

ghost use Rattle.std.specs.Prelude.{◌≡◌, ◌≤◌, IfOk, List, length, Ok, true};
ghost use Rattle.pascal_grammar.specs.Follows.{follows};
ghost use Rattle.pascal_grammar.specs.Lexemes.{front_kind};
ghost use Rattle.pascal_grammar.specs.Parts.{declarations, block};
ghost use Rattle.pascal_grammar.specs.declared.lexeme.Lexeme.{Lexeme};
ghost use Rattle.syntax_tree.specs.Expressions.{Parsed};
ghost use Rattle.syntax_tree.specs.source_tree.Declarations.{declarations_of, block_of};
ghost use Rattle.expression_parser.specs.Gives.{Gives};
ghost use Rattle.expression_parser.specs.Spelled.{Spelled};
ghost use Rattle.tp_parser.specs.declaration_parser.Reading.{nested, declarations_at, block_at};

use crate::declaration_parser::routine::{next_block, next_declarations};
use expression_parser::ReadError;
use pascal_grammar::Lexeme;
use std::alloc::Global;
use syntax_tree::source_tree::{Block, Declaration};

/// The declarations that the first lexemes spell, none where none is begun, and what stands behind them, where at most `depth`
/// constructs may be open at once. An error is out of memory, or the first lexeme at fault.
pub fn read_declarations(
    alloc: Global,
    depth: u32,
    lexemes: &[Lexeme],
) -> Result<(Vec<Declaration>, &[Lexeme]), ReadError>
    // Which fault it is.
    ensures gives { Gives (λ x. (declarations_of x.0.items, x.1.now)) result (declarations_at depth (nested depth) lexemes.now) }
    ensures shorter { IfOk result (λ x. length x.1.now ≤ length lexemes.now) }
    // What is read is spelled so.
    ensures spelled { IfOk result (λ x. Spelled declarations depth lexemes.now (declarations_of x.0.items) x.1.now) }
    // What is spelled so is read, where it is followed by what may follow declarations.
    ensures only { (t : Parsed) (rest : List Lexeme) → Spelled declarations depth lexemes.now t rest → follows declarations (front_kind rest) ≡ true → Gives {Y = Parsed × List Lexeme} (λ x. (declarations_of x.0.items, x.1.now)) result (Ok (t, rest)) }
{
    next_declarations(alloc, depth, lexemes)
}

/// The declarations and the statements of a routine that the first lexemes spell, as `read_declarations` reads the former.
pub fn read_block(
    alloc: Global,
    depth: u32,
    lexemes: &[Lexeme],
) -> Result<(Block, &[Lexeme]), ReadError>
    ensures gives { Gives (λ x. (block_of x.0, x.1.now)) result (block_at depth (declarations_at depth (nested depth)) lexemes.now) }
    ensures shorter { IfOk result (λ x. length x.1.now ≤ length lexemes.now) }
    ensures spelled { IfOk result (λ x. Spelled block depth lexemes.now (block_of x.0) x.1.now) }
    ensures only { (t : Parsed) (rest : List Lexeme) → Spelled block depth lexemes.now t rest → follows block (front_kind rest) ≡ true → Gives {Y = Parsed × List Lexeme} (λ x. (block_of x.0, x.1.now)) result (Ok (t, rest)) }
{
    next_block(alloc, depth, lexemes)
}
