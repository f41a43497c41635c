//! Uses clauses, headings and headers, for the readers of what holds them.

ghost use Rattle.std.specs.Prelude.{◌≡◌, ◌≤◌, IfOk, List, length, Ok, true};
ghost use Rattle.pascal_grammar.specs.Follows.{follows};
ghost use Rattle.pascal_grammar.specs.Lexemes.{front_kind};
ghost use Rattle.pascal_grammar.specs.Parts.{uses as uses_part, program_head, header};
ghost use Rattle.pascal_grammar.specs.declared.lexeme.Lexeme.{Lexeme};
ghost use Rattle.syntax_tree.specs.Expressions.{Parsed};
ghost use Rattle.syntax_tree.specs.source_tree.Declarations.{of_header};
ghost use Rattle.syntax_tree.specs.source_tree.Sources.{uses_clause, heading_of};
ghost use Rattle.expression_parser.specs.Gives.{Gives};
ghost use Rattle.expression_parser.specs.Reading.{inside};
ghost use Rattle.expression_parser.specs.Spelled.{Spelled};
ghost use Rattle.tp_parser.specs.heading_parser.Reading.{uses_at, heading_at, header_at};

use crate::heading_parser::header::next_header;
use crate::heading_parser::heading::next_heading;
use crate::heading_parser::uses::next_uses;
use expression_parser::ReadError;
use pascal_grammar::Lexeme;
use std::alloc::Global;
use syntax_tree::Identifier;
use syntax_tree::source_tree::{ProgramHeading, RoutineHeader};

/// The units that a uses clause names, none where no clause stands there, and what stands behind it. An error is out of
/// memory, or the first lexeme at fault.
pub fn read_uses(
    alloc: Global,
    lexemes: &[Lexeme],
) -> Result<(Vec<Identifier>, &[Lexeme]), ReadError>
    // Which fault it is.
    ensures gives { Gives (λ x. (uses_clause x.0.items, x.1.now)) result (uses_at lexemes.now) }
    ensures shorter { IfOk result (λ x. length x.1.now ≤ length lexemes.now) }
    // What is read is spelled so; a uses clause opens no construct.
    ensures spelled { IfOk result (λ x. Spelled uses_part 0 lexemes.now (uses_clause x.0.items) x.1.now) }
    // What is spelled so is read, where it is followed by what may follow a uses clause.
    ensures only { (limit : _) (t : Parsed) (rest : List Lexeme) → Spelled uses_part limit lexemes.now t rest → follows uses_part (front_kind rest) ≡ true → Gives {Y = Parsed × List Lexeme} (λ x. (uses_clause x.0.items, x.1.now)) result (Ok (t, rest)) }
{
    next_uses(alloc, lexemes)
}

/// The heading of a program, if one stands there, and what stands behind it, where at most `depth` constructs may be open at
/// once.
pub fn read_heading(
    alloc: Global,
    depth: u32,
    lexemes: &[Lexeme],
) -> Result<(Option<ProgramHeading>, &[Lexeme]), ReadError>
    ensures gives { Gives (λ x. (heading_of x.0, x.1.now)) result (heading_at (inside depth) lexemes.now) }
    ensures shorter { IfOk result (λ x. length x.1.now ≤ length lexemes.now) }
    ensures spelled { IfOk result (λ x. Spelled program_head depth lexemes.now (heading_of x.0) x.1.now) }
    ensures only { (t : Parsed) (rest : List Lexeme) → Spelled program_head depth lexemes.now t rest → follows program_head (front_kind rest) ≡ true → Gives {Y = Parsed × List Lexeme} (λ x. (heading_of x.0, x.1.now)) result (Ok (t, rest)) }
{
    next_heading(alloc, depth, lexemes)
}

/// The header of a routine that is no method, and what stands behind it, where at most `depth` constructs may be open at once.
pub fn read_header(
    alloc: Global,
    depth: u32,
    lexemes: &[Lexeme],
) -> Result<(RoutineHeader, &[Lexeme]), ReadError>
    ensures gives { Gives (λ x. (of_header x.0, x.1.now)) result (header_at (inside depth) lexemes.now) }
    ensures shorter { IfOk result (λ x. length x.1.now ≤ length lexemes.now) }
    ensures spelled { IfOk result (λ x. Spelled header depth lexemes.now (of_header x.0) x.1.now) }
    ensures only { (t : Parsed) (rest : List Lexeme) → Spelled header depth lexemes.now t rest → follows header (front_kind rest) ≡ true → Gives {Y = Parsed × List Lexeme} (λ x. (of_header x.0, x.1.now)) result (Ok (t, rest)) }
{
    next_header(alloc, depth, lexemes)
}
