//! Headings of programs.

ghost use Rattle.std.specs.Prelude.{◌≡◌, ◌≤◌, IfOk, length};
ghost use Rattle.syntax_tree.specs.source_tree.Sources.{files_of, heading_of};
ghost use Rattle.expression_parser.specs.Gives.{Gives};
ghost use Rattle.expression_parser.specs.Reading.{inside};
ghost use Rattle.tp_parser.specs.heading_parser.Reading.{files_at, heading_at};

use expression_parser::{ReadError, begins, identifier, mark, skip};
use pascal_grammar::{Kind, Lexeme};
use std::alloc::Global;
use syntax_tree::Identifier;
use syntax_tree::source_tree::ProgramHeading;
use type_parser::parameter_parser::{deeper, read_identifiers};

/// The heading of a program, if one stands there, and what stands behind it, where at most `depth` constructs may be open at
/// once.
#[tactic(auto, unfolding(crate::specs::heading_parser::Reading::heading_by))]
pub fn next_heading(
    alloc: Global,
    depth: u32,
    lexemes: &[Lexeme],
) -> Result<(Option<ProgramHeading>, &[Lexeme]), ReadError>
    ensures gives { Gives (λ x. (heading_of x.0, x.1.now)) result (heading_at (inside depth) lexemes.now) }
    ensures shorter { IfOk result (λ x. length x.1.now ≤ length lexemes.now) }
{
    if !begins(lexemes, Kind::Program) {
        return Ok((None, lexemes));
    }
    let (position, rest) = mark(lexemes, Kind::Program)?;
    let (name, rest) = identifier(rest)?;
    let (files, rest) = next_files(alloc, depth, rest)?;
    let rest = skip(rest, Kind::Semicolon)?;
    let heading = ProgramHeading {
        position,
        name,
        files,
    };
    Ok((Some(heading), rest))
}

// The files in parentheses, none where no parenthesis stands there.
#[tactic(auto, using(crate::proofs::heading_parser::Names::files_named), unfolding(crate::specs::heading_parser::Reading::files_by))]
fn next_files(
    alloc: Global,
    depth: u32,
    lexemes: &[Lexeme],
) -> Result<(Vec<Identifier>, &[Lexeme]), ReadError>
    ensures gives { Gives (λ x. (files_of x.0.items, x.1.now)) result (files_at (inside depth) lexemes.now) }
    ensures shorter { IfOk result (λ x. length x.1.now ≤ length lexemes.now) }
{
    if !begins(lexemes, Kind::Open) {
        return Ok((Vec::new(alloc), lexemes));
    }
    deeper(depth, lexemes)?;
    let rest = skip(lexemes, Kind::Open)?;
    let (files, rest) = read_identifiers(alloc, rest)?;
    let rest = skip(rest, Kind::Close)?;
    Ok((files, rest))
}
