//! The interface part of a unit.

ghost use Rattle.std.specs.Prelude.{◌≡◌, ◌≤◌, IfOk, List, [], ◌∷◌, length, suc};
ghost use Rattle.pascal_grammar.specs.Productions.{interface_header, no_directive};
ghost use Rattle.syntax_tree.specs.Expressions.{of, word};
ghost use Rattle.syntax_tree.specs.source_tree.Declarations.{of_header};
ghost use Rattle.syntax_tree.specs.source_tree.Sources.{of_interface, interface_of};
ghost use Rattle.expression_parser.specs.Gives.{Gives};
ghost use Rattle.tp_parser.specs.Reading.{directive_at, header_then, declared_at, interface_at};

use crate::declaration_parser::read_part;
use crate::heading_parser::read_header;
use crate::lookahead::{
    DirectiveStart, InterfaceStart, begins_interface, directive_start, interface_start,
};
use expression_parser::{ReadError, skip};
use pascal_grammar::{Kind, Lexeme, Omission};
use std::alloc::Global;
use syntax_tree::source_tree::{InterfaceDeclaration, RoutineHeader};
use type_parser::parameter_parser::push;

/// What an interface part declares, and what stands behind it, where at most `depth` constructs may be open at once.
pub fn next_interface(
    alloc: Global,
    depth: u32,
    lexemes: &[Lexeme],
) -> Result<(Vec<InterfaceDeclaration>, &[Lexeme]), ReadError>
    ensures gives { Gives (λ x. (interface_of x.0.items, x.1.now)) result (interface_at depth lexemes.now) }
    ensures shorter { IfOk result (λ x. length x.1.now ≤ length lexemes.now) }
{
    let mut all = Vec::new(alloc);
    let mut rest = lexemes;
    'declarations: while begins_interface(rest) {
        let (next, after) = next_declared(alloc, depth, rest)?;
        push(&mut all, next)?;
        rest = after;
    }
    Ok((all, rest))
}

// What the first lexeme declares, and what stands behind it.
#[tactic(auto, unfolding(crate::specs::Reading::interface_by))]
fn next_declared(
    alloc: Global,
    depth: u32,
    lexemes: &[Lexeme],
) -> Result<(InterfaceDeclaration, &[Lexeme]), ReadError>
    ensures gives { Gives (λ x. ((λ more. of_interface x.0 more), x.1.now)) result (declared_at depth lexemes.now) }
    ensures shorter { IfOk result (λ x. suc (length x.1.now) ≤ length lexemes.now) }
{
    match interface_start(lexemes) {
        InterfaceStart::Part(start) => {
            let (part, rest) = read_part(alloc, depth, start, lexemes)?;
            Ok((InterfaceDeclaration::Part(part), rest))
        }
        InterfaceStart::Header => {
            let (header, rest) = next_header(alloc, depth, lexemes)?;
            Ok((InterfaceDeclaration::Header(header), rest))
        }
        InterfaceStart::Nothing => Err(ReadError::Syntax(lexemes.len())),
    }
}

// The header of a routine with its semicolon, and what stands behind it.
fn next_header(
    alloc: Global,
    depth: u32,
    lexemes: &[Lexeme],
) -> Result<(RoutineHeader, &[Lexeme]), ReadError>
    ensures gives { Gives (λ x. ((λ more. of interface_header (of_header x.0 ∷ word ∷ of no_directive [] ∷ more ∷ [])), x.1.now)) result (header_then depth lexemes.now) }
    ensures shorter { IfOk result (λ x. suc (length x.1.now) ≤ length lexemes.now) }
{
    let (header, rest) = read_header(alloc, depth, lexemes)?;
    let rest = skip(rest, Kind::Semicolon)?;
    let rest = past_directive(rest)?;
    Ok((header, rest))
}

// What stands behind a header and its semicolon, where that is no directive; these are left out.
#[tactic(auto, unfolding(crate::specs::Reading::directive_by))]
fn past_directive(lexemes: &[Lexeme]) -> Result<&[Lexeme], ReadError>
    ensures gives { Gives (λ rest. (of no_directive [], rest.now)) result (directive_at lexemes.now) }
    ensures shorter { IfOk result (λ rest. length rest.now ≤ length lexemes.now) }
{
    let omission = match directive_start(lexemes) {
        DirectiveStart::External => Omission::InterfaceExternal,
        DirectiveStart::Interrupt => Omission::InterfaceInterrupt,
        DirectiveStart::Inline => Omission::InterfaceInline,
        DirectiveStart::Nothing => return Ok(lexemes),
    };
    Err(ReadError::LeftOut(omission, lexemes.len()))
}
