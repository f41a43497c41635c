//! Programs and units.

ghost use Rattle.std.specs.Prelude.{◌≡◌, ◌++◌, IfErr, IfOk, List, [], ◌∷◌, true, false};
ghost use Rattle.pascal_grammar.specs.Productions.{unit};
ghost use Rattle.syntax_tree.specs.Expressions.{of, word, mark_at, name_of};
ghost use Rattle.syntax_tree.specs.source_tree.Declarations.{declarations_of};
ghost use Rattle.syntax_tree.specs.source_tree.Sources.{uses_clause, interface_of, unit_body_of, of_tree};
ghost use Rattle.expression_parser.specs.Gives.{Gives};
ghost use Rattle.expression_parser.specs.declared.error.ReadError.TheVariants.{NoMemory};
ghost use Rattle.tp_parser.specs.Reading.{unit_body_at, source_by, source_at};

use crate::declaration_parser::read_declarations;
use crate::heading_parser::{read_heading, read_uses};
use crate::interface::next_interface;
use expression_parser::statement_parser::read_compound;
use expression_parser::{ReadError, begins, identifier, mark, skip};
use pascal_grammar::{Kind, Lexeme, Position};
use std::alloc::Global;
use syntax_tree::source_tree::{Declaration, InterfaceDeclaration, Tree};
use syntax_tree::{CompoundStatement, Identifier};

/// The source that the first lexemes spell, and what stands behind it, where at most `depth` constructs may be open at once.
pub fn next_source(
    alloc: Global,
    depth: u32,
    lexemes: &[Lexeme],
) -> Result<(Tree, &[Lexeme]), ReadError>
    ensures { Gives (λ x. (of_tree x.0, x.1.now)) result (source_at depth lexemes.now) }
{
    if begins(lexemes, Kind::Unit) {
        return next_unit(alloc, depth, lexemes);
    }
    next_program(alloc, depth, lexemes)
}

#[tactic(auto, unfolding(crate::specs::Reading::source_by))]
fn next_program(
    alloc: Global,
    depth: u32,
    lexemes: &[Lexeme],
) -> Result<(Tree, &[Lexeme]), ReadError>
    ensures { Gives (λ x. (of_tree x.0, x.1.now)) result (source_by false depth lexemes.now) }
{
    let (heading, rest) = read_heading(alloc, depth, lexemes)?;
    let (uses, rest) = read_uses(alloc, rest)?;
    let (declarations, rest) = read_declarations(alloc, depth, rest)?;
    let (body, rest) = read_compound(alloc, depth, rest)?;
    let rest = skip(rest, Kind::Dot)?;
    let program = Tree::Program {
        heading,
        uses,
        declarations,
        body,
    };
    Ok((program, rest))
}

#[tactic(auto, unfolding(crate::specs::Reading::source_by))]
fn next_unit(alloc: Global, depth: u32, lexemes: &[Lexeme]) -> Result<(Tree, &[Lexeme]), ReadError>
    ensures { Gives (λ x. (of_tree x.0, x.1.now)) result (source_by true depth lexemes.now) }
{
    let (position, rest) = mark(lexemes, Kind::Unit)?;
    let (name, rest) = identifier(rest)?;
    let rest = skip(rest, Kind::Semicolon)?;
    let rest = skip(rest, Kind::Interface)?;
    let (outer, rest) = read_uses(alloc, rest)?;
    let (interface, rest) = next_interface(alloc, depth, rest)?;
    let rest = skip(rest, Kind::Implementation)?;
    let (inner, rest) = read_uses(alloc, rest)?;
    let (declarations, rest) = read_declarations(alloc, depth, rest)?;
    let (body, rest) = next_unit_body(alloc, depth, rest)?;
    let rest = skip(rest, Kind::Dot)?;
    let unit = unit_node(
        (position, name),
        (outer, inner),
        interface,
        declarations,
        body,
    )?;
    Ok((unit, rest))
}

// The statements that initialise a unit, none where `end` stands there, and what stands behind them.
#[tactic(auto, unfolding(crate::specs::Reading::unit_body_by))]
fn next_unit_body(
    alloc: Global,
    depth: u32,
    lexemes: &[Lexeme],
) -> Result<(Option<CompoundStatement>, &[Lexeme]), ReadError>
    ensures { Gives (λ x. (unit_body_of x.0, x.1.now)) result (unit_body_at depth lexemes.now) }
{
    if begins(lexemes, Kind::End) {
        let rest = skip(lexemes, Kind::End)?;
        return Ok((None, rest));
    }
    let (body, rest) = read_compound(alloc, depth, lexemes)?;
    Ok((Some(body), rest))
}

// The names of both uses clauses, those of the interface part first.
fn joined(outer: Vec<Identifier>, inner: Vec<Identifier>) -> Result<Vec<Identifier>, ReadError>
    ensures ok { IfOk result (λ all. all.items ≡ outer.items ++ inner.items) }
    ensures err { IfErr result (λ e. e ≡ NoMemory) }
{
    let mut all = outer;
    let mut more = inner;
    all.append(&mut more)?;
    Ok(all)
}

// The unit with its name, the names of its two uses clauses, and what it declares.
#[tactic(auto, using(crate::proofs::Units::unit_is))]
fn unit_node(
    head: (Position, Identifier),
    used: (Vec<Identifier>, Vec<Identifier>),
    interface: Vec<InterfaceDeclaration>,
    declarations: Vec<Declaration>,
    body: Option<CompoundStatement>,
) -> Result<Tree, ReadError>
    ensures ok { IfOk result (λ tree. of_tree tree ≡ of unit (mark_at head.0 ∷ name_of head.1 ∷ word ∷ word ∷ uses_clause used.0.items ∷ interface_of interface.items ∷ word ∷ uses_clause used.1.items ∷ declarations_of declarations.items ∷ unit_body_of body ∷ word ∷ [])) }
    ensures err { IfErr result (λ e. e ≡ NoMemory) }
{
    let (position, name) = head;
    let (outer, inner) = used;
    let interface_uses = outer.len();
    let uses = joined(outer, inner)?;
    Ok(Tree::Unit {
        position,
        name,
        uses,
        interface_uses,
        interface,
        declarations,
        body,
    })
}
