//! Names, subranges and pointers.

ghost use Rattle.std.specs.Prelude.{◌≡◌, IfErr, IfOk, List, [], ◌∷◌};
ghost use Rattle.syntax_tree.specs.Expressions.{word};
ghost use Rattle.expression_parser.specs.declared.error.ReadError.TheVariants.{NoMemory};
ghost use Rattle.expression_parser.specs.Gives.{Gives};
ghost use Rattle.type_parser.specs.Reading.{range_at, named_type_at, letter_type_at, caret_type_at};
ghost use Rattle.syntax_tree.specs.type_tree.Regrouped.{range_of};
ghost use Rattle.syntax_tree.specs.type_tree.Types.{of_type, simple_of};

use crate::lexemes::long_identifier;
use crate::lookahead::{BehindName, behind_caret, behind_name};
use expression_parser::{ReadError, begins, identifier, letter, mark, read_simple, skip, tail};
use pascal_grammar::{Kind, Lexeme, Omission};
use std::alloc::Global;
use syntax_tree::SimpleExpression;
use syntax_tree::type_tree::{PointerTarget, TypeDenoter};

// A subrange.
fn range_node(
    alloc: Global,
    low: SimpleExpression,
    high: SimpleExpression,
) -> Result<TypeDenoter, ReadError>
    ensures ok { IfOk result (λ x. of_type x ≡ range_of (simple_of low) (word ∷ simple_of high ∷ [])) }
    ensures err { IfErr result (λ e. e ≡ NoMemory) }
{
    let low = Box::new(alloc, low)?;
    let high = Box::new(alloc, high)?;
    Ok(TypeDenoter::Range(low, high))
}

/// The subrange that stands there, and what stands behind it.
#[tactic(auto, unfolding(crate::specs::Reading::range_at))]
pub fn range(
    alloc: Global,
    depth: u32,
    lexemes: &[Lexeme],
) -> Result<(TypeDenoter, &[Lexeme]), ReadError>
    ensures gives { Gives (λ x. (of_type x.0, x.1.now)) result (range_at depth lexemes.now) }
{
    let (low, rest) = read_simple(alloc, depth, lexemes)?;
    let rest = skip(rest, Kind::Dots)?;
    let (high, rest) = read_simple(alloc, depth, rest)?;
    Ok((range_node(alloc, low, high)?, rest))
}

/// The type that begins with a name, and what stands behind it.
#[tactic(auto, unfolding(crate::specs::Reading::named_by))]
pub fn named_type(
    alloc: Global,
    depth: u32,
    lexemes: &[Lexeme],
) -> Result<(TypeDenoter, &[Lexeme]), ReadError>
    ensures gives { Gives (λ x. (of_type x.0, x.1.now)) result (named_type_at depth lexemes.now) }
{
    let behind = tail(lexemes);
    match behind_name(behind) {
        BehindName::Range => range(alloc, depth, lexemes),
        BehindName::Quotient => Err(ReadError::LeftOut(Omission::DividedRange, behind.len())),
        BehindName::Nothing => {
            let (name, rest) = identifier(lexemes)?;
            Ok((TypeDenoter::Name(name), rest))
        }
    }
}

/// The type that begins with a caret and a letter, and what stands behind it.
#[tactic(auto, unfolding(crate::specs::Reading::letter_by))]
fn letter_type(
    alloc: Global,
    depth: u32,
    lexemes: &[Lexeme],
) -> Result<(TypeDenoter, &[Lexeme]), ReadError>
    ensures gives { Gives (λ x. (of_type x.0, x.1.now)) result (letter_type_at depth lexemes.now) }
{
    let behind = tail(tail(lexemes));
    match behind_caret(behind) {
        BehindName::Range => range(alloc, depth, lexemes),
        BehindName::Quotient => Err(ReadError::LeftOut(Omission::DividedControl, behind.len())),
        BehindName::Nothing => {
            let (position, rest) = mark(lexemes, Kind::Caret)?;
            let (name, rest) = letter(rest)?;
            let target = PointerTarget::Letter(name);
            Ok((TypeDenoter::Pointer { position, target }, rest))
        }
    }
}

/// The type that begins with a caret, and what stands behind it.
#[tactic(auto, unfolding(crate::specs::Reading::caret_by))]
pub fn caret_type(
    alloc: Global,
    depth: u32,
    lexemes: &[Lexeme],
) -> Result<(TypeDenoter, &[Lexeme]), ReadError>
    ensures gives { Gives (λ x. (of_type x.0, x.1.now)) result (caret_type_at depth lexemes.now) }
{
    if begins(tail(lexemes), Kind::Letter) {
        return letter_type(alloc, depth, lexemes);
    }
    let (position, rest) = mark(lexemes, Kind::Caret)?;
    let (name, rest) = long_identifier(rest)?;
    let target = PointerTarget::Long(name);
    Ok((TypeDenoter::Pointer { position, target }, rest))
}
