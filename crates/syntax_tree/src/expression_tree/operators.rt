//! The operators of the grammar.

ghost use Rattle.std.specs.Prelude.{◌≡◌};
ghost use Rattle.syntax_tree.specs.expression_tree.Trees.{of_relator, of_adder, of_multiplier, of_sign, begins};

use crate::Designator;
use pascal_grammar::{Adder, Multiplier, Position, Relator, Sign};
use typed_tree::{BinaryOp, UnaryOp};

/// The operator that a relator is.
pub fn of_relator(relator: Relator) -> BinaryOp
    ensures { result ≡ of_relator relator }
{
    match relator {
        Relator::Equal => BinaryOp::Equal,
        Relator::Unequal => BinaryOp::NotEqual,
        Relator::Less => BinaryOp::Less,
        Relator::Greater => BinaryOp::Greater,
        Relator::AtMost => BinaryOp::LessOrEqual,
        Relator::AtLeast => BinaryOp::GreaterOrEqual,
        Relator::In => BinaryOp::In,
    }
}

/// The operator between terms.
pub fn of_adder(adder: Adder) -> BinaryOp
    ensures { result ≡ of_adder adder }
{
    match adder {
        Adder::Plus => BinaryOp::Add,
        Adder::Minus => BinaryOp::Subtract,
        Adder::Or => BinaryOp::Or,
        Adder::Xor => BinaryOp::Xor,
    }
}

/// The operator between factors.
pub fn of_multiplier(multiplier: Multiplier) -> BinaryOp
    ensures { result ≡ of_multiplier multiplier }
{
    match multiplier {
        Multiplier::Times => BinaryOp::Multiply,
        Multiplier::Div => BinaryOp::Divide,
        Multiplier::Mod => BinaryOp::Modulo,
        Multiplier::And => BinaryOp::And,
        Multiplier::Shl => BinaryOp::ShiftLeft,
        Multiplier::Shr => BinaryOp::ShiftRight,
    }
}

/// The operator that a sign is.
pub fn of_sign(sign: Sign) -> UnaryOp
    ensures { result ≡ of_sign sign }
{
    match sign {
        Sign::Plus => UnaryOp::Plus,
        Sign::Minus => UnaryOp::Minus,
    }
}

/// Where a designator begins.
pub fn begins(designator: &Designator) -> Position
    ensures { result ≡ begins designator.now }
{
    match designator {
        Designator::Name(name) => name.position,
        Designator::Field { owner, .. }
        | Designator::Index { owner, .. }
        | Designator::Dereference { owner, .. } => begins(owner),
    }
}
