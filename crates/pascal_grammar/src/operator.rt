//! Operators, and the directions of loops.

ghost use Rattle.std.specs.Prelude.{◌≡◌};
ghost use Rattle.pascal_grammar.specs.Operators.{relator_of, adder_of, multiplier_of, sign_of, direction_of};

use crate::kind::Kind;

/// An operator that compares.
#[derive(Clone, Copy, Debug, PartialEq, Eq)]
pub enum Relator {
    Equal,
    Unequal,
    Less,
    Greater,
    AtMost,
    AtLeast,
    In,
}

/// An operator between terms.
#[derive(Clone, Copy, Debug, PartialEq, Eq)]
pub enum Adder {
    Plus,
    Minus,
    Or,
    Xor,
}

/// An operator between factors.
#[derive(Clone, Copy, Debug, PartialEq, Eq)]
pub enum Multiplier {
    Times,
    Div,
    Mod,
    And,
    Shl,
    Shr,
}

/// A sign before a term or a factor.
#[derive(Clone, Copy, Debug, PartialEq, Eq)]
pub enum Sign {
    Plus,
    Minus,
}

/// Which way a `for` counts.
#[derive(Clone, Copy, Debug, PartialEq, Eq)]
pub enum Direction {
    Up,
    Down,
}

impl Relator {
    /// The operator that the lexeme is, if it is one.
    pub fn of(kind: Kind) -> Option<Relator>
        ensures { result ≡ relator_of kind }
    {
        match kind {
            Kind::Equal => Some(Relator::Equal),
            Kind::Unequal => Some(Relator::Unequal),
            Kind::Less => Some(Relator::Less),
            Kind::Greater => Some(Relator::Greater),
            Kind::AtMost => Some(Relator::AtMost),
            Kind::AtLeast => Some(Relator::AtLeast),
            Kind::In => Some(Relator::In),
            _ => None,
        }
    }
}

impl Adder {
    /// The operator that the lexeme is, if it is one.
    pub fn of(kind: Kind) -> Option<Adder>
        ensures { result ≡ adder_of kind }
    {
        match kind {
            Kind::Plus => Some(Adder::Plus),
            Kind::Minus => Some(Adder::Minus),
            Kind::Or => Some(Adder::Or),
            Kind::Xor => Some(Adder::Xor),
            _ => None,
        }
    }
}

impl Multiplier {
    /// The operator that the lexeme is, if it is one.
    pub fn of(kind: Kind) -> Option<Multiplier>
        ensures { result ≡ multiplier_of kind }
    {
        match kind {
            Kind::Times => Some(Multiplier::Times),
            Kind::Div => Some(Multiplier::Div),
            Kind::Mod => Some(Multiplier::Mod),
            Kind::And => Some(Multiplier::And),
            Kind::Shl => Some(Multiplier::Shl),
            Kind::Shr => Some(Multiplier::Shr),
            _ => None,
        }
    }
}

impl Sign {
    /// The sign that the lexeme is, if it is one.
    pub fn of(kind: Kind) -> Option<Sign>
        ensures { result ≡ sign_of kind }
    {
        match kind {
            Kind::Plus => Some(Sign::Plus),
            Kind::Minus => Some(Sign::Minus),
            _ => None,
        }
    }
}

impl Direction {
    /// The direction that the lexeme is, if it is one.
    pub fn of(kind: Kind) -> Option<Direction>
        ensures { result ≡ direction_of kind }
    {
        match kind {
            Kind::To => Some(Direction::Up),
            Kind::Downto => Some(Direction::Down),
            _ => None,
        }
    }
}
