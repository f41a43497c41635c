//! The table of the standard functions.

ghost use Rattle.std.specs.Prelude.{◌≡◌};
ghost use Rattle.call_rules.specs.standard_rules.Signatures.{signature_in, signature_of};

use scopes::{BOOLEAN, BYTE, CHAR, INTEGER, STRING};
use type_layout::TypeId;
use typed_tree::standard::{
    ABS, CHR, CONCAT, COPY, EOF, EOLN, HI, LENGTH, LO, ODD, ORD, POS, PRED, SQR, SUCC, SWAP,
    UP_CASE,
};

/// What is asked of an argument. `Short` is an integer that Integer or Word holds, and a Char is a text too.
#[derive(Clone, Copy, Debug, PartialEq, Eq)]
pub enum Want {
    Integer,
    Short,
    Ordinal,
    Char,
    Text,
}

/// How many arguments there are, and what is asked of each. `Texts` are one or more.
#[derive(Clone, Copy, Debug, PartialEq, Eq)]
pub enum Shape {
    Nothing,
    One(Want),
    Pair(Want, Want),
    Triple(Want, Want, Want),
    Texts,
}

/// The type of a result: the first of Integer, Word and LongInt that holds the argument, the predefined type that stores it, or
/// always the same.
#[derive(Clone, Copy, Debug, PartialEq, Eq)]
pub enum Outcome {
    Held,
    Stored,
    Is(TypeId),
}

/// What a standard function asks for and gives.
#[derive(Clone, Copy, Debug, PartialEq, Eq)]
pub struct Signature {
    pub shape: Shape,
    pub outcome: Outcome,
}

// The functions by their numbers. SizeOf has a judgement of its own, New as a function is not built yet.
const SIGNATURES: [(u32, Shape, Outcome); 17] = [
    (ABS, Shape::One(Want::Integer), Outcome::Held),
    (SQR, Shape::One(Want::Integer), Outcome::Held),
    (ODD, Shape::One(Want::Integer), Outcome::Is(BOOLEAN)),
    (ORD, Shape::One(Want::Ordinal), Outcome::Held),
    (CHR, Shape::One(Want::Integer), Outcome::Is(CHAR)),
    (SUCC, Shape::One(Want::Ordinal), Outcome::Stored),
    (PRED, Shape::One(Want::Ordinal), Outcome::Stored),
    (HI, Shape::One(Want::Integer), Outcome::Is(BYTE)),
    (LO, Shape::One(Want::Integer), Outcome::Is(BYTE)),
    (SWAP, Shape::One(Want::Short), Outcome::Held),
    (UP_CASE, Shape::One(Want::Char), Outcome::Is(CHAR)),
    (LENGTH, Shape::One(Want::Text), Outcome::Is(INTEGER)),
    (
        COPY,
        Shape::Triple(Want::Text, Want::Integer, Want::Integer),
        Outcome::Is(STRING),
    ),
    (CONCAT, Shape::Texts, Outcome::Is(STRING)),
    (POS, Shape::Pair(Want::Text, Want::Text), Outcome::Is(BYTE)),
    (EOF, Shape::Nothing, Outcome::Is(BOOLEAN)),
    (EOLN, Shape::Nothing, Outcome::Is(BOOLEAN)),
];

// What stands in the first row with a number.
fn signature_in(rows: &[(u32, Shape, Outcome)], number: u32) -> Option<Signature>
    ensures { result ≡ signature_in rows.now number }
{
    match rows {
        [] => None,
        [row, rest @ ..] => {
            if row.0 == number {
                Some(Signature {
                    shape: row.1,
                    outcome: row.2,
                })
            } else {
                signature_in(rest, number)
            }
        }
    }
}

/// What the standard routine with a number asks for and gives, if it is a function.
#[tactic(auto, unfolding(crate::specs::standard_rules::Signatures::signatures))]
pub fn signature_of(number: u32) -> Option<Signature>
    ensures { result ≡ signature_of number }
{
    signature_in(&SIGNATURES, number)
}
