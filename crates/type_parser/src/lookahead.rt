//! What stands in front of the lexemes.

ghost use Rattle.std.specs.Prelude.{◌≡◌, IfOk, suc};
ghost use Rattle.expression_parser.specs.Gives.{Gives};
ghost use Rattle.pascal_grammar.specs.Lexemes.{front_kind};
ghost use Rattle.ll1_grammar.specs.Readers.{enter};
ghost use Rattle.type_parser.specs.Reading.{begins_name, goes_on, type_parts, typed_inside};
ghost use Rattle.type_parser.specs.Starting.{type_start, structured_start, behind_name, behind_caret};

use expression_parser::{ReadError, begins, tail};
use pascal_grammar::{Adder, Kind, Lexeme, Multiplier, front_kind};

/// What the first lexeme begins where a type is due.
#[derive(Clone, Copy)]
pub enum TypeStart {
    Name,
    Caret,
    String,
    Enumeration,
    Procedure,
    Function,
    Object,
    Packed,
    Structured,
    File,
    Range,
}

/// What the first lexeme begins where an array, a record or a set is due.
#[derive(Clone, Copy)]
pub enum StructuredStart {
    Array,
    Record,
    Set,
    Nothing,
}

/// What a name or a control character is, where a type is due, by the lexeme behind it.
#[derive(Clone, Copy)]
pub enum BehindName {
    /// The front of a subrange.
    Range,
    /// The front of a quotient, which is left out.
    Quotient,
    /// All there is.
    Nothing,
}

/// What the first lexeme begins where a type is due.
pub fn type_start(lexemes: &[Lexeme]) -> TypeStart
    ensures { result ≡ type_start (front_kind lexemes.now) }
{
    match front_kind(lexemes) {
        Some(Kind::Caret) => TypeStart::Caret,
        Some(Kind::String) => TypeStart::String,
        Some(Kind::Open) => TypeStart::Enumeration,
        Some(Kind::Procedure) => TypeStart::Procedure,
        Some(Kind::Function) => TypeStart::Function,
        Some(Kind::Object) => TypeStart::Object,
        Some(Kind::Packed) => TypeStart::Packed,
        Some(Kind::Array | Kind::Record | Kind::Set) => TypeStart::Structured,
        Some(Kind::File) => TypeStart::File,
        Some(kind) if kind.is_name() => TypeStart::Name,
        _ => TypeStart::Range,
    }
}

/// What the first lexeme begins where an array, a record or a set is due.
pub fn structured_start(lexemes: &[Lexeme]) -> StructuredStart
    ensures { result ≡ structured_start (front_kind lexemes.now) }
{
    match front_kind(lexemes) {
        Some(Kind::Array) => StructuredStart::Array,
        Some(Kind::Record) => StructuredStart::Record,
        Some(Kind::Set) => StructuredStart::Set,
        _ => StructuredStart::Nothing,
    }
}

/// What a name is where a type is due, by the lexeme behind it, which is the first of these.
pub fn behind_name(lexemes: &[Lexeme]) -> BehindName
    ensures { result ≡ behind_name (front_kind lexemes.now) }
{
    match front_kind(lexemes) {
        Some(Kind::OpenBracket | Kind::Dot | Kind::Caret | Kind::Open | Kind::Dots) =>
            BehindName::Range,
        Some(Kind::Slash) => BehindName::Quotient,
        Some(kind) if Adder::of(kind).is_some() => BehindName::Range,
        Some(kind) if Multiplier::of(kind).is_some() => BehindName::Range,
        _ => BehindName::Nothing,
    }
}

/// What a caret and a letter are where a type is due, by the lexeme behind them, which is the first of these.
pub fn behind_caret(lexemes: &[Lexeme]) -> BehindName
    ensures { result ≡ behind_caret (front_kind lexemes.now) }
{
    match front_kind(lexemes) {
        Some(Kind::Dots) => BehindName::Range,
        Some(Kind::Slash) => BehindName::Quotient,
        Some(kind) if Adder::of(kind).is_some() => BehindName::Range,
        Some(kind) if Multiplier::of(kind).is_some() => BehindName::Range,
        _ => BehindName::Nothing,
    }
}

/// Whether a name stands there.
pub fn begins_name(lexemes: &[Lexeme]) -> bool
    ensures { result ≡ begins_name lexemes.now }
{
    match front_kind(lexemes) {
        Some(kind) => kind.is_name(),
        None => false,
    }
}

/// Whether a semicolon stands there with a name behind it.
pub fn goes_on(lexemes: &[Lexeme]) -> bool
    ensures { result ≡ goes_on lexemes.now }
{
    begins(lexemes, Kind::Semicolon) && begins_name(tail(lexemes))
}

/// The number of constructs that may be open inside one more, which the first lexeme opens.
#[tactic(auto, unfolding(crate::specs::Reading::typed_inside))]
pub fn deeper(depth: u32, lexemes: &[Lexeme]) -> Result<u32, ReadError>
    ensures gives { Gives (λ d. (d, type_parts d (typed_inside d))) result (enter (typed_inside depth) lexemes.now) }
    ensures less { IfOk result (λ d. depth ≡ suc d) }
{
    if depth == 0 {
        return Err(ReadError::TooDeep(lexemes.len()));
    }
    Ok(depth - 1)
}
