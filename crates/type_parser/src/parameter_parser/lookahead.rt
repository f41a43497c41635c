//! What stands in front of the lexemes.

ghost use Rattle.std.specs.Prelude.{◌≡◌, IfOk, suc};
ghost use Rattle.expression_parser.specs.Gives.{Gives};
ghost use Rattle.expression_parser.specs.Reading.{expression_parts, inside};
ghost use Rattle.pascal_grammar.specs.Lexemes.{front_kind};
ghost use Rattle.ll1_grammar.specs.Readers.{enter};
ghost use Rattle.type_parser.specs.parameter_parser.Reading.{begins_method};
ghost use Rattle.type_parser.specs.parameter_parser.Starting.{method_start};

use expression_parser::ReadError;
use pascal_grammar::{Kind, Lexeme, front_kind};

/// What the first lexeme begins where a method may stand.
#[derive(Clone, Copy)]
pub enum MethodStart {
    Procedure,
    Function,
    Constructor,
    Destructor,
    Nothing,
}

/// What the first lexeme begins where a method may stand.
pub fn method_start(lexemes: &[Lexeme]) -> MethodStart
    ensures { result ≡ method_start (front_kind lexemes.now) }
{
    match front_kind(lexemes) {
        Some(Kind::Procedure) => MethodStart::Procedure,
        Some(Kind::Function) => MethodStart::Function,
        Some(Kind::Constructor) => MethodStart::Constructor,
        Some(Kind::Destructor) => MethodStart::Destructor,
        _ => MethodStart::Nothing,
    }
}

/// Whether a method stands there.
pub fn begins_method(lexemes: &[Lexeme]) -> bool
    ensures { result ≡ begins_method lexemes.now }
{
    !matches!(method_start(lexemes), MethodStart::Nothing)
}

/// The number of constructs that may be open inside one more, which the first lexeme opens.
#[tactic(auto, unfolding(expression_parser::specs::Reading::inside))]
pub fn deeper(depth: u32, lexemes: &[Lexeme]) -> Result<u32, ReadError>
    ensures gives { Gives (λ d. (d, expression_parts (inside d))) result (enter (inside depth) lexemes.now) }
    ensures less { IfOk result (λ d. depth ≡ suc d) }
{
    if depth == 0 {
        return Err(ReadError::TooDeep(lexemes.len()));
    }
    Ok(depth - 1)
}
