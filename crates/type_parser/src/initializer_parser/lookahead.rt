//! What stands in front of the lexemes.

ghost use Rattle.std.specs.Prelude.{◌≡◌, IfOk, suc};
ghost use Rattle.expression_parser.specs.Gives.{Gives};
ghost use Rattle.type_parser.specs.initializer_parser.Reading.{begins_field, value_parts, valued_inside};
ghost use Rattle.ll1_grammar.specs.Readers.{enter};

use expression_parser::{ReadError, begins, tail};
use pascal_grammar::{Kind, Lexeme, front_kind};

/// Whether a name with a colon behind it stands there.
pub fn begins_field(lexemes: &[Lexeme]) -> bool
    ensures { result ≡ begins_field lexemes.now }
{
    match front_kind(lexemes) {
        Some(kind) => kind.is_name() && begins(tail(lexemes), Kind::Colon),
        None => false,
    }
}

/// The number of constructs that may be open inside one more, which the first lexeme opens.
#[tactic(auto, unfolding(crate::specs::initializer_parser::Reading::valued_inside))]
pub fn deeper(depth: u32, lexemes: &[Lexeme]) -> Result<u32, ReadError>
    ensures gives { Gives (λ d. (d, value_parts d (valued_inside d))) result (enter (valued_inside depth) lexemes.now) }
    ensures less { IfOk result (λ d. depth ≡ suc d) }
{
    if depth == 0 {
        return Err(ReadError::TooDeep(lexemes.len()));
    }
    Ok(depth - 1)
}
