//! What stands in front of the lexemes.

ghost use Rattle.std.specs.Prelude.{◌≡◌};
ghost use Rattle.pascal_grammar.specs.Lexemes.{front_kind};
ghost use Rattle.tp_parser.specs.heading_parser.Starting.{header_start};

use pascal_grammar::{Kind, Lexeme, front_kind};

/// What the first lexeme begins where a header is due.
#[derive(Clone, Copy, Debug, PartialEq, Eq)]
pub enum HeaderStart {
    Procedure,
    Function,
    Nothing,
}

/// What the first lexeme begins where a header is due.
pub fn header_start(lexemes: &[Lexeme]) -> HeaderStart
    ensures { result ≡ header_start (front_kind lexemes.now) }
{
    match front_kind(lexemes) {
        Some(Kind::Procedure) => HeaderStart::Procedure,
        Some(Kind::Function) => HeaderStart::Function,
        _ => HeaderStart::Nothing,
    }
}
