//! What stands in front of the lexemes.

ghost use Rattle.std.specs.Prelude.{◌≡◌};
ghost use Rattle.pascal_grammar.specs.Lexemes.{front_kind};
ghost use Rattle.tp_parser.specs.Reading.{begins_interface};
ghost use Rattle.tp_parser.specs.Starting.{interface_start, directive_start};

use crate::declaration_parser::PartStart;
use pascal_grammar::{Kind, Lexeme, front_kind};

/// What the first lexeme begins in an interface part.
#[derive(Clone, Copy, Debug, PartialEq, Eq)]
pub enum InterfaceStart {
    Part(PartStart),
    Header,
    Nothing,
}

/// What stands behind the semicolon of a header in an interface part. All but nothing is left out.
#[derive(Clone, Copy, Debug, PartialEq, Eq)]
pub enum DirectiveStart {
    External,
    Interrupt,
    Inline,
    Nothing,
}

/// What the first lexeme begins in an interface part.
pub fn interface_start(lexemes: &[Lexeme]) -> InterfaceStart
    ensures { result ≡ interface_start (front_kind lexemes.now) }
{
    match front_kind(lexemes) {
        Some(Kind::Const) => InterfaceStart::Part(PartStart::Constants),
        Some(Kind::Type) => InterfaceStart::Part(PartStart::Types),
        Some(Kind::Var) => InterfaceStart::Part(PartStart::Variables),
        Some(Kind::Procedure | Kind::Function) => InterfaceStart::Header,
        _ => InterfaceStart::Nothing,
    }
}

/// What stands behind the semicolon of a header in an interface part.
pub fn directive_start(lexemes: &[Lexeme]) -> DirectiveStart
    ensures { result ≡ directive_start (front_kind lexemes.now) }
{
    match front_kind(lexemes) {
        Some(Kind::External) => DirectiveStart::External,
        Some(Kind::Interrupt) => DirectiveStart::Interrupt,
        Some(Kind::Inline) => DirectiveStart::Inline,
        _ => DirectiveStart::Nothing,
    }
}

/// Whether an interface part declares something more.
pub fn begins_interface(lexemes: &[Lexeme]) -> bool
    ensures { result ≡ begins_interface lexemes.now }
{
    !matches!(interface_start(lexemes), InterfaceStart::Nothing)
}
