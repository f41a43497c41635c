//! What stands in front of the lexemes.

ghost use Rattle.std.specs.Prelude.{◌≡◌, IfOk, suc};
ghost use Rattle.pascal_grammar.specs.Lexemes.{front_kind};
ghost use Rattle.ll1_grammar.specs.Readers.{enter};
ghost use Rattle.expression_parser.specs.Gives.{Gives};
ghost use Rattle.tp_parser.specs.declaration_parser.Starting.{declaration_start, behind_procedure, behind_function, body_start};
ghost use Rattle.tp_parser.specs.declaration_parser.Reading.{is_named, begins_declaration, routine_parts, nested};

use expression_parser::ReadError;
use pascal_grammar::{Kind, Lexeme, front_kind};

/// What a word declares.
#[derive(Clone, Copy, Debug, PartialEq, Eq)]
pub enum PartStart {
    Constants,
    Types,
    Variables,
}

/// What the first lexeme begins where declarations may stand.
#[derive(Clone, Copy, Debug, PartialEq, Eq)]
pub enum DeclarationStart {
    Part(PartStart),
    Procedure,
    Function,
    Constructor,
    Destructor,
    Label,
    Nothing,
}

/// What stands behind the name of a procedure or function.
#[derive(Clone, Copy, Debug, PartialEq, Eq)]
pub enum BehindRoutineName {
    /// The name is that of an object type, and a method follows.
    Dot,
    /// The rest of a header.
    Header,
    Nothing,
}

/// What stands behind the semicolon of a routine's header.
#[derive(Clone, Copy, Debug, PartialEq, Eq)]
pub enum BodyStart {
    Forward,
    External,
    Interrupt,
    Inline,
    Block,
}

/// What the first lexeme begins where declarations may stand.
pub fn declaration_start(lexemes: &[Lexeme]) -> DeclarationStart
    ensures { result ≡ declaration_start (front_kind lexemes.now) }
{
    match front_kind(lexemes) {
        Some(Kind::Const) => DeclarationStart::Part(PartStart::Constants),
        Some(Kind::Type) => DeclarationStart::Part(PartStart::Types),
        Some(Kind::Var) => DeclarationStart::Part(PartStart::Variables),
        Some(Kind::Procedure) => DeclarationStart::Procedure,
        Some(Kind::Function) => DeclarationStart::Function,
        Some(Kind::Constructor) => DeclarationStart::Constructor,
        Some(Kind::Destructor) => DeclarationStart::Destructor,
        Some(Kind::Label) => DeclarationStart::Label,
        _ => DeclarationStart::Nothing,
    }
}

/// What stands behind the name of a procedure.
pub fn behind_procedure(lexemes: &[Lexeme]) -> BehindRoutineName
    ensures { result ≡ behind_procedure (front_kind lexemes.now) }
{
    match front_kind(lexemes) {
        Some(Kind::Dot) => BehindRoutineName::Dot,
        Some(Kind::Open | Kind::Semicolon) => BehindRoutineName::Header,
        _ => BehindRoutineName::Nothing,
    }
}

/// What stands behind the name of a function.
pub fn behind_function(lexemes: &[Lexeme]) -> BehindRoutineName
    ensures { result ≡ behind_function (front_kind lexemes.now) }
{
    match front_kind(lexemes) {
        Some(Kind::Dot) => BehindRoutineName::Dot,
        Some(Kind::Open | Kind::Semicolon | Kind::Colon) => BehindRoutineName::Header,
        _ => BehindRoutineName::Nothing,
    }
}

/// What stands behind the semicolon of a routine's header.
pub fn body_start(lexemes: &[Lexeme]) -> BodyStart
    ensures { result ≡ body_start (front_kind lexemes.now) }
{
    match front_kind(lexemes) {
        Some(Kind::Forward) => BodyStart::Forward,
        Some(Kind::External) => BodyStart::External,
        Some(Kind::Interrupt) => BodyStart::Interrupt,
        Some(Kind::Inline) => BodyStart::Inline,
        _ => BodyStart::Block,
    }
}

/// Whether a name stands in front.
pub fn is_named(lexemes: &[Lexeme]) -> bool
    ensures { result ≡ is_named lexemes.now }
{
    match front_kind(lexemes) {
        Some(kind) => kind.is_name(),
        None => false,
    }
}

/// Whether a declaration stands there, be it one that is left out.
pub fn begins_declaration(lexemes: &[Lexeme]) -> bool
    ensures { result ≡ begins_declaration lexemes.now }
{
    !matches!(declaration_start(lexemes), DeclarationStart::Nothing)
}

/// The number of constructs that may be open inside one more, which the first lexeme opens.
#[tactic(auto, unfolding(crate::specs::declaration_parser::Reading::nested))]
pub fn deeper(depth: u32, lexemes: &[Lexeme]) -> Result<u32, ReadError>
    ensures gives { Gives (λ d. (d, routine_parts d (nested d))) result (enter (nested depth) lexemes.now) }
    ensures less { IfOk result (λ d. depth ≡ suc d) }
{
    if depth == 0 {
        return Err(ReadError::TooDeep(lexemes.len()));
    }
    Ok(depth - 1)
}
