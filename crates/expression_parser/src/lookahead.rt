//! What stands in front of the lexemes.

ghost use Rattle.std.specs.Prelude.{◌≡◌, ◌≤◌, IfOk, Ok, suc, length};
ghost use Rattle.syntax_tree.specs.Expressions.{signs};
ghost use Rattle.expression_parser.specs.Gives.{Gives};
ghost use Rattle.expression_parser.specs.Reading.{begins, tail_of, relator_at, adder_at, multiplier_at, sign_found, behind_sign, sign_at, expression_parts, inside};
ghost use Rattle.expression_parser.specs.Starting.{selector_start, factor_start, closed_start, plain_start};
ghost use Rattle.pascal_grammar.specs.Lexemes.{front_kind};
ghost use Rattle.ll1_grammar.specs.Readers.{enter};

use crate::error::ReadError;
use pascal_grammar::{Adder, Kind, Lexeme, Multiplier, Position, Relator, Sign, front_kind};
use syntax_tree::PlacedSign;

/// Whether this word or symbol stands in front.
pub fn begins(lexemes: &[Lexeme], want: Kind) -> bool
    ensures { result ≡ begins want lexemes.now }
{
    match lexemes {
        [lexeme, ..] => lexeme.kind() == want,
        [] => false,
    }
}

/// What stands behind the first lexeme.
pub fn tail(lexemes: &[Lexeme]) -> &[Lexeme]
    ensures gives { result.now ≡ tail_of lexemes.now }
    ensures shorter { length result.now ≤ length lexemes.now }
{
    match lexemes {
        [] => lexemes,
        [_, rest @ ..] => rest,
    }
}

/// The operator that compares in front, if one does.
pub fn relator(lexemes: &[Lexeme]) -> Option<(Relator, Position)>
    ensures { result ≡ relator_at lexemes.now }
{
    match lexemes {
        [lexeme, ..] => match Relator::of(lexeme.kind()) {
            Some(relator) => Some((relator, lexeme.position)),
            None => None,
        },
        [] => None,
    }
}

/// The operator between terms in front, if one is there.
pub fn adder(lexemes: &[Lexeme]) -> Option<(Adder, Position)>
    ensures { result ≡ adder_at lexemes.now }
{
    match lexemes {
        [lexeme, ..] => match Adder::of(lexeme.kind()) {
            Some(adder) => Some((adder, lexeme.position)),
            None => None,
        },
        [] => None,
    }
}

/// The operator between factors in front, if one is there.
pub fn multiplier(lexemes: &[Lexeme]) -> Option<(Multiplier, Position)>
    ensures { result ≡ multiplier_at lexemes.now }
{
    match lexemes {
        [lexeme, ..] => match Multiplier::of(lexeme.kind()) {
            Some(multiplier) => Some((multiplier, lexeme.position)),
            None => None,
        },
        [] => None,
    }
}

/// The sign in front, if one is there.
pub fn sign(lexemes: &[Lexeme]) -> Option<PlacedSign>
    ensures { result ≡ sign_found lexemes.now }
{
    match lexemes {
        [lexeme, ..] => match Sign::of(lexeme.kind()) {
            Some(sign) => Some(PlacedSign {
                sign,
                position: lexeme.position,
            }),
            None => None,
        },
        [] => None,
    }
}

/// The sign in front, if one is there, and what stands behind it.
#[tactic(auto, unfolding(crate::specs::Reading::optional_sign_at))]
pub fn optional_sign(lexemes: &[Lexeme]) -> (Option<PlacedSign>, &[Lexeme])
    ensures found { result.0 ≡ sign_found lexemes.now }
    ensures behind { result.1.now ≡ behind_sign result.0 lexemes.now }
    ensures gives { sign_at lexemes.now ≡ Ok (signs result.0, result.1.now) }
    ensures shorter { length result.1.now ≤ length lexemes.now }
{
    match sign(lexemes) {
        None => (None, lexemes),
        Some(sign) => (Some(sign), tail(lexemes)),
    }
}

/// The number of constructs that may be open inside one more, which the first lexeme opens.
#[tactic(auto, unfolding(crate::specs::Reading::inside))]
pub fn deeper(depth: u32, lexemes: &[Lexeme]) -> Result<u32, ReadError>
    ensures gives { Gives (λ d. (d, expression_parts (inside d))) result (enter (inside depth) lexemes.now) }
    ensures less { IfOk result (λ d. depth ≡ suc d) }
{
    if depth == 0 {
        return Err(ReadError::TooDeep(lexemes.len()));
    }
    Ok(depth - 1)
}

/// The selectors, by what they begin with.
#[derive(Clone, Copy)]
pub enum SelectorStart {
    Field,
    Index,
    Dereference,
}

/// What the first lexeme begins where a factor is due.
#[derive(Clone, Copy)]
pub enum FactorStart {
    Group,
    Control,
    Named,
    Closed,
}

/// What the first lexeme begins where a factor is due that is no name, control character or group.
#[derive(Clone, Copy)]
pub enum ClosedStart {
    Negation,
    Set,
    Plain,
}

/// What the first lexeme begins where a factor of one lexeme is due.
#[derive(Clone, Copy)]
pub enum PlainStart {
    Number,
    Text,
    Nil,
    Real,
    Address,
    Nothing,
}

/// The selector that the first lexeme begins behind a name or an argument list, if it begins one.
pub fn selector_start(lexemes: &[Lexeme]) -> Option<SelectorStart>
    ensures { result ≡ selector_start (front_kind lexemes.now) }
{
    match front_kind(lexemes) {
        Some(Kind::Dot) => Some(SelectorStart::Field),
        Some(Kind::OpenBracket) => Some(SelectorStart::Index),
        Some(Kind::Caret) => Some(SelectorStart::Dereference),
        _ => None,
    }
}

/// What the first lexeme begins where a factor is due.
pub fn factor_start(lexemes: &[Lexeme]) -> FactorStart
    ensures { result ≡ factor_start (front_kind lexemes.now) }
{
    match front_kind(lexemes) {
        Some(Kind::Open) => FactorStart::Group,
        Some(Kind::Caret) => FactorStart::Control,
        Some(kind) if kind.is_name() => FactorStart::Named,
        _ => FactorStart::Closed,
    }
}

/// What the first lexeme begins where a factor is due that is no name, control character or group.
pub fn closed_start(lexemes: &[Lexeme]) -> ClosedStart
    ensures { result ≡ closed_start (front_kind lexemes.now) }
{
    match front_kind(lexemes) {
        Some(Kind::Not) => ClosedStart::Negation,
        Some(Kind::OpenBracket) => ClosedStart::Set,
        _ => ClosedStart::Plain,
    }
}

/// What the first lexeme begins where a factor of one lexeme is due.
pub fn plain_start(lexemes: &[Lexeme]) -> PlainStart
    ensures { result ≡ plain_start (front_kind lexemes.now) }
{
    match front_kind(lexemes) {
        Some(Kind::Number) => PlainStart::Number,
        Some(Kind::Text) => PlainStart::Text,
        Some(Kind::Nil) => PlainStart::Nil,
        Some(Kind::Real) => PlainStart::Real,
        Some(Kind::Address) => PlainStart::Address,
        _ => PlainStart::Nothing,
    }
}
