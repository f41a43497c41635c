//! Sources that are not typed, and classes that are wrong.

ghost use Rattle.std.specs.Prelude.{◌≡◌};
ghost use Rattle.front_end.specs.refusals.Outcomes.{broken, check_outcome, class_refused, class_outcome};

use crate::outcomes::{CheckKind, ClassKind, Outcome, Refusal, What};
use object_vmt::ClassError;
use source_graph::at;
use tp_lexer::Text;
use type_layout::{Name, Place};
use typing_rules::CheckError;

// A rule of this number is broken at a place in the texts.
fn broken(texts: &[Text], kind: CheckKind, place: Place, rule: u16) -> Outcome
    ensures { result ≡ broken texts.now kind place rule }
{
    Outcome::Refused(Refusal::CheckRefused {
        at: at(texts, place),
        kind,
        rule,
    })
}

/// The outcome where a source is not typed. Places are those of the texts.
pub fn check_outcome(texts: &[Text], error: CheckError) -> Outcome
    ensures { result ≡ check_outcome texts.now error }
{
    match error {
        CheckError::UnknownName { place, rule } => broken(
            texts,
            CheckKind::UnknownName,
            place,
            rule,
        ),
        CheckError::DuplicateName { place, rule } => broken(
            texts,
            CheckKind::DuplicateName,
            place,
            rule,
        ),
        CheckError::TypeMismatch { place, rule } => broken(
            texts,
            CheckKind::TypeMismatch,
            place,
            rule,
        ),
        CheckError::NotAVariable { place, rule } => broken(
            texts,
            CheckKind::NotAVariable,
            place,
            rule,
        ),
        CheckError::BadConstant { place, rule } => broken(
            texts,
            CheckKind::BadConstant,
            place,
            rule,
        ),
        CheckError::MissingBody { place, rule } => broken(
            texts,
            CheckKind::MissingBody,
            place,
            rule,
        ),
        CheckError::BadCall { place, rule } => broken(texts, CheckKind::BadCall, place, rule),
        CheckError::NotInProfile { place, feature } => Outcome::Refused(Refusal::NotInProfile {
            at: at(texts, place),
            feature,
        }),
        CheckError::TooLarge { place: _, bytes } => Outcome::Refused(Refusal::TooLarge {
            what: What::Declaration,
            number: bytes,
        }),
        CheckError::NoMemory => Outcome::NoMemory,
    }
}

fn class_refused(kind: ClassKind, name: Name) -> Outcome
    ensures { result ≡ class_refused kind name }
{
    Outcome::Refused(Refusal::ClassRefused { kind, name })
}

/// The outcome where a line of object types is wrong.
pub fn class_outcome(error: ClassError) -> Outcome
    ensures { result ≡ class_outcome error }
{
    match error {
        ClassError::BadOverride { method } => class_refused(ClassKind::BadOverride, method),
        ClassError::MissingVirtual { method } => class_refused(ClassKind::MissingVirtual, method),
        ClassError::DuplicateField { name } => class_refused(ClassKind::DuplicateField, name),
        ClassError::NoMemory => Outcome::NoMemory,
    }
}
