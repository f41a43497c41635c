//! Words for kinds, causes and features: the names of their variants.

ghost use Rattle.std.specs.Prelude.{◌≡◌, ◌≤◌, length};
ghost use Rattle.front_end.specs.outcomes.Words.{feature_text, lex_cause_text, what_text, check_kind_text, class_kind_text};

use crate::outcomes::refusal::{CheckKind, ClassKind, What};
use source_graph::LexCause;
use tp_lexer::Feature;

/// The name of a feature.
pub fn feature_text(feature: Feature) -> &'static [u8]
    ensures text { result.now ≡ feature_text feature }
    ensures short { length result.now ≤ 20 }
{
    match feature {
        Feature::Reals => b"Reals",
        Feature::Files => b"Files",
        Feature::Gotos => b"Gotos",
        Feature::Inline => b"Inline",
        Feature::Variants => b"Variants",
        Feature::Addresses => b"Addresses",
        Feature::UntypedParameters => b"UntypedParameters",
        Feature::Absolute => b"Absolute",
        Feature::Externals => b"Externals",
        Feature::Interrupts => b"Interrupts",
        Feature::Casts => b"Casts",
        Feature::HeapCalls => b"HeapCalls",
        Feature::Blocks => b"Blocks",
        Feature::Randoms => b"Randoms",
        Feature::Ends => b"Ends",
        Feature::Params => b"Params",
        Feature::Seeks => b"Seeks",
        Feature::Objects => b"Objects",
        Feature::Overlays => b"Overlays",
        Feature::Units => b"Units",
        Feature::Directives => b"Directives",
        Feature::TypedConstants => b"TypedConstants",
        Feature::NotYet => b"NotYet",
    }
}

/// The name of a cause.
pub fn lex_cause_text(cause: LexCause) -> &'static [u8]
    ensures text { result.now ≡ lex_cause_text cause }
    ensures short { length result.now ≤ 20 }
{
    match cause {
        LexCause::BadCharacter => b"BadCharacter",
        LexCause::OpenComment => b"OpenComment",
        LexCause::OpenString => b"OpenString",
        LexCause::BadNumber => b"BadNumber",
        LexCause::BadDirective => b"BadDirective",
        LexCause::OpenCondition => b"OpenCondition",
    }
}

/// The name of what has a limit.
pub fn what_text(what: What) -> &'static [u8]
    ensures text { result.now ≡ what_text what }
    ensures short { length result.now ≤ 20 }
{
    match what {
        What::Source => b"Source",
        What::Declaration => b"Declaration",
        What::Code => b"Code",
        What::Data => b"Data",
        What::Image => b"Image",
        What::Relocations => b"Relocations",
        What::Units => b"Units",
        What::Input => b"Input",
    }
}

/// The name of a kind of rule.
pub fn check_kind_text(kind: CheckKind) -> &'static [u8]
    ensures text { result.now ≡ check_kind_text kind }
    ensures short { length result.now ≤ 20 }
{
    match kind {
        CheckKind::UnknownName => b"UnknownName",
        CheckKind::DuplicateName => b"DuplicateName",
        CheckKind::TypeMismatch => b"TypeMismatch",
        CheckKind::NotAVariable => b"NotAVariable",
        CheckKind::BadConstant => b"BadConstant",
        CheckKind::MissingBody => b"MissingBody",
        CheckKind::BadCall => b"BadCall",
    }
}

/// The name of what is wrong in a line of object types.
pub fn class_kind_text(kind: ClassKind) -> &'static [u8]
    ensures text { result.now ≡ class_kind_text kind }
    ensures short { length result.now ≤ 20 }
{
    match kind {
        ClassKind::BadOverride => b"BadOverride",
        ClassKind::MissingVirtual => b"MissingVirtual",
        ClassKind::DuplicateField => b"DuplicateField",
    }
}
