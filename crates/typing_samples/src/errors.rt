//! Mistakes in short: the kind, the number of the rule, and line and column; or with what is too large, or what is left out.

use crate::line::{Line, put, put_count, put_feature, put_place};
use tp_lexer::Feature;
use type_layout::Place;
use typing_rules::CheckError;

fn put_broken(out: &mut Line, kind: &str, rule: u16, place: Place) {
    put_count(out, kind, u64::from(rule));
    put_place(out, place);
}

fn put_large(out: &mut Line, bytes: u64, place: Place) {
    put_count(out, "TooLarge ", bytes);
    put_place(out, place);
}

fn put_left_out(out: &mut Line, feature: Feature, place: Place) {
    put(out, "NotInProfile ");
    put_feature(out, feature);
    put_place(out, place);
}

/// Writes a mistake.
pub fn put_error(out: &mut Line, error: &CheckError) {
    match error {
        CheckError::NoMemory => put(out, "NoMemory"),
        CheckError::UnknownName { place, rule } => put_broken(out, "UnknownName ", *rule, *place),
        CheckError::TypeMismatch { place, rule } => put_broken(out, "TypeMismatch ", *rule, *place),
        CheckError::NotAVariable { place, rule } => put_broken(out, "NotAVariable ", *rule, *place),
        CheckError::BadConstant { place, rule } => put_broken(out, "BadConstant ", *rule, *place),
        CheckError::BadCall { place, rule } => put_broken(out, "BadCall ", *rule, *place),
        CheckError::DuplicateName { place, rule } => {
            put_broken(out, "DuplicateName ", *rule, *place)
        }
        CheckError::MissingBody { place, rule } => put_broken(out, "MissingBody ", *rule, *place),
        CheckError::TooLarge { place, bytes } => put_large(out, *bytes, *place),
        CheckError::NotInProfile { place, feature } => put_left_out(out, *feature, *place),
    }
}
