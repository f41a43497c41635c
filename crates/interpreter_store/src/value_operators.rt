//! The operators of the language, on values.

mod conversions;
mod functions;
mod numbers;
mod operators;
mod relations;
mod sets;
mod texts;

pub use conversions::{converted, element_of, is_between, ranged, spanned, within};
pub use functions::{
    absolute, character, high_byte_of, is_odd, low_byte_of, predecessor, squared, successor,
    swapped, upper_case,
};
pub use numbers::{arithmetic, is_true, kept_as, stored_among, truth, truth_number};
pub use operators::{binary, decided, unary};
pub use texts::{field_text, text_of};
