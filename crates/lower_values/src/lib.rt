//! Code over values in slots of the evaluation stack: how they lie there, loads and stores, conversions, operators, standard
//! functions and the words of calls.
#![tactic(auto)]

mod access;
mod conversions;
mod forms;
mod long_operators;
mod nodes;
mod operators;
mod places;
mod sets;
mod text_functions;
mod texts;
mod value_functions;
mod word_operators;
mod words;

pub use access::{
    load, load_word, offset_of, place_words, point, pointer_words, segment_of, store,
};
pub use conversions::{converted, fitted, ranged};
pub use forms::{
    Form, form_of, high_in, long_words, low_in, low_word, next_slot, slot_of_arg, slot_place,
    text_words, word_in,
};
pub use nodes::{
    clear, clear_at, high_number, kept, not, number, pair, runtime, signed_byte, single, truth,
    with_result,
};
pub use operators::{binary, unary};
pub use places::{indexed, inside, through};
pub use sets::{emptied, with_element, with_span};
pub use text_functions::{concatenated, copied, found, length_at, length_of};
pub use value_functions::{asked, given_word, of_value};
pub use word_operators::early;
pub use words::{push_class, push_link, words_with, words_without};
