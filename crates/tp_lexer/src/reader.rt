//! Texts, with what they include.

ghost use Rattle.std.specs.Prelude.{◌≡◌, ◌≤◌, ◌<◌, ◌==◌, length, position, nat_eq, take, drop, IfSome, MatchResult, None};
ghost use Rattle.std.specs.List.{before_first};
ghost use Rattle.std.specs.Cmp.Lexicographic.{pointwise};
ghost use Rattle.tp_lexer.specs.Effects.{innermost, is_read};
ghost use Rattle.tp_lexer.specs.Grammar.{Takes};
ghost use Rattle.tp_lexer.specs.Places.{counted};
ghost use Rattle.tp_lexer.specs.Tokens.{effect_at, text_at, Reads, IncludesAt};
ghost use Rattle.tp_lexer.specs.Acting.{AreNumbers, settings_of, context_of, Acts, Adds, Advances, IsOpen};

use crate::act::{act, pass};
use crate::characters::before_end_len;
use crate::condition::{Condition, innermost, is_read};
use crate::meaning::{passed_of, piece_of};
use crate::numbers::number_named;
use crate::place::moved_over;
use crate::prefix::{passed_at, shape_at};
use crate::shape::{Extent, Shape};
use crate::state::State;
use crate::token::{LexError, Text};
use std::alloc::Global;
use std::collections::HashMap;
use type_layout::{FileName, Place};

fn before_end(bytes: &[u8]) -> &[u8]
    ensures exact { result.now ≡ before_first (λ c. c == 26) bytes.now }
    ensures within { length result.now ≤ length bytes.now }
{
    &bytes[..before_end_len(bytes)]
}

// The bytes of a text, up to its first byte 26.
fn text_at(texts: &[Text], number: usize) -> &[u8]
    requires number { number < length texts.now }
    ensures { result.now ≡ text_at texts.now number }
{
    before_end(texts[number].bytes.as_slice())
}

// The number of a text, as places show it.
fn shown(number: usize) -> u32
    ensures { result ≡ counted number }
{
    u32::try_from(number).unwrap_or(u32::MAX)
}

// The number of the first text with a name.
fn text_named(texts: &[Text], numbers: &HashMap<FileName, usize>, name: &FileName) -> Option<usize>
    requires { AreNumbers texts.now numbers.now }
    ensures exact { result ≡ position (λ text. pointwise nat_eq text.name name.now) texts.now }
    ensures within { IfSome result (λ number. number < length texts.now) }
{
    number_named(numbers, name)
}

// The shape and the length of what stands at the front.
fn extent_at(conditions: &[Condition], bytes: &[u8]) -> Extent
    requires { 0 < length bytes.now }
    ensures within { result.length ≤ length bytes.now }
    ensures longest { Takes (is_read conditions.now) result.shape (take result.length bytes.now) (drop result.length bytes.now) }
{
    if is_read(conditions) {
        shape_at(bytes)
    } else {
        passed_at(bytes)
    }
}

// Does what the bytes at a place stand for.
fn step(
    alloc: Global,
    shape: Shape,
    spelling: &[u8],
    place: Place,
    state: &mut State,
    conditions: &mut Vec<Condition>,
) -> Result<Option<FileName>, LexError>
    ensures { Acts (effect_at place (context_of state.old conditions.old.items) shape spelling.now) state.old state.new conditions.old.items conditions.new.items result }
{
    if is_read(conditions.as_slice()) {
        let piece = piece_of(alloc, shape, spelling)?;
        act(piece, place, state, conditions)
    } else {
        pass(passed_of(shape, spelling), place, state, conditions)
    }
}

// At the end of a text each of its conditions is closed.
fn ended(conditions: &[Condition]) -> Result<(), LexError>
    ensures { MatchResult result (λ _. innermost conditions.now ≡ None) (λ error. IsOpen (innermost conditions.now) error) }
{
    match innermost(conditions) {
        None => Ok(()),
        Some(condition) => Err(LexError::OpenCondition {
            place: condition.place,
        }),
    }
}

// Does what the bytes at a place stand for, and reads the text that they include.
#[cycle(reader)]
fn advance(
    alloc: Global,
    texts: &[Text],
    numbers: &HashMap<FileName, usize>,
    depth: u32,
    shape: Shape,
    spelling: &[u8],
    place: Place,
    state: &mut State,
    conditions: &mut Vec<Condition>,
) -> Result<(), LexError>
    requires { AreNumbers texts.now numbers.now }
    ensures { Advances (IncludesAt depth texts.now) place (settings_of state.old) (effect_at place (context_of state.old conditions.old.items) shape spelling.now) state.old state.new conditions.old.items conditions.new.items result }
{
    match step(alloc, shape, spelling, place, state, conditions) {
        Ok(None) => Ok(()),
        Ok(Some(name)) => include(alloc, texts, numbers, depth, name, place, state),
        Err(error) => Err(error),
    }
}

// Reads the text with a name.
#[cycle(reader)]
fn include(
    alloc: Global,
    texts: &[Text],
    numbers: &HashMap<FileName, usize>,
    depth: u32,
    name: FileName,
    place: Place,
    state: &mut State,
) -> Result<(), LexError>
    requires { AreNumbers texts.now numbers.now }
    ensures { Adds (IncludesAt depth texts.now place name (settings_of state.old)) state.old state.new result }
{
    if depth == 0 {
        return Err(LexError::BadDirective { place });
    }
    match text_named(texts, numbers, &name) {
        None => Err(LexError::MissingInclude { place, name }),
        Some(number) => read_text(alloc, texts, numbers, depth - 1, number, state),
    }
}

/// Adds the tokens of a text in which includes may nest to the depth, and leaves what holds behind it.
#[cycle(reader)]
pub fn read_text(
    alloc: Global,
    texts: &[Text],
    numbers: &HashMap<FileName, usize>,
    depth: u32,
    number: usize,
    state: &mut State,
) -> Result<(), LexError>
    requires number { number < length texts.now }
    requires numbers { AreNumbers texts.now numbers.now }
    ensures { Adds (Reads depth texts.now number (settings_of state.old)) state.old state.new result }
{
    let bytes = text_at(texts, number);
    let mut conditions = Vec::new(alloc);
    let mut place = Place {
        text: shown(number),
        line: 1,
        column: 1,
    };
    let mut position = 0;
    while position < bytes.len() {
        let rest = bytes.split_at(position).1;
        let extent = extent_at(conditions.as_slice(), rest);
        let spelling = rest.split_at(extent.length).0;
        match advance(
            alloc,
            texts,
            numbers,
            depth,
            extent.shape,
            spelling,
            place,
            state,
            &mut conditions,
        ) {
            Ok(()) => {}
            Err(error) => return Err(error),
        }
        place = moved_over(place, spelling);
        position += extent.length;
    }
    ended(conditions.as_slice())
}
