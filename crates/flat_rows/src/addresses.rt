//! Places as rows have them.

use flat_code::Address;
use test_rows::{number, whole, word};

/// The first word of a text, and the others.
pub(crate) fn first_word(text: &str) -> (&str, &str) {
    text.split_once(' ').unwrap_or((text, ""))
}

// A number that is not negative.
fn numbered(text: &str) -> Option<u32> {
    number(text).ok()
}

// Behind `bp`: a distance, and perhaps `^` and how far behind the place that the far pointer there leads to.
fn local(text: &str) -> Option<Address> {
    match text.split_once('^') {
        Some((slot, plus)) => Some(Address::Through {
            slot: whole(slot).ok()?,
            plus: distance(plus)?,
        }),
        None => Some(Address::Local(whole(text).ok()?)),
    }
}

// Nothing, or `+` and a number.
fn distance(text: &str) -> Option<u16> {
    if text.is_empty() {
        Some(0)
    } else {
        word(text).ok()
    }
}

// A number, and perhaps `+` and another one.
fn datum(unit: u32, text: &str) -> Option<Address> {
    let (number, plus) = text.split_once('+').unwrap_or((text, ""));
    Some(Address::Global {
        unit,
        number: numbered(number)?,
        plus: distance(plus)?,
    })
}

// Behind `u`: the unit's place in the names, and the datum.
fn datum_of_unit(text: &str) -> Option<Address> {
    let (unit, rest) = text.split_once(".d")?;
    datum(numbered(unit)?, rest)
}

// Behind `links`: how many there are, and the distance from the last link word.
fn outer(text: &str) -> Option<Address> {
    let (levels, at) = text.split_once(':')?;
    Some(Address::Outer {
        levels: (numbered(levels)? % 256) as u8,
        at: whole(at).ok()?,
    })
}

/// The place that stands between brackets.
pub(crate) fn address(text: &str) -> Option<Address> {
    if let Some(rest) = text.strip_prefix("bp") {
        local(rest)
    } else if let Some(rest) = text.strip_prefix("d") {
        datum(0, rest)
    } else if let Some(rest) = text.strip_prefix("u") {
        datum_of_unit(rest)
    } else {
        outer(text.strip_prefix("links")?)
    }
}

/// What stands before the brackets, and the place between them.
pub(crate) fn placed(text: &str) -> Option<(&str, Address)> {
    let (kind, place) = text.strip_suffix("]")?.split_once('[')?;
    Some((kind, address(place)?))
}
