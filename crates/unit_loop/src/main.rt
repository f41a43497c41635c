//! Reads a unit file with so many references and types, so many times over: to time the reader.
#![tactic(auto)]

use object_file::file_parts::{
    push_count, push_long, push_name, push_option, push_truth, push_word,
};
use std::alloc::{AllocError, Global};
use std::{env, io};
use type_layout::{Bytes, Name};
use unit_file::read_unit;

// The name of the unit with this number: `U` and six digits.
fn unit_name(number: u32) -> Option<Name> {
    let mut text = *b"U000000";
    let mut rest = number;
    for place in (1..text.len()).rev() {
        text[place] = b'0' + (rest % 10) as u8;
        rest /= 10;
    }
    Name::new(&text)
}

// So many types of strings, each declared by a unit of its own.
fn push_types(bytes: &mut Bytes, types: u32) -> Result<(), AllocError> {
    push_long(bytes, types)?;
    for number in 0..types {
        let Some(unit) = unit_name(number) else {
            continue;
        };
        push_name(bytes, &unit)?;
        push_long(bytes, 0)?;
        bytes.push(1)?;
        bytes.push(255)?;
    }
    Ok(())
}

// Everything in front of the one datum: a unit with so many types, without items, and with no other unit.
fn push_front(bytes: &mut Bytes, name: &Name, types: u32) -> Result<(), AllocError> {
    bytes.extend_from_slice(b"TPW1")?;
    push_word(bytes, 1)?;
    push_truth(bytes, false)?;
    push_truth(bytes, false)?;
    push_name(bytes, name)?;
    push_types(bytes, types)?;
    push_count(bytes, 0)?;
    push_count(bytes, 0)?;
    push_long(bytes, 1024)?;
    push_long(bytes, 0)?;
    push_count(bytes, 0)?;
    push_count(bytes, 1)
}

// A datum of words, each of which is the offset of a datum.
fn push_datum(bytes: &mut Bytes, name: &Name, words: u32) -> Result<(), AllocError> {
    let size = words.saturating_mul(2);
    push_long(bytes, size)?;
    push_long(bytes, size)?;
    for _ in 0..size {
        bytes.push(0)?;
    }
    push_long(bytes, words)?;
    for k in 0..words {
        push_long(bytes, k.saturating_mul(2))?;
        bytes.push(2)?;
        push_name(bytes, name)?;
        push_long(bytes, 0)?;
    }
    Ok(())
}

// A unit file with so many references and types.
fn file_with(alloc: Global, name: &Name, references: u32, types: u32) -> Result<Bytes, AllocError> {
    let mut bytes = Bytes::new(alloc);
    push_front(&mut bytes, name, types)?;
    push_datum(&mut bytes, name, references)?;
    push_count(&mut bytes, 0)?;
    push_count(&mut bytes, 0)?;
    push_option(&mut bytes, None)?;
    Ok(bytes)
}

// How many references the first datum of a file has, and how many types, if it is read.
fn count(alloc: Global, bytes: &[u8]) -> Option<(usize, u32)> {
    let unit = read_unit(alloc, bytes).ok()?;
    let datum = unit.object.globals.as_slice().first()?;
    Some((datum.refs.len(), unit.interface.types.count()))
}

fn main(rt: HostRuntime) -> io::Result<()> {
    let mut numbers = [1000u32, 1, 100];
    for (number, text) in numbers.iter_mut().zip(env::args(&rt)?.skip(1)) {
        *number = text.parse().unwrap_or(*number);
    }
    let [references, times, types] = numbers;
    let Some(name) = Name::new(b"A") else {
        return Ok(());
    };
    let bytes = file_with(rt.alloc(), &name, references, types)?;
    let size = bytes.len();
    for _ in 1..times {
        let _again = count(rt.alloc(), bytes.as_slice());
    }
    match count(rt.alloc(), bytes.as_slice()) {
        Some((found, types)) => println!(rt;
            "{size} bytes hold {found} references and {types} types"
        ),
        None => println!(rt; "{size} bytes are not read"),
    }
}
