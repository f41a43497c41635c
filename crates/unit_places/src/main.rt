//! Where a unit file is damaged that is cut short, goes on too long, or has one byte changed.
//!
//! `data/sample.hex` is a unit file with one of each part, written by hand. `stdout` was made by `bench/unit_places.py`, a
//! second reader that stands apart from this one.
#![tactic(auto)]

ghost use Rattle.unit_file.specs.Format.{IsUnit};

use std::alloc::{AllocError, Global};
use std::fmt::{self, Display, Formatter, Write};
use std::{fs, io};
use unit_file::{UnitFileError, UnitRecord, read_unit, write_unit};

/// The place of damage, if there is any.
#[derive(Clone, Copy)]
struct Place(Option<u64>);

impl Display for Place {
    fn fmt<W: Write>(&self, f: &mut Formatter<W>) -> fmt::Result {
        match self.0 {
            Some(at) => write!(f, "{at}"),
            None => write!(f, "-"),
        }
    }
}

fn place_of(alloc: Global, bytes: &[u8]) -> Result<Place, AllocError> {
    match read_unit(alloc, bytes) {
        Ok(_) => Ok(Place(None)),
        Err(UnitFileError::Damaged { at }) => Ok(Place(Some(at))),
        Err(UnitFileError::NoMemory) => Err(AllocError),
    }
}

/// The bytes that a text of hexadecimal numbers stands for. A semicolon begins a comment to the end of the line.
fn bytes_in(alloc: Global, text: &str) -> Result<Vec<u8>, AllocError> {
    let mut bytes = Vec::new(alloc);
    for line in text.lines() {
        let numbers = line.split(';').next().unwrap_or("");
        for number in numbers.split_whitespace() {
            if let Ok(byte) = u8::from_str_radix(number, 16) {
                bytes.push(byte)?;
            }
        }
    }
    Ok(bytes)
}

/// The place of damage with another byte at a place.
fn changed(alloc: Global, bytes: &mut [u8], at: usize, byte: u8) -> Result<Place, AllocError> {
    let Some(there) = bytes.get_mut(at) else {
        return Ok(Place(None));
    };
    let before = *there;
    *there = byte;
    let place = place_of(alloc, bytes);
    if let Some(there) = bytes.get_mut(at) {
        *there = before;
    }
    place
}

/// A line on the places of damage of the bytes before a place, and with the byte there the next one, the one before, and with its
/// other top bit.
fn write_places_at(rt: &HostRuntime, bytes: &mut [u8], at: usize) -> io::Result<()> {
    if at >= bytes.len() {
        return Ok(());
    }
    let alloc = rt.alloc();
    let byte = bytes[at];
    let cut = place_of(alloc, &bytes[..at])?;
    let next = changed(alloc, bytes, at, byte.wrapping_add(1))?;
    let previous = changed(alloc, bytes, at, byte.wrapping_sub(1))?;
    let far = changed(alloc, bytes, at, byte ^ 0x80)?;
    println!(rt; "{at}: {cut} {next} {previous} {far}")
}

/// The place of damage with one byte more.
fn longer(alloc: Global, bytes: &mut Vec<u8>, byte: u8) -> Result<Place, AllocError> {
    bytes.push(byte)?;
    let place = place_of(alloc, bytes.as_slice());
    bytes.pop();
    place
}

fn describe(rt: HostRuntime, unit: &UnitRecord, bytes: &[u8]) -> io::Result<()>
    requires { IsUnit unit.now }
{
    let interface = &unit.interface;
    let types = interface.types.count();
    let items = interface.items.len();
    let (stack, heap) = (unit.stack, unit.heap);
    let (overlaid, imports) = (unit.overlaid.len(), unit.imports.len());
    println!(rt;
        "{types} types, {items} items, {overlaid} overlaid, {imports} imports, stack {stack}, heap {heap}"
    )?;
    let object = &unit.object;
    let (globals, tables) = (object.globals.len(), object.vmts.len());
    let routines = object.routines.len();
    println!(rt; "{globals} globals, {tables} tables, {routines} routines")?;
    let again = write_unit(rt.alloc(), unit)?;
    let same = again.as_slice() == bytes;
    println!(rt; "written again: {same}")
}

/// What the file holds that was read, and whether writing it gives the same bytes.
fn describe_read(rt: HostRuntime, unit: UnitRecord, bytes: &[u8]) -> io::Result<()>
    requires { IsUnit unit }
{
    describe(rt, &unit, bytes)
}

fn main(rt: HostRuntime) -> io::Result<()> {
    let alloc = rt.alloc();
    let text = fs::read_to_string(&rt, "sample.hex")?;
    let mut bytes = bytes_in(alloc, &text)?;
    let size = bytes.len();
    for at in 0..size {
        write_places_at(&rt, bytes.as_mut_slice(), at)?;
    }
    let whole = place_of(alloc, bytes.as_slice())?;
    let zero = longer(alloc, &mut bytes, 0)?;
    let most = longer(alloc, &mut bytes, 255)?;
    println!(rt; "{size}: {whole} {zero} {most}")?;
    match read_unit(alloc, bytes.as_slice()) {
        Ok(unit) => describe_read(rt, unit, bytes.as_slice()),
        Err(_) => Ok(()),
    }
}
