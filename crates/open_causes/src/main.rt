//! Why a program is not opened one of whose two files is cut short, goes on too long, or has one byte changed.
//!
//! `data` has the two files of a program with two overlays. `stdout` was made by `bench/open_causes.py`, a second reader that
//! stands apart from this one.
#![tactic(auto)]

use dos_runner::overlay_runner::{OpenError, Runner};
use mz_file::ExeCause;
use std::alloc::{AllocError, Global};
use std::fmt::{self, Display, Formatter, Write};
use std::io;
use tp_outside::{MemoryFiles, RealFiles, read_file};
use type_layout::FileName;

/// The paragraphs of the buffer: as many as each overlay has.
const BUFFER: u16 = 2;

/// Why a program is not opened, if it isn't.
#[derive(Drop)]
struct Answer(Option<OpenError>);

fn write_cause<W: Write>(f: &mut Formatter<W>, cause: ExeCause) -> fmt::Result {
    match cause {
        ExeCause::Short => write!(f, "Short"),
        ExeCause::NotMz => write!(f, "NotMz"),
        ExeCause::BadPages => write!(f, "BadPages"),
        ExeCause::BadRelocation { number } => write!(f, "BadRelocation {number}"),
        ExeCause::NoBlock => write!(f, "NoBlock"),
    }
}

impl Display for Answer {
    fn fmt<W: Write>(&self, f: &mut Formatter<W>) -> fmt::Result {
        match &self.0 {
            None => write!(f, "-"),
            Some(OpenError::NotExecutable { cause }) => write_cause(f, *cause),
            Some(OpenError::OverlayFileDamaged { at }) => write!(f, "Damaged {at}"),
            Some(OpenError::OverlayMismatch { overlay }) => write!(f, "Mismatch {overlay}"),
            Some(OpenError::BufferTooSmall { need, have }) => write!(f, "Buffer {need} {have}"),
            Some(OpenError::MemoryTooSmall { need }) => write!(f, "Memory {need}"),
            Some(_) => write!(f, "not read"),
        }
    }
}

/// The two files of a program. One of them is tried with other bytes.
#[derive(Clone, Copy)]
enum Tried<'a> {
    /// The executable, beside this overlay file.
    Executable(&'a [u8]),
    /// The overlay file, beside this executable.
    Overlays(&'a [u8]),
}

fn open(
    alloc: Global,
    name: &FileName,
    executable: &[u8],
    overlays: &[u8],
) -> Result<Answer, AllocError> {
    let mut files = MemoryFiles::new(alloc, &[])?;
    files.put(name.as_str(), overlays)?;
    match Runner::open(alloc, executable, name, &mut files, Some(BUFFER)) {
        Ok(_) => Ok(Answer(None)),
        Err(OpenError::NoMemory) => Err(AllocError),
        Err(error) => Ok(Answer(Some(error))),
    }
}

fn open_with(
    alloc: Global,
    name: &FileName,
    other: Tried<'_>,
    bytes: &[u8],
) -> Result<Answer, AllocError> {
    match other {
        Tried::Executable(overlays) => open(alloc, name, bytes, overlays),
        Tried::Overlays(executable) => open(alloc, name, executable, bytes),
    }
}

/// The answer with another byte at a place.
fn changed(
    alloc: Global,
    name: &FileName,
    other: Tried<'_>,
    bytes: &mut [u8],
    at: usize,
    byte: u8,
) -> Result<Answer, AllocError> {
    let Some(there) = bytes.get_mut(at) else {
        return Ok(Answer(None));
    };
    let before = *there;
    *there = byte;
    let found = open_with(alloc, name, other, bytes);
    if let Some(there) = bytes.get_mut(at) {
        *there = before;
    }
    found
}

/// A line on the bytes before a place, and on the byte there as the next one, the one before, and with its other top bit.
fn write_place(
    rt: &HostRuntime,
    name: &FileName,
    other: Tried<'_>,
    bytes: &mut [u8],
    at: usize,
) -> io::Result<()> {
    if at >= bytes.len() {
        return Ok(());
    }
    let alloc = rt.alloc();
    let byte = bytes[at];
    let cut = open_with(alloc, name, other, &bytes[..at])?;
    let next = changed(alloc, name, other, bytes, at, byte.wrapping_add(1))?;
    let previous = changed(alloc, name, other, bytes, at, byte.wrapping_sub(1))?;
    let far = changed(alloc, name, other, bytes, at, byte ^ 0x80)?;
    println!(rt; "{at}: {cut}, {next}, {previous}, {far}")
}

fn write_places(
    rt: &HostRuntime,
    name: &FileName,
    other: Tried<'_>,
    bytes: &mut Vec<u8>,
) -> io::Result<()> {
    let size = bytes.len();
    for at in 0..size {
        write_place(rt, name, other, bytes.as_mut_slice(), at)?;
    }
    let whole = open_with(rt.alloc(), name, other, bytes.as_slice())?;
    bytes.push(0)?;
    let longer = open_with(rt.alloc(), name, other, bytes.as_slice())?;
    bytes.pop();
    println!(rt; "{size}: {whole}, {longer}")
}

fn file(rt: &HostRuntime, name: &str) -> io::Result<Vec<u8>> {
    let mut files = RealFiles::new(rt.clone()?);
    match read_file(rt.alloc(), &mut files, name) {
        Ok(Some(bytes)) => Ok(bytes),
        _ => Ok(Vec::new(rt.alloc())),
    }
}

fn main(rt: HostRuntime) -> io::Result<()> {
    let mut executable = file(&rt, "calls.exe")?;
    let mut overlays = file(&rt, "calls.ovr")?;
    let Some(name) = FileName::new("calls.ovr") else {
        return Ok(());
    };
    println!(rt; "calls.exe")?;
    let other = Tried::Executable(overlays.as_slice());
    write_places(&rt, &name, other, &mut executable)?;
    println!(rt; "calls.ovr")?;
    let other = Tried::Overlays(executable.as_slice());
    write_places(&rt, &name, other, &mut overlays)
}
