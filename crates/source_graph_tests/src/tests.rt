use crate::rows::{ORDERS, ROWS};
use source_graph::source_order::source_order;
use source_graph::{At, GatherError, Gathered, Source, gather};
use std::alloc::{AllocError, Global};
use std::str;
use tp_outside::MemoryFiles;
use type_layout::Name;
use unit_interface::{Order, OrderError};

/// A folder of these files, in which the calls with these numbers fail.
pub fn folder(
    alloc: Global,
    files: &[(&str, &str)],
    failing: &[u64],
) -> Result<MemoryFiles, AllocError> {
    let mut held = MemoryFiles::new(alloc, failing)?;
    for (name, text) in files {
        held.put(name, text.as_bytes())?;
    }
    Ok(held)
}

pub fn write_name(out: &mut String, name: &Name) -> Result<(), AllocError> {
    out.push_str(str::from_utf8(name.as_bytes()).unwrap_or("?"))
}

fn write_at(out: &mut String, at: &At) -> Result<(), AllocError> {
    let line = at.line;
    let column = at.column;
    out.push_str(at.file.as_str())?;
    write!(out, ":{line}:{column}")
}

/// The names of the sources, each with the file of its text.
fn write_sources(out: &mut String, found: &Gathered) -> Result<(), AllocError> {
    for source in &found.sources {
        write_name(out, &source.name)?;
        out.push_str("=")?;
        match found.texts.get(source.text as usize) {
            Some(text) => out.push_str(text.name.as_str())?,
            None => out.push_str("?")?,
        }
        out.push_str(" ")?;
    }
    Ok(())
}

fn write_error(out: &mut String, error: &GatherError) -> Result<(), AllocError> {
    match error {
        GatherError::MissingFile { name } => {
            out.push_str("MissingFile ")?;
            out.push_str(name.as_str())
        }
        GatherError::TooLarge { bytes } => {
            let bytes = *bytes;
            write!(out, "TooLarge {bytes}")
        }
        GatherError::BadToken { at, cause } => {
            let cause = *cause;
            write!(out, "BadToken {cause:?} ")?;
            write_at(out, at)
        }
        GatherError::Syntax { at } => {
            out.push_str("Syntax ")?;
            write_at(out, at)
        }
        GatherError::NotInProfile { at, feature } => {
            let feature = *feature;
            write!(out, "NotInProfile {feature:?} ")?;
            write_at(out, at)
        }
        GatherError::TooDeep { at } => {
            out.push_str("TooDeep ")?;
            write_at(out, at)
        }
        GatherError::FilesFault => out.push_str("FilesFault"),
        GatherError::NoMemory => Err(AllocError),
    }
}

/// The sources of program P.
fn gathered(alloc: Global, files: &mut MemoryFiles) -> Result<Gathered, GatherError> {
    match Name::new(b"P") {
        Some(name) => gather(alloc, &name, files),
        None => Err(GatherError::NoMemory),
    }
}

fn told(alloc: Global, answer: &Result<Gathered, GatherError>) -> Result<String, AllocError> {
    let mut out = String::new(alloc);
    match answer {
        Ok(found) => write_sources(&mut out, found)?,
        Err(error) => write_error(&mut out, error)?,
    }
    Ok(out)
}

/// Whether gathering the sources from these files, where the calls with these numbers fail, gives this.
fn gives(
    alloc: Global,
    files: &[(&str, &str)],
    failing: &[u64],
    expected: &str,
) -> Result<bool, AllocError> {
    let mut held = folder(alloc, files, failing)?;
    let answer = gathered(alloc, &mut held);
    let told = told(alloc, &answer)?;
    Ok(told.as_str() == expected)
}

#[test]
fn the_first_fault_in_the_order_of_the_walk_is_told(rt: HostRuntime) {
    for (files, expected) in ROWS {
        let same = gives(rt.alloc(), files, &[], expected);
        assert!(&rt; same == Ok(true), "{expected}");
    }
}

/// A text of 1,048,580 bytes.
fn long_text(alloc: Global) -> Result<String, AllocError> {
    let mut text = String::new(alloc);
    for _ in 0..104_858 {
        text.push_str("begin end.")?;
    }
    Ok(text)
}

fn long_gives(alloc: Global, expected: &str) -> Result<bool, AllocError> {
    let text = long_text(alloc)?;
    gives(alloc, &[("p.pas", text.as_str())], &[], expected)
}

#[test]
fn a_text_has_at_most_1048576_bytes(rt: HostRuntime) {
    let same = long_gives(rt.alloc(), "TooLarge 1048580");
    assert!(&rt; same == Ok(true));
}

const FILES: [(&str, &str); 3] = [
    ("p.pas", "program P; {$I u.inc} begin end."),
    ("u.inc", "uses U;"),
    ("u.pas", "unit U; interface implementation end."),
];

#[test]
fn a_fault_of_any_call_is_told(rt: HostRuntime) {
    for call in 1..=6 {
        let same = gives(rt.alloc(), &FILES, &[call], "FilesFault");
        assert!(&rt; same == Ok(true), "{call}");
    }
    let same = gives(rt.alloc(), &FILES, &[7], "P=p.pas U=u.pas ");
    assert!(&rt; same == Ok(true));
}

fn write_order(out: &mut String, order: &Order, sources: &[Source]) -> Result<(), AllocError> {
    for place in order.as_slice() {
        match sources.get(*place as usize) {
            Some(source) => write_name(out, &source.name)?,
            None => out.push_str("?")?,
        }
        out.push_str(" ")?;
    }
    Ok(())
}

fn order_of(alloc: Global, found: &Gathered) -> Result<Order, OrderError> {
    match found.sources.as_slice() {
        [] => Err(OrderError::NoMemory),
        sources => source_order(alloc, sources),
    }
}

/// The names of the sources in order of initialisation, or the one that lies on a circle.
fn told_in_order(alloc: Global, found: &Gathered) -> Result<String, AllocError> {
    let mut out = String::new(alloc);
    match order_of(alloc, found) {
        Ok(order) => write_order(&mut out, &order, found.sources.as_slice())?,
        Err(OrderError::Circular { name }) => {
            out.push_str("Circular ")?;
            write_name(&mut out, &name)?;
        }
        Err(OrderError::NoMemory) => return Err(AllocError),
    }
    Ok(out)
}

fn ordered_as(alloc: Global, files: &[(&str, &str)], expected: &str) -> Result<bool, AllocError> {
    let mut held = folder(alloc, files, &[])?;
    match gathered(alloc, &mut held) {
        Ok(found) => {
            let told = told_in_order(alloc, &found)?;
            Ok(told.as_str() == expected)
        }
        Err(_) => Ok(false),
    }
}

#[test]
fn units_come_behind_those_that_they_use(rt: HostRuntime) {
    for (files, expected) in ORDERS {
        let same = ordered_as(rt.alloc(), files, expected);
        assert!(&rt; same == Ok(true), "{expected}");
    }
}
