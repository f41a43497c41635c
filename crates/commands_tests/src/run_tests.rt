use crate::outside::{Failing, NONE, Outside, bytes_of, empty_outside, status_of, took};
use std::alloc::{AllocError, Global};
use std::test::Fail;

/// The executable that `go` writes for a program that writes `Hi` and halts with code 3.
fn executable(alloc: Global) -> Result<Vec<u8>, Fail> {
    let mut left = empty_outside(alloc, NONE)?;
    left.files.put("a.pas", b"begin Write('Hi'); Halt(3) end.")?;
    status_of(alloc, &["go", "A"], &mut left)?;
    bytes_of(alloc, &left, "a.exe")
}

/// A folder with that executable.
fn before(alloc: Global, exe: &[u8], files: u64) -> Result<Outside, AllocError> {
    let mut before = empty_outside(alloc, Failing { files, ..NONE })?;
    before.files.put("a.exe", exe)?;
    Ok(before)
}

/// The number of the files' call that fails, the exit status, and what the output and the errors took.
type FaultRow = (u64, u8, &'static str, &'static str);

// The files are asked for the executable's size and its bytes. A call with a number past these is not made.
const FAULT_ROWS: [FaultRow; 4] = [
    (0, 3, "Hi", ""),
    (1, 254, "", "tp: FilesFault\n"),
    (2, 254, "", "tp: FilesFault\n"),
    (3, 3, "Hi", ""),
];

fn is_so(alloc: Global, exe: &[u8], row: &FaultRow) -> Result<bool, AllocError> {
    let (files, status, output, errors) = *row;
    let mut left = before(alloc, exe, files)?;
    let is_status = status_of(alloc, &["run", "A"], &mut left)? == status;
    Ok(is_status && took(&left, output, errors))
}

#[test]
fn runs_what_go_wrote(rt: HostRuntime) -> Result<(), Fail> {
    let exe = executable(rt.alloc())?;
    for row in &FAULT_ROWS {
        assert!(rt; is_so(rt.alloc(), exe.as_slice(), row)?, "{}", row.0);
    }
    Ok(())
}

/// Words, and their exit status.
type WordRow = (&'static [&'static str], u8);

const WORD_ROWS: [WordRow; 10] = [
    (&["run", "A", "--limit", "2"], 251),
    (
        &["run", "A", "--retry", "1", "--limit", "99", "--buffer", "0"],
        3,
    ),
    (&["run", "A", "--limit", "99", "--limit", "99"], 252),
    (&["run", "A", "--limit"], 252),
    (&["run", "A", "--buffer", "40961"], 252),
    (&["go", "A", "--limit", "-1"], 252),
    (&["run", "--limit=2", "A"], 251),
    (&["--retry", "1", "run", "A"], 3),
    (&["--version"], 0),
    (&["run", "A", "--version"], 252),
];

fn has_status(alloc: Global, exe: &[u8], row: &WordRow) -> Result<bool, AllocError> {
    let mut left = before(alloc, exe, 0)?;
    Ok(status_of(alloc, row.0, &mut left)? == row.1)
}

#[test]
fn takes_its_options_in_any_order_and_once(rt: HostRuntime) -> Result<(), Fail> {
    let exe = executable(rt.alloc())?;
    for row in &WORD_ROWS {
        assert!(rt; has_status(rt.alloc(), exe.as_slice(), row)?, "{:?}", row.0);
    }
    Ok(())
}

/// The number of the output's call that fails, the exit status, and what the output and the errors took.
const TEXT_ROWS: [FaultRow; 2] = [
    (0, 0, "tp 0.1, proved and built by rattle-kit-13f\n", ""),
    (1, 254, "", "tp: OutputFault\n"),
];

fn is_told(alloc: Global, row: &FaultRow) -> Result<bool, AllocError> {
    let (output, status, taken, told) = *row;
    let mut left = empty_outside(alloc, Failing { output, ..NONE })?;
    let is_status = status_of(alloc, &["--version"], &mut left)? == status;
    Ok(is_status && took(&left, taken, told))
}

#[test]
fn tells_its_version(rt: HostRuntime) -> Result<(), Fail> {
    for row in &TEXT_ROWS {
        assert!(rt; is_told(rt.alloc(), row)?, "{}", row.0);
    }
    Ok(())
}
