use crate::outside::{Failing, NONE, Outside, bytes_of, empty_outside, holds, status_of, took};
use std::alloc::{AllocError, Global};
use std::test::Fail;

/// The executable that stands in the folder afterwards.
#[derive(Clone, Copy)]
enum Executable {
    /// The one that stood there before.
    Old,
    /// The one that a run without any fault leaves.
    New,
}

use Executable::{New, Old};

/// The numbers of the calls of the files, the output and the errors that fail, counted from 1; and what is left then: the exit
/// status, the executable, and what the output and the errors took.
type Row = (u64, u64, u64, u8, Executable, &'static str, &'static str);

/// A source of the form, whose output is written three times, since an empty text is no call.
const TAKEN: &[u8] = b"program A; begin Write('Hi', ''); WriteLn('!'); Halt(3); Write('.') end.";

// The files are asked for the source's size and its bytes, and write the executable; the errors are written where a line is due. A call with a
// number past these is not made.
const TAKEN_ROWS: [Row; 12] = [
    (0, 0, 0, 3, New, "Hi!\r\n", ""),
    (1, 0, 0, 254, Old, "", "tp: FilesFault\n"),
    (2, 0, 0, 254, Old, "", "tp: FilesFault\n"),
    (3, 0, 0, 254, Old, "", "tp: FilesFault\n"),
    (4, 0, 0, 3, New, "Hi!\r\n", ""),
    (0, 1, 0, 254, New, "", "tp: OutputFault\n"),
    (0, 2, 0, 254, New, "Hi", "tp: OutputFault\n"),
    (0, 3, 0, 254, New, "Hi!", "tp: OutputFault\n"),
    (0, 4, 0, 3, New, "Hi!\r\n", ""),
    (0, 0, 1, 3, New, "Hi!\r\n", ""),
    (1, 0, 1, 254, Old, "", ""),
    (0, 2, 1, 254, New, "Hi", ""),
];

const REFUSED: &[u8] = b"begin Write(x) end.";

const REFUSED_ROWS: [Row; 7] = [
    (
        0,
        0,
        0,
        252,
        Old,
        "",
        "tp: CheckRefused a.pas:1:13 UnknownName 1\n",
    ),
    (1, 0, 0, 254, Old, "", "tp: FilesFault\n"),
    (2, 0, 0, 254, Old, "", "tp: FilesFault\n"),
    (
        3,
        0,
        0,
        252,
        Old,
        "",
        "tp: CheckRefused a.pas:1:13 UnknownName 1\n",
    ),
    (
        0,
        1,
        0,
        252,
        Old,
        "",
        "tp: CheckRefused a.pas:1:13 UnknownName 1\n",
    ),
    (0, 0, 1, 254, Old, "", ""),
    (
        0,
        0,
        2,
        252,
        Old,
        "",
        "tp: CheckRefused a.pas:1:13 UnknownName 1\n",
    ),
];

const OLD: &[u8] = b"old";

/// A folder with this source, and an old executable.
fn before(alloc: Global, source: &[u8], failing: Failing) -> Result<Outside, AllocError> {
    let mut before = empty_outside(alloc, failing)?;
    before.files.put("a.pas", source)?;
    before.files.put("a.exe", OLD)?;
    Ok(before)
}

/// The executable that a run without any fault leaves.
fn faultless(alloc: Global, source: &[u8]) -> Result<Vec<u8>, Fail> {
    let mut left = before(alloc, source, NONE)?;
    status_of(alloc, &["go", "A"], &mut left)?;
    bytes_of(alloc, &left, "a.exe")
}

fn is_left(executable: Executable, left: &Outside, new: &[u8]) -> bool {
    match executable {
        Old => holds(left, "a.exe", OLD),
        New => holds(left, "a.exe", new),
    }
}

/// Whether `go A` on this source leaves what the row says.
fn is_so(alloc: Global, source: &[u8], new: &[u8], row: &Row) -> Result<bool, AllocError> {
    let (files, output, errors, status, executable, taken, told) = *row;
    let failing = Failing {
        files,
        output,
        errors,
        ..NONE
    };
    let mut left = before(alloc, source, failing)?;
    let is_status = status_of(alloc, &["go", "A"], &mut left)? == status;
    Ok(
        is_status
            && holds(&left, "a.pas", source)
            && is_left(executable, &left, new)
            && took(&left, taken, told),
    )
}

/// Words for the same source, the exit status, the executable, and what the output and the errors took.
type AskedRow = (
    &'static [&'static str],
    u8,
    Executable,
    &'static str,
    &'static str,
);

// Three instructions begin the program, and each text takes four.
const ASKED_ROWS: [AskedRow; 3] = [
    (
        &["go", "--limit", "8", "A"],
        251,
        New,
        "Hi",
        "tp: InstructionLimit 8\n",
    ),
    (
        &["go", "A", "--buffer=40960"],
        252,
        Old,
        "",
        "tp: MemoryTooSmall 54390\n",
    ),
    (
        &["go", "A", "--retry", "1", "--turns", "2"],
        3,
        New,
        "Hi!\r\n",
        "",
    ),
];

/// Whether these words on that source leave what the row says.
fn is_asked_so(alloc: Global, new: &[u8], row: &AskedRow) -> Result<bool, AllocError> {
    let (words, status, executable, taken, told) = *row;
    let mut left = before(alloc, TAKEN, NONE)?;
    let is_status = status_of(alloc, words, &mut left)? == status;
    Ok(is_status && is_left(executable, &left, new) && took(&left, taken, told))
}

/// The number of the first row that doesn't hold.
fn first_wrong(alloc: Global, source: &[u8], rows: &[Row]) -> Result<Option<usize>, Fail> {
    let new = faultless(alloc, source)?;
    for number in 0..rows.len() {
        if !is_so(alloc, source, new.as_slice(), &rows[number])? {
            return Ok(Some(number));
        }
    }
    Ok(None)
}

#[test]
fn each_call_of_a_run_fails_once(rt: HostRuntime) -> Result<(), Fail> {
    assert_eq!(rt; first_wrong(rt.alloc(), TAKEN, &TAKEN_ROWS)?, None);
    Ok(())
}

#[test]
fn each_call_of_a_refused_command_fails_once(rt: HostRuntime) -> Result<(), Fail> {
    assert_eq!(rt; first_wrong(rt.alloc(), REFUSED, &REFUSED_ROWS)?, None);
    Ok(())
}

#[test]
fn writes_an_executable(rt: HostRuntime) -> Result<(), Fail> {
    let exe = faultless(rt.alloc(), TAKEN)?;
    assert!(rt; exe.as_slice().starts_with(b"MZ"));
    Ok(())
}

#[test]
fn takes_the_options_of_a_run(rt: HostRuntime) -> Result<(), Fail> {
    let new = faultless(rt.alloc(), TAKEN)?;
    for row in &ASKED_ROWS {
        assert!(rt;
            is_asked_so(rt.alloc(), new.as_slice(), row)?,
            "{:?}",
            row.0
        );
    }
    Ok(())
}
