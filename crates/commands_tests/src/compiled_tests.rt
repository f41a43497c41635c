use crate::outside::{Failing, NONE, Outside, bytes_of, empty_outside, holds, status_of, took};
use std::alloc::{AllocError, Global};
use std::test::Fail;

/// The executable and the overlay file that stand in the folder afterwards.
#[derive(Clone, Copy)]
enum Left {
    /// Those that stood there before.
    Old,
    /// The executable of a run without any fault, and the overlay file that stood there before.
    First,
    /// Those of a run without any fault.
    All,
}

use Left::{All, First, Old};

/// The numbers of the calls of the files, the output and the errors that fail, counted from 1; and what is left then: the exit
/// status, the files, and what the output and the errors took.
type Row = (u64, u64, u64, u8, Left, &'static str, &'static str);

const PROGRAM: &[u8] =
    b"{$F+} program A; uses Overlay, U; {$O U} begin Write('a'); OvrInit('A.OVR'); P(1); P(2) end.";

const UNIT: &[u8] =
    b"{$F+,O+} unit U; interface procedure P(n: Integer); implementation procedure P(n: Integer); begin Write(n) end; end.";

// The files are asked for the sizes of both sources and their bytes, write the executable and the overlay file, and give the overlay's code
// and its fixups to the program that runs.
const ROWS: [Row; 16] = [
    (0, 0, 0, 0, All, "a12", ""),
    (1, 0, 0, 254, Old, "", "tp: FilesFault\n"),
    (2, 0, 0, 254, Old, "", "tp: FilesFault\n"),
    (3, 0, 0, 254, Old, "", "tp: FilesFault\n"),
    (4, 0, 0, 254, Old, "", "tp: FilesFault\n"),
    (5, 0, 0, 254, Old, "", "tp: FilesFault\n"),
    (6, 0, 0, 254, First, "", "tp: FilesFault\n"),
    (7, 0, 0, 254, All, "a", "tp: FilesFault\n"),
    (8, 0, 0, 254, All, "a", "tp: FilesFault\n"),
    (9, 0, 0, 0, All, "a12", ""),
    (0, 1, 0, 254, All, "", "tp: OutputFault\n"),
    (0, 3, 0, 254, All, "a1", "tp: OutputFault\n"),
    (0, 4, 0, 0, All, "a12", ""),
    (5, 0, 1, 254, Old, "", ""),
    (6, 0, 1, 254, First, "", ""),
    (7, 0, 1, 254, All, "a", ""),
];

const OLD: &[u8] = b"old";

/// A folder with both sources, and an old executable and overlay file.
fn before(alloc: Global, failing: Failing) -> Result<Outside, AllocError> {
    let mut before = empty_outside(alloc, failing)?;
    before.files.put("a.pas", PROGRAM)?;
    before.files.put("u.pas", UNIT)?;
    before.files.put("a.exe", OLD)?;
    before.files.put("a.ovr", OLD)?;
    Ok(before)
}

/// What a run without any fault leaves.
fn faultless(alloc: Global) -> Result<Outside, AllocError> {
    let mut left = before(alloc, NONE)?;
    status_of(alloc, &["go", "A"], &mut left)?;
    Ok(left)
}

fn is_left(files: Left, left: &Outside, executable: &[u8], overlays: &[u8]) -> bool {
    match files {
        Old => holds(left, "a.exe", OLD) && holds(left, "a.ovr", OLD),
        First => holds(left, "a.exe", executable) && holds(left, "a.ovr", OLD),
        All => holds(left, "a.exe", executable) && holds(left, "a.ovr", overlays),
    }
}

/// Whether `go A` leaves what the row says.
fn is_so(alloc: Global, executable: &[u8], overlays: &[u8], row: &Row) -> Result<bool, AllocError> {
    let (files, output, errors, status, written, taken, told) = *row;
    let failing = Failing {
        files,
        output,
        errors,
        ..NONE
    };
    let mut left = before(alloc, failing)?;
    let is_status = status_of(alloc, &["go", "A"], &mut left)? == status;
    Ok(is_status && is_left(written, &left, executable, overlays) && took(&left, taken, told))
}

/// The number of the first row that doesn't hold.
fn first_wrong(alloc: Global) -> Result<Option<usize>, Fail> {
    let new = faultless(alloc)?;
    let executable = bytes_of(alloc, &new, "a.exe")?;
    let overlays = bytes_of(alloc, &new, "a.ovr")?;
    for number in 0..ROWS.len() {
        if !is_so(
            alloc,
            executable.as_slice(),
            overlays.as_slice(),
            &ROWS[number],
        )? {
            return Ok(Some(number));
        }
    }
    Ok(None)
}

/// Words, the exit status, the files, and what the output and the errors took.
type AskedRow = (
    &'static [&'static str],
    u8,
    Left,
    &'static str,
    &'static str,
);

const ASKED_ROWS: [AskedRow; 3] = [
    (
        &["go", "A", "--buffer=1"],
        252,
        Old,
        "",
        "tp: BufferTooSmall 5 1\n",
    ),
    (
        &["go", "A", "--buffer=40960"],
        252,
        Old,
        "",
        "tp: MemoryTooSmall 54536\n",
    ),
    (
        &["go", "A", "--retry", "1", "--buffer", "99"],
        0,
        All,
        "a12",
        "",
    ),
];

/// Whether these words leave what the row says.
fn is_asked_so(
    alloc: Global,
    executable: &[u8],
    overlays: &[u8],
    row: &AskedRow,
) -> Result<bool, AllocError> {
    let (words, status, written, taken, told) = *row;
    let mut left = before(alloc, NONE)?;
    let is_status = status_of(alloc, words, &mut left)? == status;
    Ok(is_status && is_left(written, &left, executable, overlays) && took(&left, taken, told))
}

#[test]
fn each_call_of_a_run_with_overlays_fails_once(rt: HostRuntime) -> Result<(), Fail> {
    assert_eq!(rt; first_wrong(rt.alloc())?, None);
    Ok(())
}

#[test]
fn takes_the_options_of_a_run_with_overlays(rt: HostRuntime) -> Result<(), Fail> {
    let new = faultless(rt.alloc())?;
    let executable = bytes_of(rt.alloc(), &new, "a.exe")?;
    let overlays = bytes_of(rt.alloc(), &new, "a.ovr")?;
    for row in &ASKED_ROWS {
        assert!(rt;
            is_asked_so(rt.alloc(), executable.as_slice(), overlays.as_slice(), row)?,
            "{:?}",
            row.0
        );
    }
    Ok(())
}

/// A program without overlays, which is not of the literal form.
const PLAIN: &[u8] = b"var i: Byte; begin i := 3; Write('Hi'); WriteLn(i); Halt(i) end.";

#[test]
fn leaves_an_old_overlay_file(rt: HostRuntime) -> Result<(), Fail> {
    let mut left = before(rt.alloc(), NONE)?;
    left.files.put("a.pas", PLAIN)?;
    assert_eq!(rt; status_of(rt.alloc(), &["go", "A"], &mut left)?, 3);
    assert!(rt; holds(&left, "a.ovr", OLD));
    assert!(rt; took(&left, "Hi3\r\n", ""));
    Ok(())
}
