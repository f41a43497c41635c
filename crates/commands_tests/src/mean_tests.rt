use crate::outside::{Failing, NONE, Outside, holds, outside_with, status_of, took};
use std::alloc::{AllocError, Global};
use std::test::Fail;

/// What is asked of a folder, and the input.
#[derive(Clone, Copy)]
struct Asked {
    words: &'static [&'static str],
    unit: &'static [u8],
    source: &'static [u8],
    input: &'static [u8],
}

/// The numbers of the calls of the files, the input, the output and the errors that fail, counted from 1; and what is left then: the exit
/// status, and what the output and the errors took.
type Row = (u64, u64, u64, u64, u8, &'static str, &'static str);

const UNIT: &[u8] = b"unit U; interface const Code = 3; implementation end.";

/// A program that writes a byte of its input, and halts with a constant of its unit.
const ENDING: Asked = Asked {
    words: &["mean", "A"],
    unit: UNIT,
    source: b"program A; uses U; var c: Char; begin Read(c); Write('Hi', c); Halt(Code) end.",
    input: b"!",
};

// The files are asked for the size and the bytes of both sources, and the input for its bytes and then for more. What the program writes is
// written at once, and empty errors are not written.
const ENDING_ROWS: [Row; 12] = [
    (0, 0, 0, 0, 3, "Hi!", ""),
    (1, 0, 0, 0, 254, "", "tp: FilesFault\n"),
    (2, 0, 0, 0, 254, "", "tp: FilesFault\n"),
    (3, 0, 0, 0, 254, "", "tp: FilesFault\n"),
    (4, 0, 0, 0, 254, "", "tp: FilesFault\n"),
    (5, 3, 2, 1, 3, "Hi!", ""),
    (0, 1, 0, 0, 254, "", "tp: InputFault\n"),
    (0, 2, 0, 0, 254, "", "tp: InputFault\n"),
    (0, 0, 1, 0, 254, "", "tp: OutputFault\n"),
    (0, 0, 1, 1, 254, "", ""),
    (4, 1, 1, 0, 254, "", "tp: FilesFault\n"),
    (0, 2, 1, 1, 254, "", ""),
];

/// A program that ends with a runtime error.
const FAILING: Asked = Asked {
    words: &["mean", "A"],
    unit: UNIT,
    source: b"var i: Integer; begin i := 0; Write('q', 1 div i) end.",
    input: b"",
};

const FAILING_ROWS: [Row; 3] = [
    (0, 0, 0, 0, 200, "q", "Runtime error 200\r\n"),
    (0, 0, 0, 1, 254, "q", ""),
    (0, 0, 0, 2, 200, "q", "Runtime error 200\r\n"),
];

/// A program that reads what it has not set.
const UNDEFINED: Asked = Asked {
    words: &["mean", "A"],
    unit: UNIT,
    source: b"var i: Integer; begin Write('q'); Write(i) end.",
    input: b"",
};

const UNDEFINED_ROWS: [Row; 2] = [
    (0, 0, 0, 0, 249, "q", "tp: Undefined 1\n"),
    (0, 0, 0, 1, 254, "q", ""),
];

/// A program that never ends, for three turns.
const ENDLESS: Asked = Asked {
    words: &["mean", "A", "--turns", "3"],
    unit: UNIT,
    source: b"begin while true do Write('a') end.",
    input: b"",
};

const ENDLESS_ROWS: [Row; 2] = [
    (0, 0, 0, 0, 250, "aaa", "tp: TurnLimit\n"),
    (0, 0, 0, 1, 254, "aaa", ""),
];

/// A unit's rule fails: nothing is read or written but the line.
const REFUSED: Asked = Asked {
    words: &["mean", "A"],
    unit: b"unit U; interface var a: Integer; var a: Integer; implementation end.",
    source: b"program A; uses U; begin end.",
    input: b"",
};

const REFUSED_ROWS: [Row; 2] = [
    (
        0,
        1,
        1,
        0,
        252,
        "",
        "tp: CheckRefused u.pas:1:39 DuplicateName 2\n",
    ),
    (0, 0, 0, 1, 254, "", ""),
];

/// A folder with these sources, and this input.
fn before(alloc: Global, asked: &Asked, failing: Failing) -> Result<Outside, AllocError> {
    let mut before = outside_with(alloc, asked.input, failing)?;
    before.files.put("a.pas", asked.source)?;
    before.files.put("u.pas", asked.unit)?;
    Ok(before)
}

/// Whether what is asked leaves what the row says.
fn is_so(alloc: Global, asked: &Asked, row: &Row) -> Result<bool, AllocError> {
    let (files, input, output, errors, status, taken, told) = *row;
    let failing = Failing {
        files,
        input,
        output,
        errors,
    };
    let mut left = before(alloc, asked, failing)?;
    let is_status = status_of(alloc, asked.words, &mut left)? == status;
    Ok(is_status && holds(&left, "a.pas", asked.source) && took(&left, taken, told))
}

/// The number of the first row that doesn't hold.
fn first_wrong(alloc: Global, asked: &Asked, rows: &[Row]) -> Result<Option<usize>, Fail> {
    for number in 0..rows.len() {
        if !is_so(alloc, asked, &rows[number])? {
            return Ok(Some(number));
        }
    }
    Ok(None)
}

#[test]
fn each_call_of_a_shown_meaning_fails_once(rt: HostRuntime) -> Result<(), Fail> {
    assert_eq!(rt; first_wrong(rt.alloc(), &ENDING, &ENDING_ROWS)?, None);
    Ok(())
}

#[test]
fn shows_how_a_program_ends(rt: HostRuntime) -> Result<(), Fail> {
    assert_eq!(rt; first_wrong(rt.alloc(), &FAILING, &FAILING_ROWS)?, None);
    assert_eq!(rt; first_wrong(rt.alloc(), &UNDEFINED, &UNDEFINED_ROWS)?, None);
    assert_eq!(rt; first_wrong(rt.alloc(), &ENDLESS, &ENDLESS_ROWS)?, None);
    Ok(())
}

#[test]
fn refuses_a_unit_whose_rule_fails(rt: HostRuntime) -> Result<(), Fail> {
    assert_eq!(rt; first_wrong(rt.alloc(), &REFUSED, &REFUSED_ROWS)?, None);
    Ok(())
}

/// Whether `mean A` on so many bytes of input gives this status, and tells this.
fn is_told_of(alloc: Global, count: usize, status: u8, told: &str) -> Result<bool, AllocError> {
    let bytes = vec![in alloc; b'x'; count]?;
    let mut left = outside_with(alloc, bytes.as_slice(), NONE)?;
    left.files.put("a.pas", b"begin end.")?;
    let is_status = status_of(alloc, &["mean", "A"], &mut left)? == status;
    Ok(is_status && took(&left, "", told))
}

#[test]
fn takes_the_longest_input_and_no_longer(rt: HostRuntime) -> Result<(), Fail> {
    assert!(rt; is_told_of(rt.alloc(), 1_048_576, 0, "")?);
    assert!(rt; is_told_of(rt.alloc(), 1_048_577, 252, "tp: TooLarge Input 1048577\n")?);
    Ok(())
}
