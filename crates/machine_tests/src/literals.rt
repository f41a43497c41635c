//! Programs of literals: trees from constants, by their names.

use literal_programs::literal_executable;
use mz_file::Exe;
use std::alloc::Global;
use test_rows::{Line, put, put_bytes};
use tree_samples::ExprSample::{Load, Number, Text};
use tree_samples::PlaceSample::Var;
use tree_samples::StmtSample::{Block, Exit, Halt, Write};
use tree_samples::TypeSample::{Ordinal, Str};
use tree_samples::{
    ExprSample, PlaceSample, RoutineSample, StmtSample, TypeSample, UnitSample, WriteSample,
    program,
};
use type_layout::{Host, Kind, TypeId};
use typed_tree::Variable;

const INTEGER: TypeId = TypeId(0);

const STRING: TypeId = TypeId(1);

const CHAR: TypeId = TypeId(2);

const TYPES: &[(&str, u32, TypeSample)] = &[
    ("A", 0, Ordinal(Host::Integer, -32_768, 32_767)),
    ("A", 1, Str(255)),
    ("A", 2, Ordinal(Host::Char, 0, 255)),
];

const PART: RoutineSample = RoutineSample {
    header: (Kind::Procedure, &[], None),
    owner: None,
    outer: None,
    far: true,
    locals: &[],
};

/// A program with one global variable, an Integer.
const UNIT: UnitSample = UnitSample {
    names: &["A"],
    types: TYPES,
    globals: &[(INTEGER, None)],
    initial: Some(0),
    overlayable: false,
    overlaid: &[],
    stack: 16_384,
    heap: 0,
};

const VARIABLE: PlaceSample = Var(Variable {
    unit: 0,
    level: 0,
    number: 0,
});

const LOADED: ExprSample = Load(INTEGER, &VARIABLE);

const HI: WriteSample = (Text(STRING, "Hi"), None);

/// WriteLn('Hi', 'a'); Halt(-2)
const SHOWS: StmtSample = Block(&[
    Write(&[HI, (Number(CHAR, 97), None)], true),
    Halt(&Number(INTEGER, -2)),
]);

/// Programs by their names.
const PROGRAMS: &[(&str, UnitSample, StmtSample)] = &[
    ("WriteLn('Hi', 'a'); Halt(-2)", UNIT, SHOWS),
    ("nothing", UNIT, Block(&[])),
    (
        "begin Write; WriteLn end",
        UNIT,
        Block(&[Block(&[Write(&[], false)]), Write(&[], true)]),
    ),
    ("Halt(256)", UNIT, Halt(&Number(INTEGER, 256))),
    ("Write(variable)", UNIT, Write(&[(LOADED, None)], false)),
    (
        "Write(1)",
        UNIT,
        Write(&[(Number(INTEGER, 1), None)], false),
    ),
    (
        "Write('a': 1)",
        UNIT,
        Write(&[(Text(STRING, "a"), Some(Number(INTEGER, 1)))], false),
    ),
    (
        "WriteLn('Hi'); Exit",
        UNIT,
        Block(&[Write(&[HI], true), Exit]),
    ),
    ("Halt(variable)", UNIT, Halt(&LOADED)),
    (
        "a unit that overlays another",
        UnitSample {
            overlaid: &["B"],
            ..UNIT
        },
        SHOWS,
    ),
    (
        "a stack of 512 bytes",
        UnitSample { stack: 512, ..UNIT },
        SHOWS,
    ),
    (
        "no main part",
        UnitSample {
            initial: None,
            ..UNIT
        },
        SHOWS,
    ),
];

// The executable of a program by its name, where it is one of literals.
fn made(alloc: Global, name: &str) -> Option<Option<Exe>> {
    for (told, unit, main) in PROGRAMS {
        if *told == name {
            let alone = program(alloc, &[(unit, &[(&PART, main)])]).ok()?;
            return literal_executable(alloc, &alone).ok();
        }
    }
    None
}

/// Writes whether a program is one of literals.
pub(crate) fn put_taken(alloc: Global, out: &mut Line, row: &str) -> Option<()> {
    match made(alloc, row)? {
        Some(_) => put(out, "taken"),
        None => put(out, "not taken"),
    }
    Some(())
}

/// Writes the image of a program of literals.
pub(crate) fn put_image(alloc: Global, out: &mut Line, row: &str) -> Option<()> {
    match made(alloc, row)? {
        Some(exe) => put_bytes(out, exe.image.as_slice()),
        None => put(out, "not taken"),
    }
    Some(())
}
