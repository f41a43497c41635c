//! Names that hide one another: steps on a scope, and what searches in it show.

use crate::rows::{expect, expect_true};
use scopes::{BlockKind, Entry, Found, INTEGER, Scope, Symbols};
use std::alloc::{AllocError, Global};
use tree_samples::{HeaderSample, TypeSample, definition, named};
use type_layout::{Kind, Name, RoutineId, TypeDef, TypeId};
use typed_tree::standard::{EXIT, WRITE, WRITE_LN};

/// What is done to a scope, or asked of it.
enum Step {
    /// A unit with these variables is used; their numbers are their places.
    Use(&'static [&'static str]),
    /// A block is opened with these variables, each with this number.
    Open(BlockKind, u32, &'static [&'static str]),
    /// A variable with this number is entered, which is new or not.
    Enter(&'static str, u32, bool),
    Close,
    See(u32),
    /// A type is added at this number.
    Add(TypeSample, u32),
    /// A unit has this place.
    Unit(&'static str, u32),
    /// Names are found so.
    Find(&'static [(&'static str, Search)]),
}

/// What a search shows: the block, `v` for a variable, `f` for a field, `m` for a method, `s` for a standard routine,
/// `t` for a type and `c` for a constant, and its number. Nothing is block 0, `-` and 0.
type Search = (u32, u8, u32);

fn variable(number: u32) -> Entry {
    Entry::Var {
        unit: 0,
        level: 0,
        number,
        ty: INTEGER,
    }
}

fn add_variable(symbols: &mut Symbols, name: &str, number: u32) -> Result<bool, AllocError> {
    symbols.enter(named(name)?, variable(number))
}

fn symbols(alloc: Global, names: &[&str]) -> Result<Symbols, AllocError> {
    let mut symbols = Symbols::new(alloc);
    let mut number = 0u32;
    for name in names {
        if !add_variable(&mut symbols, name, number)? {
            return Err(AllocError);
        }
        number = number.saturating_add(1);
    }
    Ok(symbols)
}

fn add_use(alloc: Global, scope: &mut Scope, names: &[&str]) -> Result<bool, AllocError> {
    scope.add_use(symbols(alloc, names)?)?;
    Ok(true)
}

// Enters a variable into the innermost block, if one is open.
fn enter(scope: &mut Scope, name: &str, number: u32) -> Result<bool, AllocError> {
    let name = named(name)?;
    if scope.is_open() {
        scope.enter(name, variable(number))
    } else {
        Err(AllocError)
    }
}

fn begin(scope: &mut Scope, block: BlockKind) -> Result<(), AllocError> {
    scope.begin(block)
}

fn open(
    scope: &mut Scope,
    block: BlockKind,
    number: u32,
    names: &[&str],
) -> Result<bool, AllocError> {
    begin(scope, block)?;
    for name in names {
        if !enter(scope, name, number)? {
            return Ok(false);
        }
    }
    Ok(true)
}

fn close(scope: &mut Scope) -> bool {
    if scope.is_open() {
        scope.end();
        true
    } else {
        false
    }
}

fn see(scope: &mut Scope, uses: u32) -> bool {
    scope.see(uses);
    true
}

fn add_definition(scope: &mut Scope, one: TypeDef) -> Result<TypeId, AllocError> {
    let origin = named("P")?;
    if !scope.types().takes(&origin, &one) {
        return Err(AllocError);
    }
    match scope.add_type(origin, 0, one) {
        Ok(id) => Ok(id),
        Err(_) => Err(AllocError),
    }
}

fn add(alloc: Global, scope: &mut Scope, sample: &TypeSample) -> Result<u32, AllocError> {
    let id = add_definition(scope, definition(alloc, sample)?)?;
    Ok(id.0)
}

fn place_of_unit(scope: &mut Scope, name: &str) -> Result<u32, AllocError> {
    scope.unit(named(name)?)
}

fn told_of(entry: &Entry) -> (u8, u32) {
    match entry {
        Entry::Var { number, .. } => (b'v', *number),
        Entry::Std { number } => (b's', *number),
        Entry::Ty { ty } => (b't', ty.0),
        Entry::Const { .. } => (b'c', 0),
        Entry::Code { .. } => (b'r', 0),
    }
}

fn told(scope: &Scope, name: &str) -> Search {
    let Some(name) = Name::new(name.as_bytes()) else {
        return (0, b'?', 0);
    };
    match scope.find(&name) {
        None => (0, b'-', 0),
        Some(
            Found::Member {
                block,
                number,
                method,
                ..
            },
        ) => (block, if method { b'm' } else { b'f' }, number),
        Some(Found::Named { block, entry }) => {
            let (kind, number) = told_of(entry);
            (block, kind, number)
        }
    }
}

fn are_found(scope: &Scope, rows: &[(&str, Search)]) -> bool {
    for (name, wanted) in rows {
        if told(scope, name) != *wanted {
            return false;
        }
    }
    true
}

// Whether a step comes out as it says.
fn holds(alloc: Global, scope: &mut Scope, step: &Step) -> Result<bool, AllocError> {
    match step {
        Step::Use(names) => add_use(alloc, scope, names),
        Step::Open(block, number, names) => open(scope, *block, *number, names),
        Step::Enter(name, number, is_new) => Ok(enter(scope, name, *number)? == *is_new),
        Step::Close => Ok(close(scope)),
        Step::See(uses) => Ok(see(scope, *uses)),
        Step::Add(sample, id) => Ok(add(alloc, scope, sample)? == *id),
        Step::Unit(name, place) => Ok(place_of_unit(scope, name)? == *place),
        Step::Find(rows) => Ok(are_found(scope, rows)),
    }
}

// The number of the first step that does not.
fn first_wrong_in(
    alloc: Global,
    scope: &mut Scope,
    steps: &[Step],
) -> Result<Option<usize>, AllocError> {
    for number in 0..steps.len() {
        if !holds(alloc, scope, &steps[number])? {
            return Ok(Some(number));
        }
    }
    Ok(None)
}

fn fresh(alloc: Global) -> Result<Box<Scope>, AllocError> {
    Ok(Box::new(alloc, Scope::new(alloc, named("P")?)?)?)
}

// Two used units, then the unit itself with two variables.
const SAMPLE: &[Step] = &[
    Step::Use(&["A", "B", "WRITE"]),
    Step::Use(&["C", "B"]),
    Step::Open(BlockKind::Part, 20, &["D", "ABS"]),
];

fn sample(alloc: Global) -> Result<Box<Scope>, AllocError> {
    let mut scope = fresh(alloc)?;
    match first_wrong_in(alloc, &mut scope, SAMPLE)? {
        None => Ok(scope),
        Some(_) => Err(AllocError),
    }
}

fn first_wrong(alloc: Global, steps: &[Step]) -> Result<Option<usize>, AllocError> {
    let mut scope = sample(alloc)?;
    first_wrong_in(alloc, &mut scope, steps)
}

const HIDING_UNITS: &[Step] = &[
    Step::Find(&[
        ("A", (1, b'v', 0)),
        ("B", (2, b'v', 1)),
        ("C", (2, b'v', 0)),
        ("D", (3, b'v', 20)),
        ("E", (0, b'-', 0)),
        ("ABS", (3, b'v', 20)),
        ("WRITE", (1, b'v', 2)),
        ("WRITELN", (0, b's', WRITE_LN)),
        ("EXIT", (0, b's', EXIT)),
        ("BOOLEAN", (0, b't', 6)),
        ("MAXINT", (0, b'c', 0)),
    ]),
    Step::See(1),
    Step::Find(&[
        ("B", (1, b'v', 1)),
        ("C", (0, b'-', 0)),
        ("D", (3, b'v', 20)),
    ]),
    Step::See(0),
    Step::Find(&[("B", (0, b'-', 0)), ("WRITE", (0, b's', WRITE))]),
    Step::See(2),
    Step::Find(&[("B", (2, b'v', 1))]),
];

#[test]
fn a_later_unit_hides_an_earlier_one(rt: HostRuntime) {
    expect(&rt, first_wrong(rt.alloc(), HIDING_UNITS));
}

const PROCEDURE: HeaderSample = (Kind::Procedure, &[], None);

const ROUTINE: RoutineId = RoutineId { unit: 1, number: 0 };

const HIDING_BLOCKS: &[Step] = &[
    Step::Add(
        TypeSample::ObjectOf(
            None,
            false,
            &[("X", 2), ("Y", 2)],
            &[("RUN", PROCEDURE, false, ROUTINE)],
        ),
        11,
    ),
    Step::Add(
        TypeSample::ObjectOf(
            Some(11),
            false,
            &[("Z", 2)],
            &[
                ("GO", PROCEDURE, false, ROUTINE),
                ("RUN", PROCEDURE, false, ROUTINE),
            ],
        ),
        12,
    ),
    Step::Open(
        BlockKind::Routine {
            number: 0,
            owner: Some(TypeId(12)),
        },
        30,
        &["A", "Y"],
    ),
    Step::Open(
        BlockKind::Routine {
            number: 1,
            owner: None,
        },
        40,
        &["X", "D"],
    ),
    Step::Find(&[
        ("A", (4, b'v', 30)),
        ("B", (2, b'v', 1)),
        ("D", (5, b'v', 40)),
        ("X", (5, b'v', 40)),
        ("Y", (4, b'v', 30)),
        ("Z", (4, b'f', 2)),
        ("GO", (4, b'm', 0)),
        ("RUN", (4, b'm', 1)),
    ]),
    Step::Open(BlockKind::With { ty: TypeId(11) }, 50, &[]),
    Step::Find(&[
        ("X", (6, b'f', 0)),
        ("Y", (6, b'f', 1)),
        ("Z", (4, b'f', 2)),
        ("RUN", (6, b'm', 0)),
    ]),
    Step::Close,
    Step::Close,
    Step::Find(&[("X", (4, b'f', 0)), ("D", (3, b'v', 20))]),
];

#[test]
fn blocks_withs_and_methods_hide(rt: HostRuntime) {
    expect(&rt, first_wrong(rt.alloc(), HIDING_BLOCKS));
}

const ENTERED_TWICE: &[Step] = &[
    Step::Enter("D", 21, false),
    Step::Find(&[("D", (3, b'v', 20))]),
    Step::Open(BlockKind::Part, 22, &["D"]),
    Step::Find(&[("D", (4, b'v', 22))]),
];

#[test]
fn a_block_has_a_name_once(rt: HostRuntime) {
    expect(&rt, first_wrong(rt.alloc(), ENTERED_TWICE));
}

fn copied(alloc: Global, scope: &Scope) -> Result<Box<Scope>, AllocError> {
    Ok(Box::new(alloc, scope.copy(alloc)?)?)
}

const BEFORE: &[Step] = &[Step::Add(TypeSample::ObjectOf(None, false, &[("X", 2)], &[]), 11)];

// The next type of the copy is 12.
const IN_THE_COPY: &[Step] = &[
    Step::Find(&[("D", (3, b'v', 20))]),
    Step::Open(BlockKind::Part, 23, &["E"]),
    Step::Find(&[("E", (4, b'v', 23))]),
    Step::Add(TypeSample::Str(9), 12),
];

// Afterwards the next type of the scope itself is 12 too.
const BEHIND: &[Step] = &[
    Step::Find(&[("E", (0, b'-', 0))]),
    Step::Add(TypeSample::Str(8), 12),
];

// The scope before it is copied, the copy, and then the scope itself.
fn are_apart(alloc: Global) -> Result<bool, AllocError> {
    let mut scope = sample(alloc)?;
    let before = first_wrong_in(alloc, &mut scope, BEFORE)?;
    let mut copy = copied(alloc, &scope)?;
    let within = first_wrong_in(alloc, &mut copy, IN_THE_COPY)?;
    let behind = first_wrong_in(alloc, &mut scope, BEHIND)?;
    Ok(before.is_none() && within.is_none() && behind.is_none())
}

#[test]
fn a_copy_is_apart(rt: HostRuntime) {
    expect_true(&rt, are_apart(rt.alloc()));
}

const UNITS: &[Step] = &[Step::Unit("Q", 1), Step::Unit("P", 0)];

fn numbers(scope: &Scope) -> (usize, u32) {
    (scope.units().len(), scope.blocks())
}

fn is_part(scope: &Scope, block: u32) -> Option<bool> {
    match scope.block(block) {
        None => None,
        Some(kind) => Some(*kind == BlockKind::Part),
    }
}

fn are_counted(scope: &Scope) -> bool {
    numbers(scope) == (2, 4)
        && is_part(scope, 2).is_none()
        && is_part(scope, 3) == Some(true)
        && is_part(scope, 4).is_none()
}

fn counts(alloc: Global) -> Result<bool, AllocError> {
    let mut scope = sample(alloc)?;
    let wrong = first_wrong_in(alloc, &mut scope, UNITS)?;
    Ok(wrong.is_none() && are_counted(&scope))
}

#[test]
fn units_and_blocks_are_counted(rt: HostRuntime) {
    expect_true(&rt, counts(rt.alloc()));
}
