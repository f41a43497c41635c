//! Folders, and what the front end makes of their program P.

use crate::rows::Held;
use crate::tests::{folder, write_name};
use front_end::outcomes::{Outcome, write_line};
use front_end::typed_program;
use std::alloc::{AllocError, Global};
use std::str;
use tp_outside::MemorySink;
use type_layout::Name;
use typed_tree::Program;

/// A folder, and the typed units of program P in order of initialisation, or the line of the refusal.
const PROGRAMS: [(Held, &str); 18] = [
    // The units stand in another order than that in which they are named, and each sees those that it uses.
    (
        &[
            (
                "p.pas",
                "program P; uses A, B; var x: array[1..Most] of Few; begin x[Least] := Least end.",
            ),
            (
                "a.pas",
                "unit A; interface uses B; type Few = 1..Most; implementation end.",
            ),
            (
                "b.pas",
                "unit B; interface const Least = 1; Most = 7; implementation end.",
            ),
        ],
        "B A P ",
    ),
    // A type that comes by two units is one.
    (
        &[
            (
                "p.pas",
                "program P; uses A, B; var x: Pair; begin x := Both end.",
            ),
            (
                "a.pas",
                "unit A; interface type Pair = record l, r: Byte end; implementation end.",
            ),
            (
                "b.pas",
                "unit B; interface uses A; var Both: Pair; implementation end.",
            ),
        ],
        "A B P ",
    ),
    // Implementation parts may use one another.
    (
        &[
            ("p.pas", "program P; uses A; begin Ping(3) end."),
            (
                "a.pas",
                "unit A; interface procedure Ping(n: Byte); implementation uses B; procedure Ping(n: Byte); begin if n > 0 then Pong(n - 1) end; end.",
            ),
            (
                "b.pas",
                "unit B; interface procedure Pong(n: Byte); implementation uses A; procedure Pong(n: Byte); begin if n > 0 then Ping(n - 1) end; end.",
            ),
        ],
        "B A P ",
    ),
    // Types of a unit come back to it by one that its implementation part uses.
    (
        &[
            (
                "p.pas",
                "program P; uses A, B; var x: Link; begin New(x, Init); Walk(x); Dispose(x) end.",
            ),
            (
                "a.pas",
                "unit A; interface type Link = ^Node; Node = object next: Link; constructor Init; procedure Show; virtual; end; implementation uses B; constructor Node.Init; begin next := last; last := nil end; procedure Node.Show; begin Walk(next) end; end.",
            ),
            (
                "b.pas",
                "unit B; interface uses A; var last: Link; procedure Walk(from: Link); implementation procedure Walk; begin if from <> nil then from^.Show end; end.",
            ),
        ],
        "B A P ",
    ),
    // An implementation part sees what the interface part doesn't.
    (
        &[
            ("p.pas", "program P; uses A; begin end."),
            (
                "a.pas",
                "unit A; interface var x: Few; implementation uses B; end.",
            ),
            (
                "b.pas",
                "unit B; interface type Few = 1..2; implementation end.",
            ),
        ],
        "tp: CheckRefused a.pas:1:26 UnknownName 1\n",
    ),
    // A unit that is not there.
    (
        &[
            ("p.pas", "program P; uses A; begin end."),
            ("a.pas", "unit A; interface implementation uses Z; end."),
        ],
        "tp: MissingFile z.pas\n",
    ),
    // A circle of interface parts, which is told of before all that is wrong in them.
    (
        &[
            ("p.pas", "program P; uses A; begin x := 1 end."),
            (
                "a.pas",
                "unit A; interface uses B; var x: Few; implementation end.",
            ),
            ("b.pas", "unit B; interface uses A; implementation end."),
        ],
        "tp: Circular A\n",
    ),
    // A program that is used as a unit, and a unit that stands where the program should.
    (
        &[
            ("p.pas", "program P; uses Q; begin end."),
            ("q.pas", "{ a program }\n {$R+} program Q; begin end."),
        ],
        "tp: CheckRefused q.pas:2:8 UnknownName 9\n",
    ),
    (
        &[("p.pas", "unit P; interface implementation end.")],
        "tp: CheckRefused p.pas:1:1 UnknownName 9\n",
    ),
    (
        &[
            ("p.pas", "program P; uses A; begin end."),
            ("a.pas", "unit A; interface implementation uses P; end."),
        ],
        "tp: CheckRefused p.pas:1:1 UnknownName 9\n",
    ),
    // A unit that is used twice, in one clause or in two; SYSTEM is always used.
    (
        &[
            ("p.pas", "program P; uses A, A; begin end."),
            ("a.pas", "unit A; interface implementation end."),
        ],
        "tp: CheckRefused p.pas:1:20 DuplicateName 31\n",
    ),
    (
        &[
            ("p.pas", "program P; uses A; begin end."),
            (
                "a.pas",
                "unit A; interface uses B; implementation uses B; end.",
            ),
            ("b.pas", "unit B; interface implementation end."),
        ],
        "tp: CheckRefused a.pas:1:47 DuplicateName 31\n",
    ),
    (
        &[("p.pas", "program P; uses System; begin end.")],
        "tp: CheckRefused p.pas:1:17 DuplicateName 31\n",
    ),
    // A unit whose name is not that of its file.
    (
        &[
            ("p.pas", "program P; uses A; begin end."),
            ("a.pas", "unit B; interface implementation end."),
        ],
        "tp: CheckRefused a.pas:1:6 UnknownName 9\n",
    ),
    // What is wrong in an interface part is told before what is wrong elsewhere.
    (
        &[
            ("p.pas", "program P; uses A; begin x := 1 end."),
            (
                "a.pas",
                "unit A; interface const C = X; implementation end.",
            ),
        ],
        "tp: CheckRefused a.pas:1:29 UnknownName 1\n",
    ),
    // What is wrong in a unit is told before what is wrong in those that come behind it.
    (
        &[
            ("p.pas", "program P; uses A; begin x := 1 end."),
            (
                "a.pas",
                "unit A; interface implementation begin y := 1 end.",
            ),
        ],
        "tp: CheckRefused a.pas:1:40 UnknownName 1\n",
    ),
    // A line of object types.
    (
        &[
            ("p.pas", "program P; uses A; begin end."),
            (
                "a.pas",
                "unit A; interface type T = object x: Byte end; S = object(T) x: Byte end; implementation end.",
            ),
        ],
        "tp: ClassRefused DuplicateField X\n",
    ),
    // OVERLAY is always there.
    (
        &[(
            "p.pas",
            "program P; uses Overlay; begin OvrInit('p.ovr') end.",
        )],
        "P ",
    ),
];

fn write_units(out: &mut String, program: &Program) -> Result<(), AllocError> {
    for unit in program.units.as_slice() {
        write_name(out, &unit.name)?;
        out.push_str(" ")?;
    }
    Ok(())
}

fn write_outcome(alloc: Global, out: &mut String, outcome: &Outcome) -> Result<(), AllocError> {
    let mut errors = MemorySink::new(alloc, 1000, &[])?;
    match write_line(&mut errors, outcome) {
        Ok(()) => out.push_str(str::from_utf8(errors.bytes()).unwrap_or("?")),
        Err(_) => out.push_str("?"),
    }
}

/// Whether the front end makes this of program P of these files, where the calls with these numbers fail.
fn makes(
    alloc: Global,
    files: &[(&str, &str)],
    failing: &[u64],
    expected: &str,
) -> Result<bool, AllocError> {
    let mut held = folder(alloc, files, failing)?;
    let mut out = String::new(alloc);
    let Some(name) = Name::new(b"P") else {
        return Err(AllocError);
    };
    match typed_program(alloc, &name, &mut held) {
        Ok(program) => write_units(&mut out, &program)?,
        Err(outcome) => write_outcome(alloc, &mut out, &outcome)?,
    }
    Ok(out.as_str() == expected)
}

#[test]
fn sources_are_a_program_or_the_first_refusal_is_told(rt: HostRuntime) {
    for (files, expected) in PROGRAMS {
        let same = makes(rt.alloc(), files, &[], expected);
        assert!(&rt; same == Ok(true), "{expected}");
    }
}

#[test]
fn a_fault_of_the_files_is_told(rt: HostRuntime) {
    let files = [("p.pas", "program P; begin end.")];
    let same = makes(rt.alloc(), &files, &[1], "tp: FilesFault\n");
    assert!(&rt; same == Ok(true));
}
