//! What is reached, and how large it can be.

use crate::rows::{ProgramRow, RoutineRow, Shown, Step, UnitRow};

/// An overlaid unit of which nothing is reached.
pub const UNUSED: ProgramRow = ProgramRow {
    units: &[
        UnitRow {
            names: &[b"UA", b"OVERLAY"],
            overlaid: true,
            starts: false,
            routines: &[RoutineRow {
                far: true,
                has_argument: false,
                steps: &[Step::Say { from: 0, count: 1 }],
            }],
            text: b"a",
            size: 0,
            file: b"",
            tables: &[],
        },
        UnitRow {
            names: &[b"UB", b"OVERLAY"],
            overlaid: true,
            starts: false,
            routines: &[RoutineRow {
                far: true,
                has_argument: false,
                steps: &[Step::Say { from: 0, count: 1 }],
            }],
            text: b"b",
            size: 0,
            file: b"",
            tables: &[],
        },
        UnitRow {
            names: &[b"P", b"OVERLAY", b"UA"],
            overlaid: false,
            starts: true,
            routines: &[RoutineRow {
                far: true,
                has_argument: false,
                steps: &[Step::OvrInit, Step::Call { unit: 2, number: 0 }],
            }],
            text: b"",
            size: 0,
            file: b"P.OVR",
            tables: &[],
        },
    ],
    stack: 16384,
    heap: 1024,
    shown: Shown {
        out: b"a",
        errors: b"",
        code: 0,
        loads: 1,
        traps: 1,
        patched: 0,
    },
};

/// Overlaid routines through a stored far pointer, and through a virtual method table.
const POINTERS: ProgramRow = ProgramRow {
    units: &[
        UnitRow {
            names: &[b"UA", b"OVERLAY"],
            overlaid: true,
            starts: false,
            routines: &[
                RoutineRow {
                    far: true,
                    has_argument: false,
                    steps: &[Step::Say { from: 0, count: 1 }],
                },
                RoutineRow {
                    far: true,
                    has_argument: false,
                    steps: &[Step::Say { from: 1, count: 1 }],
                },
                RoutineRow {
                    far: true,
                    has_argument: false,
                    steps: &[Step::Say { from: 2, count: 1 }],
                },
            ],
            text: b"abc",
            size: 0,
            file: b"",
            tables: &[],
        },
        UnitRow {
            names: &[b"P", b"OVERLAY", b"UA"],
            overlaid: false,
            starts: true,
            routines: &[
                RoutineRow {
                    far: true,
                    has_argument: false,
                    steps: &[
                        Step::OvrInit,
                        Step::CallThrough { unit: 2, number: 2 },
                        Step::CallVirtual { table: 1 },
                        Step::CallVirtual { table: 0 },
                        Step::Say { from: 0, count: 1 },
                    ],
                },
                RoutineRow {
                    far: true,
                    has_argument: false,
                    steps: &[Step::Say { from: 1, count: 1 }],
                },
            ],
            text: b"xy",
            size: 0,
            file: b"P.OVR",
            tables: &[(2, 1), (0, 1)],
        },
    ],
    stack: 16384,
    heap: 1024,
    shown: Shown {
        out: b"cybx",
        errors: b"",
        code: 0,
        loads: 1,
        traps: 1,
        patched: 0,
    },
};

/// Data, stack and heap of the greatest sizes, and an overlay; the last word of the heap is the exit code.
pub const FILLS_MEMORY: ProgramRow = ProgramRow {
    units: &[
        UnitRow {
            names: &[b"UA", b"OVERLAY"],
            overlaid: true,
            starts: false,
            routines: &[RoutineRow {
                far: true,
                has_argument: false,
                steps: &[Step::Say { from: 0, count: 1 }],
            }],
            text: b"a",
            size: 0,
            file: b"",
            tables: &[],
        },
        UnitRow {
            names: &[b"P", b"OVERLAY", b"UA"],
            overlaid: false,
            starts: true,
            routines: &[RoutineRow {
                far: true,
                has_argument: false,
                steps: &[
                    Step::OvrInit,
                    Step::Say { from: 0, count: 1 },
                    Step::Call { unit: 2, number: 0 },
                    Step::FillHeap {
                        paragraphs: 12287,
                        value: 77,
                    },
                    Step::ExitHeap { paragraphs: 12287 },
                ],
            }],
            text: b"p",
            size: 64872,
            file: b"P.OVR",
            tables: &[],
        },
    ],
    stack: 65520,
    heap: 196608,
    shown: Shown {
        out: b"pa",
        errors: b"",
        code: 77,
        loads: 1,
        traps: 1,
        patched: 0,
    },
};

/// All of them, by their names.
pub const PART_PROGRAMS: [(&str, ProgramRow); 2] = [("unused", UNUSED), ("pointers", POINTERS)];
