//! Programs without overlays, and overlays that aren't installed.

use crate::rows::{ProgramRow, RoutineRow, Shown, Step, UnitRow};

/// Two units without overlays: the first starts, then the main part calls a near routine and the other unit.
const PLAIN: ProgramRow = ProgramRow {
    units: &[
        UnitRow {
            names: &[b"UA", b"OVERLAY"],
            overlaid: false,
            starts: true,
            routines: &[
                RoutineRow {
                    far: true,
                    has_argument: false,
                    steps: &[Step::Say { from: 0, count: 1 }],
                },
                RoutineRow {
                    far: true,
                    has_argument: false,
                    steps: &[Step::Say { from: 1, count: 1 }],
                },
            ],
            text: b"ab",
            size: 0,
            file: b"",
            tables: &[],
        },
        UnitRow {
            names: &[b"P", b"OVERLAY", b"UA"],
            overlaid: false,
            starts: true,
            routines: &[
                RoutineRow {
                    far: true,
                    has_argument: false,
                    steps: &[
                        Step::Call { unit: 0, number: 1 },
                        Step::Call { unit: 2, number: 1 },
                        Step::Say { from: 1, count: 1 },
                    ],
                },
                RoutineRow {
                    far: false,
                    has_argument: false,
                    steps: &[Step::Say { from: 0, count: 1 }],
                },
            ],
            text: b"xy",
            size: 0,
            file: b"",
            tables: &[],
        },
    ],
    stack: 16384,
    heap: 1024,
    shown: Shown {
        out: b"axby",
        errors: b"",
        code: 0,
        loads: 0,
        traps: 0,
        patched: 0,
    },
};

/// OvrClearBuf where there are no overlays sets its result, and does nothing else.
const CLEARED_PLAIN: ProgramRow = ProgramRow {
    units: &[UnitRow {
        names: &[b"P", b"OVERLAY"],
        overlaid: false,
        starts: true,
        routines: &[RoutineRow {
            far: true,
            has_argument: false,
            steps: &[
                Step::OvrClearBuf,
                Step::Say { from: 0, count: 1 },
                Step::ExitResult,
            ],
        }],
        text: b"c",
        size: 0,
        file: b"",
        tables: &[],
    }],
    stack: 16384,
    heap: 1024,
    shown: Shown {
        out: b"c",
        errors: b"",
        code: 0,
        loads: 0,
        traps: 0,
        patched: 0,
    },
};

/// OvrInit where the program has no overlays sets OvrResult to -2.
const NO_OVERLAYS: ProgramRow = ProgramRow {
    units: &[UnitRow {
        names: &[b"P", b"OVERLAY"],
        overlaid: false,
        starts: true,
        routines: &[RoutineRow {
            far: true,
            has_argument: false,
            steps: &[Step::OvrInit, Step::ExitResult],
        }],
        text: b"c",
        size: 0,
        file: b"P.OVR",
        tables: &[],
    }],
    stack: 16384,
    heap: 1024,
    shown: Shown {
        out: b"",
        errors: b"",
        code: 254,
        loads: 0,
        traps: 0,
        patched: 0,
    },
};

/// A call of an overlaid routine before OvrInit traps once, and is error 208.
const NOT_INSTALLED: ProgramRow = ProgramRow {
    units: &[
        UnitRow {
            names: &[b"UA", b"OVERLAY"],
            overlaid: true,
            starts: false,
            routines: &[RoutineRow {
                far: true,
                has_argument: false,
                steps: &[Step::Say { from: 0, count: 1 }],
            }],
            text: b"a",
            size: 0,
            file: b"",
            tables: &[],
        },
        UnitRow {
            names: &[b"P", b"OVERLAY", b"UA"],
            overlaid: false,
            starts: true,
            routines: &[RoutineRow {
                far: true,
                has_argument: false,
                steps: &[
                    Step::Say { from: 0, count: 1 },
                    Step::Call { unit: 2, number: 0 },
                ],
            }],
            text: b"p",
            size: 0,
            file: b"",
            tables: &[],
        },
    ],
    stack: 16384,
    heap: 1024,
    shown: Shown {
        out: b"p",
        errors: b"Runtime error 208\r\n",
        code: 208,
        loads: 0,
        traps: 1,
        patched: 0,
    },
};

/// The initialisation part of an overlaid unit comes before OvrInit can: error 208.
const STARTS_OVERLAID: ProgramRow = ProgramRow {
    units: &[
        UnitRow {
            names: &[b"UA", b"OVERLAY"],
            overlaid: true,
            starts: true,
            routines: &[RoutineRow {
                far: true,
                has_argument: false,
                steps: &[Step::Say { from: 0, count: 1 }],
            }],
            text: b"a",
            size: 0,
            file: b"",
            tables: &[],
        },
        UnitRow {
            names: &[b"P", b"OVERLAY", b"UA"],
            overlaid: false,
            starts: true,
            routines: &[RoutineRow {
                far: true,
                has_argument: false,
                steps: &[Step::OvrInit],
            }],
            text: b"",
            size: 0,
            file: b"P.OVR",
            tables: &[],
        },
    ],
    stack: 16384,
    heap: 1024,
    shown: Shown {
        out: b"",
        errors: b"Runtime error 208\r\n",
        code: 208,
        loads: 0,
        traps: 1,
        patched: 0,
    },
};

/// OvrInit with another file's name installs nothing.
const OTHER_FILE: ProgramRow = ProgramRow {
    units: &[
        UnitRow {
            names: &[b"UA", b"OVERLAY"],
            overlaid: true,
            starts: false,
            routines: &[RoutineRow {
                far: true,
                has_argument: false,
                steps: &[Step::Say { from: 0, count: 1 }],
            }],
            text: b"a",
            size: 0,
            file: b"",
            tables: &[],
        },
        UnitRow {
            names: &[b"P", b"OVERLAY", b"UA"],
            overlaid: false,
            starts: true,
            routines: &[RoutineRow {
                far: true,
                has_argument: false,
                steps: &[
                    Step::OvrInit,
                    Step::ExitResult,
                    Step::Call { unit: 2, number: 0 },
                ],
            }],
            text: b"",
            size: 0,
            file: b"NO.OVR",
            tables: &[],
        },
    ],
    stack: 16384,
    heap: 1024,
    shown: Shown {
        out: b"",
        errors: b"",
        code: 254,
        loads: 0,
        traps: 0,
        patched: 0,
    },
};

/// All of them, by their names.
pub const PLAIN_PROGRAMS: [(&str, ProgramRow); 6] = [
    ("plain", PLAIN),
    ("cleared_plain", CLEARED_PLAIN),
    ("no_overlays", NO_OVERLAYS),
    ("not_installed", NOT_INSTALLED),
    ("starts_overlaid", STARTS_OVERLAID),
    ("other_file", OTHER_FILE),
];
