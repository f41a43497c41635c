//! Overlays that come and go.

use crate::rows::{ProgramRow, RoutineRow, Shown, Step, UnitRow};

/// Two overlays call each other fifty times: 51 calls and 50 returns come to overlays that are out.
const TAKE_TURNS: ProgramRow = ProgramRow {
    units: &[
        UnitRow {
            names: &[b"UA", b"OVERLAY", b"UB"],
            overlaid: true,
            starts: false,
            routines: &[RoutineRow {
                far: true,
                has_argument: true,
                steps: &[Step::CallLess { unit: 2, number: 0 }],
            }],
            text: b"",
            size: 0,
            file: b"",
            tables: &[],
        },
        UnitRow {
            names: &[b"UB", b"OVERLAY", b"UA"],
            overlaid: true,
            starts: false,
            routines: &[RoutineRow {
                far: true,
                has_argument: true,
                steps: &[Step::CallLess { unit: 2, number: 0 }],
            }],
            text: b"",
            size: 0,
            file: b"",
            tables: &[],
        },
        UnitRow {
            names: &[b"P", b"OVERLAY", b"UA"],
            overlaid: false,
            starts: true,
            routines: &[RoutineRow {
                far: true,
                has_argument: false,
                steps: &[
                    Step::OvrInit,
                    Step::CallWith {
                        unit: 2,
                        number: 0,
                        value: 50,
                    },
                    Step::Say { from: 0, count: 2 },
                ],
            }],
            text: b"50",
            size: 0,
            file: b"P.OVR",
            tables: &[],
        },
    ],
    stack: 16384,
    heap: 1024,
    shown: Shown {
        out: b"50",
        errors: b"",
        code: 0,
        loads: 101,
        traps: 101,
        patched: 2500,
    },
};

/// The call of B1 sends UA out with three live returns; the call of A2 restores all three.
const THREE_LIVE: ProgramRow = ProgramRow {
    units: &[
        UnitRow {
            names: &[b"UA", b"OVERLAY", b"UB"],
            overlaid: true,
            starts: false,
            routines: &[
                RoutineRow {
                    far: true,
                    has_argument: true,
                    steps: &[
                        Step::CallDown {
                            unit: 0,
                            number: 0,
                            other: 2,
                            least: 0,
                        },
                        Step::Say { from: 0, count: 1 },
                        Step::SayArgument,
                    ],
                },
                RoutineRow {
                    far: true,
                    has_argument: false,
                    steps: &[Step::Say { from: 1, count: 1 }],
                },
            ],
            text: b"ac",
            size: 0,
            file: b"",
            tables: &[],
        },
        UnitRow {
            names: &[b"UB", b"OVERLAY", b"UA"],
            overlaid: true,
            starts: false,
            routines: &[RoutineRow {
                far: true,
                has_argument: false,
                steps: &[
                    Step::Call { unit: 2, number: 1 },
                    Step::Say { from: 0, count: 1 },
                ],
            }],
            text: b"b",
            size: 0,
            file: b"",
            tables: &[],
        },
        UnitRow {
            names: &[b"P", b"OVERLAY", b"UA"],
            overlaid: false,
            starts: true,
            routines: &[RoutineRow {
                far: true,
                has_argument: false,
                steps: &[
                    Step::OvrInit,
                    Step::CallWith {
                        unit: 2,
                        number: 0,
                        value: 2,
                    },
                ],
            }],
            text: b"",
            size: 0,
            file: b"P.OVR",
            tables: &[],
        },
    ],
    stack: 16384,
    heap: 1024,
    shown: Shown {
        out: b"cba0a1a2",
        errors: b"",
        code: 0,
        loads: 5,
        traps: 5,
        patched: 12,
    },
};

/// Three overlays call one another in turn: four calls, and a return into each of three that are out.
const THREE_OVERLAYS: ProgramRow = ProgramRow {
    units: &[
        UnitRow {
            names: &[b"UA", b"OVERLAY", b"UB"],
            overlaid: true,
            starts: false,
            routines: &[RoutineRow {
                far: true,
                has_argument: true,
                steps: &[
                    Step::Say { from: 0, count: 1 },
                    Step::CallLess { unit: 2, number: 0 },
                    Step::Say { from: 1, count: 1 },
                ],
            }],
            text: b"aA",
            size: 0,
            file: b"",
            tables: &[],
        },
        UnitRow {
            names: &[b"UB", b"OVERLAY", b"UC"],
            overlaid: true,
            starts: false,
            routines: &[RoutineRow {
                far: true,
                has_argument: true,
                steps: &[
                    Step::Say { from: 0, count: 1 },
                    Step::CallLess { unit: 2, number: 0 },
                    Step::Say { from: 1, count: 1 },
                ],
            }],
            text: b"bB",
            size: 0,
            file: b"",
            tables: &[],
        },
        UnitRow {
            names: &[b"UC", b"OVERLAY", b"UA"],
            overlaid: true,
            starts: false,
            routines: &[RoutineRow {
                far: true,
                has_argument: true,
                steps: &[
                    Step::Say { from: 0, count: 1 },
                    Step::CallLess { unit: 2, number: 0 },
                    Step::Say { from: 1, count: 1 },
                ],
            }],
            text: b"cC",
            size: 0,
            file: b"",
            tables: &[],
        },
        UnitRow {
            names: &[b"P", b"OVERLAY", b"UA"],
            overlaid: false,
            starts: true,
            routines: &[RoutineRow {
                far: true,
                has_argument: false,
                steps: &[
                    Step::OvrInit,
                    Step::CallWith {
                        unit: 2,
                        number: 0,
                        value: 3,
                    },
                ],
            }],
            text: b"",
            size: 0,
            file: b"P.OVR",
            tables: &[],
        },
    ],
    stack: 16384,
    heap: 1024,
    shown: Shown {
        out: b"abcaACBA",
        errors: b"",
        code: 0,
        loads: 7,
        traps: 7,
        patched: 5,
    },
};

/// OvrClearBuf from overlaid code, whose return then comes to an overlay that is out.
const CLEARED: ProgramRow = ProgramRow {
    units: &[
        UnitRow {
            names: &[b"UA", b"OVERLAY"],
            overlaid: true,
            starts: false,
            routines: &[RoutineRow {
                far: true,
                has_argument: false,
                steps: &[
                    Step::Say { from: 0, count: 1 },
                    Step::OvrClearBuf,
                    Step::Say { from: 1, count: 1 },
                ],
            }],
            text: b"12",
            size: 0,
            file: b"",
            tables: &[],
        },
        UnitRow {
            names: &[b"P", b"OVERLAY", b"UA"],
            overlaid: false,
            starts: true,
            routines: &[RoutineRow {
                far: true,
                has_argument: false,
                steps: &[Step::OvrInit, Step::Call { unit: 2, number: 0 }],
            }],
            text: b"",
            size: 0,
            file: b"P.OVR",
            tables: &[],
        },
    ],
    stack: 16384,
    heap: 1024,
    shown: Shown {
        out: b"12",
        errors: b"",
        code: 0,
        loads: 2,
        traps: 2,
        patched: 1,
    },
};

/// A near routine of an overlaid unit calls another overlay.
const NEAR_ROUTINES: ProgramRow = ProgramRow {
    units: &[
        UnitRow {
            names: &[b"NA", b"OVERLAY", b"NB"],
            overlaid: true,
            starts: false,
            routines: &[
                RoutineRow {
                    far: true,
                    has_argument: false,
                    steps: &[
                        Step::CallWith {
                            unit: 0,
                            number: 1,
                            value: 7,
                        },
                        Step::Say { from: 0, count: 1 },
                    ],
                },
                RoutineRow {
                    far: false,
                    has_argument: true,
                    steps: &[Step::Call { unit: 2, number: 0 }, Step::SayArgument],
                },
            ],
            text: b"p",
            size: 0,
            file: b"",
            tables: &[],
        },
        UnitRow {
            names: &[b"NB", b"OVERLAY"],
            overlaid: true,
            starts: false,
            routines: &[RoutineRow {
                far: true,
                has_argument: false,
                steps: &[Step::Say { from: 0, count: 1 }],
            }],
            text: b"q",
            size: 0,
            file: b"",
            tables: &[],
        },
        UnitRow {
            names: &[b"P", b"OVERLAY", b"NA"],
            overlaid: false,
            starts: true,
            routines: &[RoutineRow {
                far: true,
                has_argument: false,
                steps: &[Step::OvrInit, Step::Call { unit: 2, number: 0 }],
            }],
            text: b"",
            size: 0,
            file: b"P.OVR",
            tables: &[],
        },
    ],
    stack: 16384,
    heap: 1024,
    shown: Shown {
        out: b"q7p",
        errors: b"",
        code: 0,
        loads: 3,
        traps: 3,
        patched: 1,
    },
};

/// All of them, by their names.
pub const OVERLAY_PROGRAMS: [(&str, ProgramRow); 5] = [
    ("take_turns", TAKE_TURNS),
    ("three_live", THREE_LIVE),
    ("three_overlays", THREE_OVERLAYS),
    ("cleared", CLEARED),
    ("near_routines", NEAR_ROUTINES),
];
