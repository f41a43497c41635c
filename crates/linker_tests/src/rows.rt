//! How programs are written as constants.

/// A statement of a routine. A unit is a place among the names of the unit that holds the routine: 0 is itself, and 1 the
/// runtime's OVERLAY.
#[derive(Clone, Copy)]
pub enum Step {
    /// Writes bytes of the unit's text.
    Say {
        from: u16,
        count: u16,
    },
    /// Writes the argument as a digit.
    SayArgument,
    /// Calls a routine that has no argument.
    Call {
        unit: u32,
        number: u32,
    },
    /// Calls a routine with this argument.
    CallWith {
        unit: u32,
        number: u32,
        value: u16,
    },
    /// Where the argument isn't 0, calls a routine with one less, and else another one that has no argument.
    CallDown {
        unit: u32,
        number: u32,
        other: u32,
        least: u32,
    },
    /// The same without another routine.
    CallLess {
        unit: u32,
        number: u32,
    },
    /// Calls a routine without an argument through a far pointer that it stores before.
    CallThrough {
        unit: u32,
        number: u32,
    },
    /// Calls the first method of a virtual method table of the unit.
    CallVirtual {
        table: u32,
    },
    /// OvrInit with the unit's file name.
    OvrInit,
    /// OvrClearBuf.
    OvrClearBuf,
    /// Stores a word in the last two bytes of the heap.
    FillHeap {
        paragraphs: u16,
        value: u16,
    },
    /// Ends with the word in the last two bytes of the heap as its code.
    ExitHeap {
        paragraphs: u16,
    },
    /// Ends with OvrResult as its code.
    ExitResult,
}

#[derive(Clone, Copy)]
pub struct RoutineRow {
    pub far: bool,
    pub has_argument: bool,
    pub steps: &'static [Step],
}

#[derive(Clone, Copy)]
pub struct UnitRow {
    /// The unit itself, OVERLAY, and the units that it refers to.
    pub names: &'static [&'static [u8]],
    pub overlaid: bool,
    /// Whether its first routine is its main or initialisation part.
    pub starts: bool,
    pub routines: &'static [RoutineRow],
    /// The bytes of its first datum, and the size of that if it is larger.
    pub text: &'static [u8],
    pub size: u32,
    /// The file name that it gives to OvrInit.
    pub file: &'static [u8],
    /// The unit and number of the one method of each virtual method table.
    pub tables: &'static [(u32, u32)],
}

/// What a run shows, and what it counts.
#[derive(Clone, Copy)]
pub struct Shown {
    pub out: &'static [u8],
    pub errors: &'static [u8],
    pub code: u8,
    pub loads: u64,
    pub traps: u64,
    pub patched: u64,
}

/// A program of units in the order in which they start.
#[derive(Clone, Copy)]
pub struct ProgramRow {
    pub units: &'static [UnitRow],
    pub stack: u16,
    pub heap: u32,
    pub shown: Shown,
}
