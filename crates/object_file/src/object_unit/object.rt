//! The code and data of a unit.

ghost use Rattle.std.specs.Prelude.{◌≡◌};
ghost use Rattle.object_file.specs.object_unit.Widths.{width_of};

use type_layout::{Bytes, Name, Sequence};

/// What stands at a reference once the unit is linked.
#[derive(Clone, Copy, Debug, PartialEq, Eq)]
pub enum RefKind {
    /// A far pointer to a routine, offset first.
    FarRoutine,
    /// The distance to a routine of the same segment, from behind this word.
    NearRoutine,
    /// The offset of a datum in the data segment.
    DataOffset,
    /// The data segment.
    DataSegment,
    /// The offset of a virtual method table in the data segment.
    Vmt,
    /// A far pointer to a routine of the runtime.
    Runtime,
}

impl RefKind {
    /// How many bytes stand at the reference.
    pub fn width(self) -> u32
        ensures { result ≡ width_of self }
    {
        match self {
            RefKind::FarRoutine | RefKind::Runtime => 4,
            RefKind::NearRoutine | RefKind::DataOffset | RefKind::DataSegment | RefKind::Vmt => 2,
        }
    }
}

/// A reference to a part of a unit.
#[derive(Debug, Drop)]
pub struct Ref {
    /// Where it stands in the bytes that hold it.
    pub offset: u32,
    pub kind: RefKind,
    pub unit: Name,
    /// The number of the routine, datum or virtual method table in that unit, or of the runtime's routine.
    pub number: u32,
}

/// References, in order of their offsets.
pub type Refs = Sequence<Ref>;

/// The code of a routine.
#[derive(Debug, Drop)]
pub struct Code8086 {
    pub name: Name,
    /// Whether it is called by far calls.
    pub far: bool,
    /// The bytes of stack that an activation takes.
    pub frame: u32,
    pub code: Bytes,
    pub refs: Refs,
}

/// Routines, by their numbers.
pub type Codes = Sequence<Code8086>;

/// A variable, a literal or a virtual method table.
#[derive(Debug, Drop)]
pub struct Datum {
    /// Its size in bytes.
    pub size: u32,
    /// The bytes that it begins with: as many as its size, or none.
    pub first: Bytes,
    /// What stands in these bytes.
    pub refs: Refs,
}

/// Data, by their numbers.
pub type ObjectData = Sequence<Datum>;

/// The code and data of a unit.
#[derive(Debug, Drop)]
pub struct ObjectUnit {
    pub globals: ObjectData,
    pub vmts: ObjectData,
    pub routines: Codes,
}
