//! Object units: the code and data of a unit, with what they refer to.

mod object;

pub use object::{Code8086, Codes, Datum, ObjectData, ObjectUnit, Ref, RefKind, Refs};
