//! The program that is interpreted.

ghost use Rattle.std.specs.Prelude.{◌≤◌, length, map};
ghost use Rattle.flat_code.specs.Plain.{view_unit, units_size};

use flat_code::FlatUnit;
use std::alloc::Global;
use type_layout::Name;

/// A program's units, the names of the overlaid ones, and the bytes of its stack and heap.
#[derive(Drop)]
pub struct Interpreter<'a> {
    pub alloc: Global,
    pub units: &'a [FlatUnit],
    pub overlaid: &'a [Name],
    pub stack: u32,
    pub heap: u32,
    ghost few: { length units.now ≤ 4096 },
    ghost small: { units_size (map view_unit units.now) ≤ 65520 },
    ghost stack_fits: { stack ≤ 65520 },
    ghost heap_fits: { heap ≤ 196608 },
}
