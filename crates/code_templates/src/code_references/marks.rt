//! Lines before any address is known, and what they refer to.

ghost use Rattle.std.specs.Prelude.{◌≡◌, ◌++◌, [], ◌∷◌, OnOk};

use std::alloc::{AllocError, Global};
use std::marker::Model;
use x86_table::Line;

/// What an instruction refers to. A unit is a place in the names of the unit whose code it is.
#[derive(Clone, Copy, Debug)]
pub enum Target {
    /// The offset of a datum, which is added to the word that stands there.
    Datum { unit: u32, number: u32 },
    /// The offset of a virtual method table.
    Table { unit: u32, number: u32 },
    /// A far pointer to a routine.
    Routine { unit: u32, number: u32 },
    /// The distance to a routine of the same unit, by its number.
    OwnRoutine(u32),
    /// A far pointer to the routine of this number of the runtime.
    Runtime(u16),
    /// A far pointer to the error routine.
    ErrorRoutine,
    /// A far pointer to the routine that clears the overlay buffer.
    ClearRoutine,
    /// A far pointer to the routine that sets the installed flag.
    FlagRoutine,
}

/// A line before any address is known, and what it refers to.
#[derive(Clone, Copy, Debug)]
pub struct MarkedLine {
    pub line: Line,
    pub target: Option<Target>,
}

/// Such lines, in order.
#[derive(Drop)]
pub struct MarkedLines {
    lines: Vec<MarkedLine>,
}

impl Model for MarkedLines {
    ghost use Rattle.std.specs.Prelude.{List};
    ghost use Rattle.code_templates.specs.declared.code_references.marks.MarkedLine.{MarkedLine};

    ghost Value = { List MarkedLine };

    ghost view = { λ list. list.lines.items };
}

impl MarkedLines {
    /// No lines.
    pub fn new(alloc: Global) -> MarkedLines
        ensures { result ≡ [] }
    {
        MarkedLines {
            lines: Vec::new(alloc),
        }
    }

    /// The lines.
    pub fn as_slice(&self) -> &[MarkedLine]
        ensures { result.now ≡ self.now }
    {
        self.lines.as_slice()
    }

    /// Appends a line; fails only for memory.
    pub fn push(&mut self, line: MarkedLine) -> Result<(), AllocError>
        ensures { OnOk result (self.new ≡ self.old ++ line ∷ []) }
    {
        self.lines.push(line)?;
        Ok(())
    }
}
