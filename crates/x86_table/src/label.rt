//! The places of labels.

ghost use Rattle.std.specs.Prelude.{◌≡◌, ◌+◌, ◌*◌, ◌≤◌, ◌<◌, ℕ, List, length, IfOk, OnOk};
ghost use Rattle.x86_table.specs.Lines.{line_size, label_place};
ghost use Rattle.x86_table.specs.Labels.{place_in};

use crate::encoding::encode;
use crate::line::Line;
use std::alloc::{AllocError, Global};
use std::collections::BTreeMap;

/// How many bytes a line has.
pub fn size_of(line: Line) -> usize
    ensures size { result ≡ line_size line }
    ensures small { result ≤ 8 }
{
    match line {
        Line::One(instr) => encode(&instr).len(),
        Line::Label(_) => 0,
        Line::JumpShort(_, _) => 2,
        Line::JumpNear(_) | Line::CallNear(_) => 3,
    }
}

/// The place of each label, and for all others the end of the code.
#[derive(Drop)]
pub struct Labels {
    pub places: BTreeMap<u32, usize>,
    pub end: usize,
}

impl Labels {
    /// The places of the labels of some lines, the first of which stands at 0.
    pub fn of(alloc: Global, lines: &[Line]) -> Result<Labels, AllocError>
        ensures { IfOk result (λ labels. place_in labels ≡ label_place lines.now) }
    {
        let mut places = BTreeMap::new(alloc);
        let mut end = 0;
        for line in lines {
            if let Line::Label(label) = *line {
                if !places.contains_key(&label) {
                    places.insert(label, end)?;
                }
            }
            end += size_of(*line);
        }
        Ok(Labels { places, end })
    }

    /// The place of a label.
    pub fn place(&self, label: u32) -> usize
        ensures { result ≡ place_in self.now label }
    {
        match self.places.get(&label) {
            Some(place) => *place,
            None => self.end,
        }
    }
}
