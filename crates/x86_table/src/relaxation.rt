//! Near jumps made short where they reach.

ghost use Rattle.std.specs.Prelude.{◌≡◌, ◌+◌, ◌^◌, ◌<◌, ◌≤◌, ℕ, List, length, IfOk, OnOk};
ghost use Rattle.x86_table.specs.Lines.{label_place, ShortJumpsReach, NearJumpsAreFar, Shortens};
ghost use Rattle.x86_table.specs.Relaxation.{reaches, near_jumps, shortened_line, shortened};
ghost use Rattle.x86_table.specs.Labels.{place_in};

use crate::instr::Cond;
use crate::label::{Labels, size_of};
use crate::line::{Line, LineList};
use std::alloc::{AllocError, Global};

/// Whether the distance from the end of a jump to its target lies within -128..127.
fn reaches(end: usize, target: usize) -> bool
    ensures { result ≡ reaches end target }
{
    if target < end {
        end - target <= 128
    } else {
        target - end <= 127
    }
}

/// A line at a place; a near jump made short, if its distance lies within -128..127.
fn shortened_line(labels: &Labels, place: usize, line: Line) -> Line
    requires { place < 2 ^ 63 }
    ensures { result ≡ shortened_line (place_in labels.now) place line }
{
    match line {
        Line::JumpNear(label) => {
            if reaches(place + 3, labels.place(label)) {
                Line::JumpShort(Cond::Always, label)
            } else {
                line
            }
        }
        _ => line,
    }
}

/// How many near jumps there are.
fn near_jumps(lines: &[Line]) -> usize
    ensures { result ≡ near_jumps lines.now }
{
    let mut count = 0;
    for line in lines {
        if let Line::JumpNear(_) = *line {
            count += 1;
        }
    }
    count
}

/// The lines with each near jump made short that reaches its label before any is.
fn shortened(alloc: Global, lines: &[Line]) -> Result<LineList, AllocError>
    ensures { IfOk result (λ list. list ≡ shortened lines.now) }
{
    let labels = Labels::of(alloc, lines)?;
    let mut list = LineList::new(alloc);
    let mut place = 0;
    for line in lines {
        list.push(shortened_line(&labels, place, *line))?;
        place += size_of(*line);
    }
    Ok(list)
}

/// The lines with near jumps made short: those that are left near have distances outside -128..127, and where each
/// short jump of the argument reached its label, each of the result does, both as `assemble` lays the result out.
pub fn relax(alloc: Global, lines: &[Line]) -> Result<LineList, AllocError>
    ensures shortens { IfOk result (λ list. Shortens lines.now list) }
    ensures reach { ShortJumpsReach lines.now → IfOk result (λ list. ShortJumpsReach list) }
    ensures far { IfOk result (λ list. NearJumpsAreFar list) }
{
    let mut near = near_jumps(lines);
    let mut list = shortened(alloc, lines)?;
    while near_jumps(list.as_slice()) < near {
        near = near_jumps(list.as_slice());
        list = shortened(alloc, list.as_slice())?;
    }
    Ok(list)
}
