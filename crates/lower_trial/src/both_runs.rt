//! The two runs of a program, side by side.

use flat_code::{FlatUnit, flat_weight_of};
use flat_run::{MeanEnd as FlatEnd, Meaning as FlatMeaning, fits, flat_mean};
use interpreter::{MeanEnd, Meaning, mean};
use lower_stmt::flat_units;
use std::alloc::{AllocError, Global};
use std::fmt::{self, Display, Formatter, Write};
use typed_tree::{Program, Unit, weight_of};

/// How many times more turns the flat code of a run that is over may take.
const FLAT_TURNS: u64 = 1_000;

/// How many bytes are shown of what was written.
const SHOWN: usize = 300;

/// The most bytes of a heap.
const MOST_HEAP: u32 = 196_608;

/// What came of a program.
#[derive(Drop)]
pub enum Compared {
    /// It isn't lowered: there is not enough memory for it, or a number fits no node.
    NotLowered,
    /// Its data, stack or heap are too large for the interpreter of flat code.
    TooLarge,
    /// Both runs show the same.
    Same(MeanEnd),
    /// They don't.
    Different { mean: Meaning, flat: FlatMeaning },
}

/// Some of the bytes that were written.
#[derive(Clone, Copy)]
struct Shown<'a>(&'a [u8]);

impl Display for Shown<'_> {
    fn fmt<W: Write>(&self, f: &mut Formatter<W>) -> fmt::Result {
        for byte in self.0.iter().take(SHOWN) {
            if (32..127).contains(byte) {
                write!(f, "{}", *byte as char)?;
            } else {
                write!(f, "<{byte}>")?;
            }
        }
        Ok(())
    }
}

/// The bytes behind those that two lists begin with alike, and how many these are.
fn behind<'a>(bytes: &'a [u8], other: &[u8]) -> (usize, &'a [u8]) {
    let both = bytes.len().min(other.len());
    let count = bytes
        .iter()
        .zip(other)
        .position(|(one, two)| *one != *two)
        .unwrap_or(both);
    (count, bytes.get(count..).unwrap_or(&[]))
}

impl Display for Compared {
    fn fmt<W: Write>(&self, f: &mut Formatter<W>) -> fmt::Result {
        match self {
            Compared::NotLowered => write!(f, "not lowered"),
            Compared::TooLarge => write!(f, "too large"),
            Compared::Same(end) => write!(f, "same: {end:?}"),
            Compared::Different { mean, flat } => {
                let (mean_end, flat_end) = (mean.end, flat.end);
                write!(f, "different: meaning {mean_end:?}, flat {flat_end:?}")?;
                let (at, rest) = behind(mean.out.as_slice(), flat.out.as_slice());
                let (_, flat_rest) = behind(flat.out.as_slice(), mean.out.as_slice());
                write!(f, "\n  output from {at}: {}\n", Shown(rest))?;
                write!(f, "  flat             : {}\n", Shown(flat_rest))?;
                write!(f, "  errors: {}\n", Shown(mean.err.as_slice()))?;
                write!(f, "  flat  : {}", Shown(flat.err.as_slice()))
            }
        }
    }
}

fn same_end(mean: MeanEnd, flat: FlatEnd) -> bool {
    match (mean, flat) {
        (MeanEnd::Ended(code), FlatEnd::Ended(other)) => code == other,
        (MeanEnd::Undefined(_), _) => true,
        (MeanEnd::Going, FlatEnd::Going) => true,
        _ => false,
    }
}

/// Whether the flat code shows what the meaning asks for.
fn is_same(mean: &Meaning, flat: &FlatMeaning) -> bool {
    let (out, flat_out) = (mean.out.as_slice(), flat.out.as_slice());
    let (err, flat_err) = (mean.err.as_slice(), flat.err.as_slice());
    if !same_end(mean.end, flat.end) {
        return false;
    }
    match mean.end {
        MeanEnd::Ended(_) => out == flat_out && err == flat_err,
        // What comes behind the act is open.
        MeanEnd::Undefined(_) => flat_out.starts_with(out),
        // Flat code takes a turn for each of the meaning's, and others.
        MeanEnd::Going => out.starts_with(flat_out),
        MeanEnd::Stopped => false,
    }
}

/// How many turns the flat code may take, where the meaning stands so after as many.
fn flat_turns(end: MeanEnd, turns: u64) -> u64 {
    match end {
        MeanEnd::Going => turns,
        _ => turns.saturating_mul(FLAT_TURNS),
    }
}

fn main_unit(program: &Program) -> Option<&Unit> {
    program.units.as_slice().get(program.start as usize)
}

/// What came of a program, and of how many of its units the flat code weighs more than their trees allow.
#[derive(Drop)]
pub struct Report {
    pub compared: Compared,
    pub heavy: usize,
}

impl Display for Report {
    fn fmt<W: Write>(&self, f: &mut Formatter<W>) -> fmt::Result {
        write!(f, "{}", self.compared)?;
        if self.heavy > 0 {
            write!(f, "; {} too heavy", self.heavy)?;
        }
        Ok(())
    }
}

/// How many units weigh more as flat code than their trees allow. The first three are the runtime's.
fn heavy_units(units: &[FlatUnit], program: &Program) -> usize {
    let mut count = 0usize;
    for (flat, unit) in units.iter().skip(3).zip(program.units.as_slice()) {
        if flat_weight_of(flat) > weight_of(unit) {
            count = count.saturating_add(1);
        }
    }
    count
}

/// Lowers a program and runs it both ways, the meaning for so many turns.
pub fn compare(
    alloc: Global,
    program: &Program,
    input: &[u8],
    turns: u64,
) -> Result<Report, AllocError> {
    let Ok(units) = flat_units(alloc, program) else {
        return Ok(Report {
            compared: Compared::NotLowered,
            heavy: 0,
        });
    };
    Ok(Report {
        compared: run_both(alloc, program, units.as_slice(), input, turns)?,
        heavy: heavy_units(units.as_slice(), program),
    })
}

/// Runs a program both ways, the meaning for so many turns.
fn run_both(
    alloc: Global,
    program: &Program,
    units: &[FlatUnit],
    input: &[u8],
    turns: u64,
) -> Result<Compared, AllocError> {
    let Some(main) = main_unit(program) else {
        return Ok(Compared::TooLarge);
    };
    let heap = main.heap.min(MOST_HEAP);
    if !fits(units) || main.stack > 65_520 {
        return Ok(Compared::TooLarge);
    }
    let mean = mean(alloc, program, input, turns)?;
    let flat = flat_mean(
        alloc,
        units,
        main.overlaid.as_slice(),
        main.stack,
        heap,
        input,
        flat_turns(mean.end, turns),
    )?;
    if is_same(&mean, &flat) {
        Ok(Compared::Same(mean.end))
    } else {
        Ok(Compared::Different { mean, flat })
    }
}
