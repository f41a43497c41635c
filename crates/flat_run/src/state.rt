//! What the interpreter keeps of a run.

ghost use Rattle.std.specs.Prelude.{◌≡◌, suc, IfOk, OnOk, OnErr, IfErr};
ghost use Rattle.flat_code.specs.Meaning.{Outcome, Over, raised, begun, error_text};
ghost use Rattle.flat_code.specs.Tree.{expr_size, exprs_size};
ghost use Rattle.flat_code.specs.View.{view_expr, view_exprs};
ghost use Rattle.flat_run.specs.Running.{view_run, view_end, forget, Stops};

use crate::memory::Memory;
use flat_code::{FlatExpr, Trap};
use std::alloc::{AllocError, AllocFailed, Global};

/// How a run stands.
#[derive(Clone, Copy, Debug, PartialEq, Eq)]
pub enum MeanEnd {
    /// It ended with this code.
    Ended(u8),
    /// A turn is due, and none is left.
    Going,
    /// It came to this act that the language leaves open.
    Undefined(u8),
}

/// What comes after some statements.
#[derive(Clone, Copy, Debug, PartialEq, Eq)]
pub enum Flow {
    Next,
    /// What follows the loop so many loops further out.
    Left(u16),
    Returned,
}

/// Why nothing comes after some statements.
#[derive(Clone, Copy, Debug, PartialEq, Eq)]
pub enum Stop {
    NoMemory,
    /// A turn is due, and none is left.
    Going,
    Ended(u8),
    /// A runtime error, whose turn and line are still due.
    Error(u16),
    Undefined(u8),
}

impl From<AllocError> for Stop {
    ghost use Rattle.flat_run.specs.declared.state.Stop.{Stop};

    ghost from_gives = { λ _ stop. stop ≡ Stop.NoMemory };

    fn from(_error: AllocError) -> Stop {
        Stop::NoMemory
    }
}

impl<T: Drop> From<AllocFailed<T>> for Stop {
    ghost use Rattle.flat_run.specs.declared.state.Stop.{Stop};

    ghost from_gives = { λ _ stop. stop ≡ Stop.NoMemory };

    fn from(_error: AllocFailed<T>) -> Stop {
        Stop::NoMemory
    }
}

impl From<Trap> for Stop {
    ghost use Rattle.flat_run.specs.Running.{stop_of};

    ghost from_gives = { λ trap stop. stop ≡ stop_of trap };

    fn from(trap: Trap) -> Stop {
        match trap {
            Trap::ByZero => Stop::Error(200),
            Trap::Bad(act) => Stop::Undefined(act),
        }
    }
}

/// A run: the turns that are left, memory, the installed flag, the input that is left, what was
/// written, and the work.
#[derive(Drop)]
pub struct Run<'a> {
    pub turns: u64,
    pub memory: Memory,
    pub flag: bool,
    pub input: &'a [u8],
    pub out: Vec<u8>,
    pub err: Vec<u8>,
    pub work: u64,
}

// What a runtime error writes.
fn error_text(alloc: Global, code: u16) -> Result<Vec<u8>, AllocError>
    ensures { IfOk result (λ text. text.items ≡ error_text code) }
{
    let digits = format!(in alloc; "{code}")?;
    let mut text = Vec::new(alloc);
    text.extend_from_slice(b"Runtime error ")?;
    text.extend_from_slice(digits.as_bytes())?;
    text.extend_from_slice(b"\r\n")?;
    Ok(text)
}

impl Run<'_> {
    /// Counts nodes. A count that passes 64 bits is answered as out of memory.
    pub fn begin(&mut self, nodes: u64) -> Result<(), AllocError>
        ensures { OnOk result (view_run self.new ≡ begun nodes (view_run self.old)) }
    {
        self.work = self.work.checked_add(nodes).ok_or(AllocError)?;
        Ok(())
    }

    /// Counts the nodes of an expression.
    pub fn begin_expr(&mut self, expr: &FlatExpr) -> Result<(), AllocError>
        ensures { OnOk result (view_run self.new ≡ begun (expr_size (view_expr expr.now)) (view_run self.old)) }
    {
        match expr {
            FlatExpr::Op { op: _, a, b } => {
                self.begin(1)?;
                self.begin_expr(a)?;
                self.begin_expr(b)
            }
            FlatExpr::Number(_) => self.begin(1),
            FlatExpr::Byte(_) => self.begin(1),
            FlatExpr::Word(_) => self.begin(1),
            FlatExpr::AddressOf(_) => self.begin(1),
            FlatExpr::SegmentOf(_) => self.begin(1),
            FlatExpr::VmtOf { .. } => self.begin(1),
        }
    }

    /// Counts the nodes of expressions.
    pub fn begin_exprs(&mut self, exprs: &[FlatExpr]) -> Result<(), AllocError>
        ensures { OnOk result (view_run self.new ≡ begun (exprs_size (view_exprs exprs.now)) (view_run self.old)) }
    {
        match exprs {
            [] => Ok(()),
            [expr, rest @ ..] => {
                self.begin_expr(expr)?;
                self.begin_exprs(rest)
            }
        }
    }

    /// Spends a turn, where one is left.
    pub fn spend(&mut self) -> Result<(), Stop>
        ensures ok { OnOk result (view_run self.old ≡ record (view_run self.new) { turns = suc self.new.turns }) }
        ensures turn { OnOk result (suc self.new.turns ≡ self.old.turns) }
        ensures err { IfErr result (λ stop. (stop ≡ Stop.Going) × (self.old.turns ≡ 0) × (view_run self.new ≡ view_run self.old)) }
    {
        if self.turns == 0 {
            return Err(Stop::Going);
        }
        self.turns -= 1;
        Ok(())
    }

    /// Ends the run with a runtime error.
    fn raise(&mut self, alloc: Global, code: u16) -> Result<MeanEnd, AllocError>
        ensures { IfOk result (λ end. raised code (view_run self.old) ≡ Over (view_end end) (view_run self.new)) }
    {
        let Ok(()) = self.spend() else {
            return Ok(MeanEnd::Going);
        };
        let text = error_text(alloc, code)?;
        self.err.extend_from_slice(text.as_slice())?;
        Ok(MeanEnd::Ended((code % 0x100) as u8))
    }

    /// How a run stands that stopped, with the line of a runtime error.
    pub fn end(&mut self, alloc: Global, stop: Stop) -> Result<MeanEnd, AllocError>
        ensures { IfOk result (λ end. (o : Outcome) → Stops stop (view_run self.old) o → forget o ≡ forget (Over (view_end end) (view_run self.new))) }
    {
        match stop {
            Stop::NoMemory => Err(AllocError),
            Stop::Going => Ok(MeanEnd::Going),
            Stop::Ended(code) => Ok(MeanEnd::Ended(code)),
            Stop::Undefined(act) => Ok(MeanEnd::Undefined(act)),
            Stop::Error(code) => self.raise(alloc, code),
        }
    }
}
