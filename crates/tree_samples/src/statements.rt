//! Statements from constants.

use crate::expressions::{ArgSample, ExprSample, PlaceSample, arguments, expression, place};
use std::alloc::{AllocError, Global};
use type_layout::TypeId;
use typed_tree::{Arm, Destructor, Expr, LabelRange, ReadItem, Stmt, Variable, WriteItem};

/// A statement.
#[cycle(statement_sample)]
pub enum StmtSample {
    Assign(PlaceSample, ExprSample),
    CopyAll(PlaceSample, PlaceSample),
    Run(ExprSample),
    If(ExprSample, &'static StmtSample, &'static StmtSample),
    While(ExprSample, &'static StmtSample),
    Repeat(&'static StmtSample, ExprSample),
    Block(&'static [StmtSample]),
    /// With the branches, and what is done where none is taken.
    Case(ExprSample, &'static [ArmSample], &'static StmtSample),
    For(&'static ForSample),
    With(PlaceSample, &'static StmtSample),
    /// With whether the end of the line follows.
    Write(&'static [WriteSample], bool),
    /// With whether the rest of the line is skipped.
    Read(&'static [ReadSample], bool),
    Halt(&'static ExprSample),
    Exit,
    Unmake(ExprSample, Destructor, &'static [ArgSample]),
}

/// A `for`.
#[cycle(statement_sample)]
pub struct ForSample {
    pub variable: Variable,
    pub ty: TypeId,
    pub from: ExprSample,
    pub to: ExprSample,
    pub down: bool,
    pub checked: bool,
    pub body: StmtSample,
}

/// A value that is written, and its width.
pub type WriteSample = (ExprSample, Option<ExprSample>);

/// A place that is read, its type, and whether its bounds are tested.
pub type ReadSample = (PlaceSample, TypeId, bool);

/// The labels of a branch, and what is done in it.
#[cycle(statement_sample)]
pub struct ArmSample {
    pub labels: &'static [(i32, i32)],
    pub body: StmtSample,
}

fn boxed(alloc: Global, one: Stmt) -> Result<Box<Stmt>, AllocError> {
    Ok(Box::new(alloc, one)?)
}

fn unboxed(one: Box<Stmt>) -> Stmt {
    Box::into_inner(one)
}

/// The statement of a sample.
#[cycle(states)]
pub fn statement(alloc: Global, sample: &StmtSample) -> Result<Box<Stmt>, AllocError> {
    match sample {
        StmtSample::Assign(to, what) => assigned(alloc, to, what),
        StmtSample::CopyAll(to, what) => copied(alloc, to, what),
        StmtSample::Run(what) => ran(alloc, what),
        StmtSample::If(test, one, other) => {
            let yes = statement(alloc, one)?;
            let no = statement(alloc, other)?;
            chosen(alloc, test, yes, no)
        }
        StmtSample::While(condition, body) => turned(alloc, body, condition, true),
        StmtSample::Repeat(body, condition) => turned(alloc, body, condition, false),
        StmtSample::Block(list) => block(alloc, list),
        StmtSample::Case(what, list, rest) => {
            let arms = arms(alloc, list)?;
            let other = statement(alloc, rest)?;
            selected(alloc, what, arms, other)
        }
        StmtSample::For(one) => counted(alloc, one),
        StmtSample::With(whole, body) => within(alloc, body, whole),
        StmtSample::Write(list, line) => written(alloc, list, *line),
        StmtSample::Read(list, line) => taken(alloc, list, *line),
        StmtSample::Halt(what) => halted(alloc, what),
        StmtSample::Exit => boxed(alloc, Stmt::Exit),
        StmtSample::Unmake(what, destructor, list) => unmade(alloc, what, *destructor, list),
    }
}

fn assigned(alloc: Global, to: &PlaceSample, what: &ExprSample) -> Result<Box<Stmt>, AllocError> {
    let place = place(alloc, to)?;
    let value = expression(alloc, what)?;
    boxed(alloc, Stmt::Assign { place, value })
}

fn copied(alloc: Global, to: &PlaceSample, what: &PlaceSample) -> Result<Box<Stmt>, AllocError> {
    let to = place(alloc, to)?;
    let from = place(alloc, what)?;
    boxed(alloc, Stmt::CopyAll { to, from })
}

fn ran(alloc: Global, what: &ExprSample) -> Result<Box<Stmt>, AllocError> {
    let call = expression(alloc, what)?;
    boxed(alloc, Stmt::Run { call })
}

fn halted(alloc: Global, what: &ExprSample) -> Result<Box<Stmt>, AllocError> {
    let code = expression(alloc, what)?;
    boxed(alloc, Stmt::Halt { code })
}

fn chosen(
    alloc: Global,
    test: &ExprSample,
    yes: Box<Stmt>,
    no: Box<Stmt>,
) -> Result<Box<Stmt>, AllocError> {
    let condition = expression(alloc, test)?;
    boxed(alloc, Stmt::If { condition, yes, no })
}

#[cycle(states)]
fn turned(
    alloc: Global,
    what: &StmtSample,
    test: &ExprSample,
    first: bool,
) -> Result<Box<Stmt>, AllocError> {
    let body = statement(alloc, what)?;
    let condition = expression(alloc, test)?;
    let turning = if first {
        Stmt::While { condition, body }
    } else {
        Stmt::Repeat { body, condition }
    };
    boxed(alloc, turning)
}

#[cycle(states)]
fn block(alloc: Global, list: &[StmtSample]) -> Result<Box<Stmt>, AllocError> {
    let mut statements = Vec::new(alloc);
    for sample in list {
        statements.push(unboxed(statement(alloc, sample)?))?;
    }
    boxed(alloc, Stmt::Block { statements })
}

fn labels(alloc: Global, list: &[(i32, i32)]) -> Result<Vec<LabelRange>, AllocError> {
    let mut labels = Vec::new(alloc);
    for (low, high) in list {
        labels.push(LabelRange {
            low: *low,
            high: *high,
        })?;
    }
    Ok(labels)
}

#[cycle(states)]
fn arm(alloc: Global, sample: &ArmSample) -> Result<Arm, AllocError> {
    let body = statement(alloc, &sample.body)?;
    let labels = labels(alloc, sample.labels)?;
    Ok(Arm {
        labels,
        body: unboxed(body),
    })
}

#[cycle(states)]
fn arms(alloc: Global, list: &[ArmSample]) -> Result<Vec<Arm>, AllocError> {
    let mut arms = Vec::new(alloc);
    for sample in list {
        arms.push(arm(alloc, sample)?)?;
    }
    Ok(arms)
}

fn selected(
    alloc: Global,
    what: &ExprSample,
    arms: Vec<Arm>,
    other: Box<Stmt>,
) -> Result<Box<Stmt>, AllocError> {
    let selector = expression(alloc, what)?;
    boxed(
        alloc,
        Stmt::Case {
            selector,
            arms,
            other,
        },
    )
}

#[cycle(states)]
fn counted(alloc: Global, sample: &ForSample) -> Result<Box<Stmt>, AllocError> {
    let body = statement(alloc, &sample.body)?;
    let from = expression(alloc, &sample.from)?;
    let to = expression(alloc, &sample.to)?;
    boxed(
        alloc,
        Stmt::For {
            variable: sample.variable,
            ty: sample.ty,
            from,
            to,
            down: sample.down,
            checked: sample.checked,
            body,
        },
    )
}

#[cycle(states)]
fn within(alloc: Global, what: &StmtSample, whole: &PlaceSample) -> Result<Box<Stmt>, AllocError> {
    let body = statement(alloc, what)?;
    let place = place(alloc, whole)?;
    boxed(alloc, Stmt::With { place, body })
}

fn width(alloc: Global, sample: &Option<ExprSample>) -> Result<Option<Box<Expr>>, AllocError> {
    match sample {
        None => Ok(None),
        Some(one) => Ok(Some(expression(alloc, one)?)),
    }
}

fn item(alloc: Global, sample: &WriteSample) -> Result<WriteItem, AllocError> {
    let (what, wide) = sample;
    let value = expression(alloc, what)?;
    let width = width(alloc, wide)?;
    Ok(WriteItem { value, width })
}

fn written(alloc: Global, list: &[WriteSample], line: bool) -> Result<Box<Stmt>, AllocError> {
    let mut items = Vec::new(alloc);
    for sample in list {
        items.push(item(alloc, sample)?)?;
    }
    boxed(alloc, Stmt::WriteItems { items, line })
}

fn read_item(alloc: Global, sample: &ReadSample) -> Result<ReadItem, AllocError> {
    let (to, ty, checked) = sample;
    let place = place(alloc, to)?;
    Ok(ReadItem {
        place,
        ty: *ty,
        checked: *checked,
    })
}

fn taken(alloc: Global, list: &[ReadSample], line: bool) -> Result<Box<Stmt>, AllocError> {
    let mut items = Vec::new(alloc);
    for sample in list {
        items.push(read_item(alloc, sample)?)?;
    }
    boxed(alloc, Stmt::ReadItems { items, line })
}

fn unmade(
    alloc: Global,
    what: &ExprSample,
    destructor: Destructor,
    list: &[ArgSample],
) -> Result<Box<Stmt>, AllocError> {
    let pointer = expression(alloc, what)?;
    let args = arguments(alloc, list)?;
    boxed(
        alloc,
        Stmt::Unmake {
            pointer,
            destructor,
            args,
        },
    )
}
