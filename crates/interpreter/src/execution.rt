//! Statements begin.

ghost use Rattle.std.specs.Prelude.{◌≡◌, map};
ghost use Rattle.std.specs.Option.{option_map};
ghost use Rattle.typed_tree.specs.declared.units.Program.{Program};
ghost use Rattle.typed_tree.specs.Expressions.{view_boxed};
ghost use Rattle.typed_tree.specs.Statements.{view_stmt, view_stmts, view_arms, view_written, view_taken};
ghost use Rattle.tp_meaning.specs.Outcomes.{State};
ghost use Rattle.tp_meaning.specs.Calls.{Runs};
ghost use Rattle.tp_meaning.specs.Activations.{Activation as PureActivation};
ghost use Rattle.tp_meaning.specs.Statements.{statement, statements, branches};
ghost use Rattle.tp_meaning.specs.Meaning.{run as runs};
ghost use Rattle.interpreter_store.specs.cell_store.Views.{view_value};
ghost use Rattle.interpreter_store.specs.typed_cells.Sorts.{view_sort};
ghost use Rattle.interpreter_steps.specs.Running.{view_run, program_of};
ghost use Rattle.interpreter_steps.specs.interpreter_frames.Frames.{then_flow, all_written, all_read, item_printed, item_widened, Goes};

use crate::loops::{test_while, turn_repeat};
use crate::machine::Machine;
use interpreter_steps::interpreter_frames::{
    Counting, Next, OnFlow, OnPlace, OnValue, Work, gave_flow,
};
use interpreter_steps::{Flow, Over, Run, covers, end_line, skip_line, sort_of};
use interpreter_store::cell_store::Value;
use interpreter_store::typed_cells::Sort;
use typed_tree::{Arm, Expr, ReadItem, Stmt, WriteItem};

/// The first branch that has a label for a number.
pub fn branch_for<'a>(arms: &'a [Arm], z: i32, other: &'a Stmt) -> &'a Stmt
    ensures { (p : Program) (again : Runs) (f : PureActivation) → branches p again f (view_arms arms.now) z (statement p again f (view_stmt other.now)) ≡ statement p again f (view_stmt result.now) }
{
    match arms {
        [] => other,
        [arm, rest @ ..] => {
            if covers(arm.labels.as_slice(), z) {
                &arm.body
            } else {
                branch_for(rest, z, other)
            }
        }
    }
}

/// The statements that are left come next.
pub fn list_statements<'a>(work: &mut Work<'a>, rest: &'a [Stmt]) -> Result<Next<'a>, Over>
    ensures { (p : Program) (s : State) → Goes p result work.new s (then_flow p work.old (λ f. statements p (runs p) f (view_stmts rest.now)) s) }
{
    match rest {
        [] => Ok(Next::Flow(Flow::Next)),
        [one, rest @ ..] => work.execute(one, OnFlow::Block { rest }),
    }
}

/// The items that are left are written, and then the end of the line, with `line`.
pub fn write<'a>(
    run: &mut Run,
    work: &mut Work<'a>,
    items: &'a [WriteItem],
    line: bool,
) -> Result<Next<'a>, Over>
    ensures { (p : Program) → Goes p result work.new (view_run run.new) (then_flow p work.old (λ f. all_written p f (map view_written items.now) line) (view_run run.old)) }
{
    match items {
        [] => gave_flow(end_line(run, line)),
        [item, rest @ ..] => {
            let sort = sort_of(&work.f, &item.value)?;
            let width = &item.width;
            work.evaluate(
                &item.value,
                OnValue::Write {
                    sort,
                    width,
                    rest,
                    line,
                },
            )
        }
    }
}

/// The items that are left are read, and then the rest of the line is skipped, with `line`.
pub fn read<'a>(
    run: &mut Run,
    work: &mut Work<'a>,
    items: &'a [ReadItem],
    line: bool,
) -> Result<Next<'a>, Over>
    ensures { (p : Program) → Goes p result work.new (view_run run.new) (then_flow p work.old (λ f. all_read p f (map view_taken items.now) line) (view_run run.old)) }
{
    match items {
        [] => gave_flow(skip_line(run, line)),
        [item, rest @ ..] => work.locate(&item.place, OnPlace::Read { item, rest, line }),
    }
}

impl<'a> Machine<'a> {
    /// A value whose width is known is written, and then the items behind it.
    pub fn print(
        &self,
        run: &mut Run,
        work: &mut Work<'a>,
        sort: &Sort,
        value: &Value,
        width: i32,
        rest: &'a [WriteItem],
        line: bool,
    ) -> Result<Next<'a>, Over>
        ensures { let p = program_of self.now.steps in Goes p result work.new (view_run run.new) (then_flow p work.old (λ f. item_printed p f (view_sort sort.now) (view_value value.now) (map view_written rest.now) line width) (view_run run.old)) }
    {
        self.steps.print(run, sort, value, width)?;
        write(run, work, rest, line)
    }

    /// The width of an item comes behind its value.
    pub fn widen(
        &self,
        run: &mut Run,
        work: &mut Work<'a>,
        sort: Sort<'a>,
        value: Value,
        width: &'a Option<Box<Expr>>,
        rest: &'a [WriteItem],
        line: bool,
    ) -> Result<Next<'a>, Over>
        ensures { let p = program_of self.now.steps in Goes p result work.new (view_run run.new) (then_flow p work.old (λ f. item_widened p f (view_sort sort.entry) (view_value value) (option_map view_boxed width.now) (map view_written rest.now) line) (view_run run.old)) }
    {
        match width {
            None => self.print(run, work, &sort, &value, 0, rest, line),
            Some(width) => work.evaluate(
                width,
                OnValue::Width {
                    sort,
                    value,
                    rest,
                    line,
                },
            ),
        }
    }

    /// A statement begins.
    pub fn execute(
        &self,
        run: &mut Run,
        work: &mut Work<'a>,
        one: &'a Stmt,
    ) -> Result<Next<'a>, Over>
        ensures { let p = program_of self.now.steps in Goes p result work.new (view_run run.new) (then_flow p work.old (λ f. statement p (runs p) f (view_stmt one.now)) (view_run run.old)) }
    {
        match one {
            Stmt::Assign { place, value } => work.locate(place, OnPlace::AssignTo { value }),
            Stmt::CopyAll { to, from } => work.locate(to, OnPlace::CopyTo { from }),
            Stmt::Run { call } => work.evaluate(call, OnValue::Run),
            Stmt::If { condition, yes, no } => work.evaluate(condition, OnValue::If { yes, no }),
            Stmt::While { condition, body } => test_while(work, condition, body),
            Stmt::Repeat { body, condition } => turn_repeat(run, work, body, condition),
            Stmt::Block { statements } => list_statements(work, statements.as_slice()),
            Stmt::Case {
                selector,
                arms,
                other,
            } => work.evaluate(
                selector,
                OnValue::Case {
                    arms: arms.as_slice(),
                    other,
                },
            ),
            Stmt::For {
                variable,
                ty,
                from,
                to,
                down,
                checked,
                body,
            } => {
                let counting = Counting {
                    variable: *variable,
                    ty: *ty,
                    down: *down,
                    checked: *checked,
                    body,
                };
                work.evaluate(from, OnValue::From { counting, to })
            }
            Stmt::With { place, body } => work.locate(place, OnPlace::With { body }),
            Stmt::WriteItems { items, line } => write(run, work, items.as_slice(), *line),
            Stmt::ReadItems { items, line } => read(run, work, items.as_slice(), *line),
            Stmt::Halt { code } => work.evaluate(code, OnValue::Halt),
            Stmt::Exit => Ok(Next::Flow(Flow::Left)),
            Stmt::Unmake {
                pointer,
                destructor,
                args,
            } => work.evaluate(
                pointer,
                OnValue::Unmake {
                    pointer,
                    destructor: *destructor,
                    args: args.as_slice(),
                },
            ),
        }
    }
}
