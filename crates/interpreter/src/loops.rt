//! Statements that turn.

ghost use Rattle.std.specs.Prelude.{◌≡◌};
ghost use Rattle.std.specs.Ordering.{int_eq};
ghost use Rattle.typed_tree.specs.declared.units.Program.{Program};
ghost use Rattle.typed_tree.specs.Expressions.{view_expr};
ghost use Rattle.typed_tree.specs.Statements.{While, Repeat, view_stmt};
ghost use Rattle.tp_meaning.specs.Outcomes.{State};
ghost use Rattle.tp_meaning.specs.Calls.{Do};
ghost use Rattle.tp_meaning.specs.Statements.{statement, then_next, turn, turned};
ghost use Rattle.tp_meaning.specs.Meaning.{run as runs};
ghost use Rattle.interpreter_store.specs.cell_store.Views.{view_value};
ghost use Rattle.interpreter_steps.specs.Running.{view_run, view_flow, program_of};
ghost use Rattle.interpreter_steps.specs.interpreter_frames.Frames.{then_flow, while_turned, until_turned, repeat_followed, counting_from, Goes};

use crate::machine::Machine;
use interpreter_steps::interpreter_frames::{Counting, Next, OnFlow, OnValue, Work, gave_flow};
use interpreter_steps::{Flow, Over, Run, is_past, number_in, number_of};
use interpreter_store::cell_store::Value;
use interpreter_store::value_operators::is_true;
use typed_tree::{Expr, Stmt};

/// The condition of a `while` comes next.
pub fn test_while<'a>(
    work: &mut Work<'a>,
    condition: &'a Box<Expr>,
    body: &'a Box<Stmt>,
) -> Result<Next<'a>, Over>
    ensures { (p : Program) (s : State) → Goes p result work.new s (then_flow p work.old (λ f. statement p (runs p) f (While (view_expr condition.now.value) (view_stmt body.now.value))) s) }
{
    work.evaluate(condition, OnValue::While { condition, body })
}

/// The body of a `while` comes next, where its condition holds.
pub fn turn_while<'a>(
    run: &mut Run,
    work: &mut Work<'a>,
    condition: &'a Box<Expr>,
    body: &'a Box<Stmt>,
    value: &Value,
) -> Result<Next<'a>, Over>
    ensures { (p : Program) → Goes p result work.new (view_run run.new) (then_flow p work.old (λ f. while_turned p f (view_expr condition.now.value) (view_stmt body.now.value) (view_value value.now)) (view_run run.old)) }
{
    let z = number_of(value)?;
    if is_true(z) {
        run.spend()?;
        work.execute(body, OnFlow::While { condition, body })
    } else {
        Ok(Next::Flow(Flow::Next))
    }
}

/// The next turn of a `while` comes behind its body.
pub fn follow_while<'a>(
    work: &mut Work<'a>,
    condition: &'a Box<Expr>,
    body: &'a Box<Stmt>,
    flow: Flow,
) -> Result<Next<'a>, Over>
    ensures { (p : Program) (s : State) → Goes p result work.new s (then_flow p work.old (λ f. then_next (view_flow flow) (runs p (Do (While (view_expr condition.now.value) (view_stmt body.now.value))) f)) s) }
{
    match flow {
        Flow::Next => test_while(work, condition, body),
        Flow::Left => Ok(Next::Flow(Flow::Left)),
    }
}

/// A turn of a `repeat`.
pub fn turn_repeat<'a>(
    run: &mut Run,
    work: &mut Work<'a>,
    body: &'a Box<Stmt>,
    condition: &'a Box<Expr>,
) -> Result<Next<'a>, Over>
    ensures { (p : Program) → Goes p result work.new (view_run run.new) (then_flow p work.old (λ f. statement p (runs p) f (Repeat (view_stmt body.now.value) (view_expr condition.now.value))) (view_run run.old)) }
{
    run.spend()?;
    work.execute(body, OnFlow::Repeat { body, condition })
}

/// The condition of a `repeat` comes behind its body.
pub fn follow_repeat<'a>(
    work: &mut Work<'a>,
    body: &'a Box<Stmt>,
    condition: &'a Box<Expr>,
    flow: Flow,
) -> Result<Next<'a>, Over>
    ensures { (p : Program) (s : State) → Goes p result work.new s (then_flow p work.old (λ f. repeat_followed p f (view_stmt body.now.value) (view_expr condition.now.value) (view_flow flow)) s) }
{
    match flow {
        Flow::Next => work.evaluate(condition, OnValue::Until { body, condition }),
        Flow::Left => Ok(Next::Flow(Flow::Left)),
    }
}

/// A `repeat` ends where its condition holds, and turns again otherwise.
pub fn end_repeat<'a>(
    run: &mut Run,
    work: &mut Work<'a>,
    body: &'a Box<Stmt>,
    condition: &'a Box<Expr>,
    value: &Value,
) -> Result<Next<'a>, Over>
    ensures { (p : Program) → Goes p result work.new (view_run run.new) (then_flow p work.old (λ f. until_turned p f (view_stmt body.now.value) (view_expr condition.now.value) (view_value value.now)) (view_run run.old)) }
{
    let z = number_of(value)?;
    if is_true(z) {
        Ok(Next::Flow(Flow::Next))
    } else {
        turn_repeat(run, work, body, condition)
    }
}

/// A turn of a `for`.
pub fn turn_for<'a>(
    run: &mut Run,
    work: &mut Work<'a>,
    counting: Counting<'a>,
    last: i32,
) -> Result<Next<'a>, Over>
    ensures { (p : Program) → let c = counting.entry in Goes p result work.new (view_run run.new) (then_flow p work.old (λ f. turn p (runs p) f c.variable last c.down (view_stmt c.body.now.value) (statement p (runs p) f (view_stmt c.body.now.value))) (view_run run.old)) }
{
    run.spend()?;
    work.execute(counting.body, OnFlow::Turn { counting, last })
}

// Whether a turn with this value was the last one.
fn is_last(z: i32, last: i32) -> bool
    ensures { result ≡ int_eq z last }
{
    z == last
}

impl<'a> Machine<'a> {
    /// A `for` between two values.
    pub fn count(
        &self,
        run: &mut Run,
        work: &mut Work<'a>,
        counting: Counting<'a>,
        first: i32,
        last: i32,
    ) -> Result<Next<'a>, Over>
        ensures { let p = program_of self.now.steps in Goes p result work.new (view_run run.new) (then_flow p work.old (λ f. counting_from p counting.entry f first last) (view_run run.old)) }
    {
        if is_past(counting.down, first, last) {
            return Ok(Next::Flow(Flow::Next));
        }
        let high = self.steps.count_from(
            run,
            &work.f,
            counting.variable,
            counting.ty,
            counting.checked,
            first,
            last,
        )?;
        turn_for(run, work, counting, high)
    }

    // Behind the last turn the loop ends, and behind another one its variable is stepped.
    fn step_for(
        &self,
        run: &mut Run,
        work: &mut Work<'a>,
        counting: Counting<'a>,
        last: i32,
    ) -> Result<Next<'a>, Over>
        ensures { let p = program_of self.now.steps in let c = counting.entry in Goes p result work.new (view_run run.new) (then_flow p work.old (λ f. turned p (runs p) f c.variable last c.down (view_stmt c.body.now.value)) (view_run run.old)) }
    {
        let at = self.steps.variable(run, &work.f, counting.variable)?;
        let z = number_in(run, &at)?;
        if is_last(z, last) {
            return gave_flow(self.steps.counted(run, &work.f, counting.variable));
        }
        self.steps.step(run, &at, z, counting.down)?;
        turn_for(run, work, counting, last)
    }

    /// A turn of a `for` ends.
    pub fn follow_for(
        &self,
        run: &mut Run,
        work: &mut Work<'a>,
        counting: Counting<'a>,
        last: i32,
        flow: Flow,
    ) -> Result<Next<'a>, Over>
        ensures { let p = program_of self.now.steps in let c = counting.entry in Goes p result work.new (view_run run.new) (then_flow p work.old (λ f. then_next (view_flow flow) (turned p (runs p) f c.variable last c.down (view_stmt c.body.now.value))) (view_run run.old)) }
    {
        match flow {
            Flow::Next => self.step_for(run, work, counting, last),
            Flow::Left => Ok(Next::Flow(Flow::Left)),
        }
    }
}
