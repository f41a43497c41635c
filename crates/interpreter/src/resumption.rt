//! What has run goes to the frame that waits for it.

ghost use Rattle.std.specs.Prelude.{map};
ghost use Rattle.typed_tree.specs.declared.units.Program.{Program};
ghost use Rattle.typed_tree.specs.Expressions.{view_expr, view_place, view_elements, view_args};
ghost use Rattle.typed_tree.specs.Statements.{view_stmt, view_stmts, view_arms, view_written, view_taken};
ghost use Rattle.tp_meaning.specs.Outcomes.{State};
ghost use Rattle.tp_meaning.specs.Expressions.{instance_at};
ghost use Rattle.tp_meaning.specs.Statements.{statements, then_next};
ghost use Rattle.tp_meaning.specs.Meaning.{run as runs};
ghost use Rattle.interpreter_store.specs.cell_store.Views.{view_value};
ghost use Rattle.interpreter_store.specs.typed_cells.Sorts.{view_sort, view_reached};
ghost use Rattle.interpreter_effects.specs.activations.Views.{view_activation, view_callee};
ghost use Rattle.interpreter_steps.specs.Running.{view_run, view_flow, program_of};
ghost use Rattle.interpreter_steps.specs.Entering.{ended};
ghost use Rattle.interpreter_steps.specs.declared.interpreter_frames.work.Work.{Work as WorkOf};
ghost use Rattle.interpreter_steps.specs.interpreter_frames.Frames.{rest_of, with_value, then_value, then_flow, element_added, span_begun, span_added, branched, selected, counting_up, counting_to, wide_printed, halted_by, disposed_with, called_on, item_read, resumed_value, resumed_place, resumed_flow, Goes};

use crate::evaluation::{list_elements, operate};
use crate::execution::{branch_for, list_statements, read};
use crate::loops::{end_repeat, follow_repeat, follow_while, turn_while};
use crate::machine::Machine;
use common_values::sets::with_range;
use interpreter_effects::standard_effects::Operand;
use interpreter_steps::interpreter_frames::{
    Callable, Counting, Next, OnFlow, OnPlace, OnValue, Return, Work, done, gave_flow, gave_place,
    gave_value,
};
use interpreter_steps::{
    Flow, Over, Run, element_number, halted, instance_at, number_of, set_spanned, unary_value,
    unless_nil, value_within,
};
use interpreter_store::cell_store::Value;
use interpreter_store::typed_cells::{Reached, Sort};
use interpreter_store::value_operators::is_true;
use std::alloc::Global;
use type_layout::RoutineId;
use typed_tree::{Arg, Arm, Destructor, Expr, PlaceExpr, ReadItem, SetElement, Stmt, WriteItem};

// One element joins a set, and those that are left come next.
fn add_element<'a>(
    alloc: Global,
    work: &mut Work<'a>,
    rest: &'a [SetElement],
    set: &[u8],
    value: &Value,
) -> Result<Next<'a>, Over>
    ensures { (p : Program) (s : State) → Goes p result work.new s (then_value p work.old (λ f. element_added p f (view_elements rest.now) set.now (view_value value.now)) s) }
{
    let n = element_number(value)?;
    list_elements(work, rest, with_range(alloc, set, n, n)?)
}

// The last element of a span comes behind the first one.
fn span_from<'a>(
    work: &mut Work<'a>,
    last: &'a Expr,
    rest: &'a [SetElement],
    set: Vec<u8>,
    first: Value,
) -> Result<Next<'a>, Over>
    ensures { (p : Program) (s : State) → Goes p result work.new s (then_value p work.old (λ f. span_begun p f (view_expr last.now) (view_elements rest.now) set.items (view_value first)) s) }
{
    work.evaluate(last, OnValue::Last { first, rest, set })
}

// The elements of a span join a set, and those that are left come next.
fn add_span<'a>(
    alloc: Global,
    work: &mut Work<'a>,
    first: &Value,
    rest: &'a [SetElement],
    set: Vec<u8>,
    last: &Value,
) -> Result<Next<'a>, Over>
    ensures { (p : Program) (s : State) → Goes p result work.new s (then_value p work.old (λ f. span_added p f (view_value first.now) (view_elements rest.now) set.items (view_value last.now)) s) }
{
    let all = set_spanned(alloc, set, first, last)?;
    list_elements(work, rest, all)
}

fn choose<'a>(value: &Value, yes: &'a Stmt, no: &'a Stmt) -> Result<Next<'a>, Over>
    ensures { (p : Program) (work : WorkOf) (s : State) → Goes p result work s (then_flow p work (λ f. branched p f (view_stmt yes.now) (view_stmt no.now) (view_value value.now)) s) }
{
    let z = number_of(value)?;
    if is_true(z) {
        Ok(Next::Execute(yes))
    } else {
        Ok(Next::Execute(no))
    }
}

fn select<'a>(value: &Value, arms: &'a [Arm], other: &'a Stmt) -> Result<Next<'a>, Over>
    ensures { (p : Program) (work : WorkOf) (s : State) → Goes p result work s (then_flow p work (λ f. selected p f (view_arms arms.now) (view_stmt other.now) (view_value value.now)) s) }
{
    let z = number_of(value)?;
    Ok(Next::Execute(branch_for(arms, z, other)))
}

// The last value of a `for` comes behind the first one.
fn count_from<'a>(
    work: &mut Work<'a>,
    counting: Counting<'a>,
    to: &'a Box<Expr>,
    value: &Value,
) -> Result<Next<'a>, Over>
    ensures { (p : Program) (s : State) → Goes p result work.new s (then_flow p work.old (λ f. counting_up p counting.entry f (view_expr to.now.value) (view_value value.now)) s) }
{
    let first = number_of(value)?;
    work.evaluate(to, OnValue::To { counting, first })
}

fn halt<'a>(value: &Value) -> Result<Next<'a>, Over>
    ensures { (p : Program) (work : WorkOf) (s : State) → Goes p result work s (then_flow p work (λ f. halted_by (view_value value.now)) s) }
{
    let z = number_of(value)?;
    Err(halted(z))
}

// The statements that are left come behind one.
fn follow_statement<'a>(work: &mut Work<'a>, rest: &'a [Stmt], flow: Flow) -> Result<Next<'a>, Over>
    ensures { (p : Program) (s : State) → Goes p result work.new s (then_flow p work.old (λ f. then_next (view_flow flow) (statements p (runs p) f (view_stmts rest.now))) s) }
{
    match flow {
        Flow::Next => list_statements(work, rest),
        Flow::Left => Ok(Next::Flow(Flow::Left)),
    }
}

impl<'a> Machine<'a> {
    fn count_to(
        &self,
        run: &mut Run,
        work: &mut Work<'a>,
        counting: Counting<'a>,
        first: i32,
        value: &Value,
    ) -> Result<Next<'a>, Over>
        ensures { let p = program_of self.now.steps in Goes p result work.new (view_run run.new) (then_flow p work.old (λ f. counting_to p counting.entry f first (view_value value.now)) (view_run run.old)) }
    {
        let last = number_of(value)?;
        self.count(run, work, counting, first, last)
    }

    fn print_wide(
        &self,
        run: &mut Run,
        work: &mut Work<'a>,
        sort: &Sort,
        item: &Value,
        width: &Value,
        rest: &'a [WriteItem],
        line: bool,
    ) -> Result<Next<'a>, Over>
        ensures { let p = program_of self.now.steps in Goes p result work.new (view_run run.new) (then_flow p work.old (λ f. wide_printed p f (view_sort sort.now) (view_value item.now) (map view_written rest.now) line (view_value width.now)) (view_run run.old)) }
    {
        let width = number_of(width)?;
        self.print(run, work, sort, item, width, rest, line)
    }

    // The arguments of a destructor come behind the pointer to what is disposed of, which is not nil.
    fn dispose(
        &self,
        run: &mut Run,
        work: &mut Work<'a>,
        pointer: &'a Box<Expr>,
        destructor: Destructor,
        args: &'a [Arg],
        block: Value,
    ) -> Result<Next<'a>, Over>
        ensures { let p = program_of self.now.steps in Goes p result work.new (view_run run.new) (then_flow p work.old (λ f. disposed_with p f (view_expr pointer.now.value) destructor (view_args args.now) (view_value block)) (view_run run.old)) }
    {
        unless_nil(&block)?;
        let call = Callable::Destructor {
            pointer,
            block,
            destructor,
        };
        self.argue(run, work, args, Vec::new(self.steps.alloc), call)
    }

    // The arguments of a method come behind its instance.
    fn call_on(
        &self,
        run: &mut Run,
        work: &mut Work<'a>,
        routine: RoutineId,
        own: &PlaceExpr,
        args: &'a [Arg],
        at: Reached<'a>,
    ) -> Result<Next<'a>, Over>
        ensures { let p = program_of self.now.steps in Goes p result work.new (view_run run.new) (then_value p work.old (λ f. called_on p f routine (instance_at f (view_place own.now) (view_reached at.entry)) (view_args args.now)) (view_run run.old)) }
    {
        let instance = instance_at(&work.f, own, at);
        let call = Callable::Named { routine, instance };
        self.argue(run, work, args, Vec::new(self.steps.alloc), call)
    }

    // An item is read, and then those that are left.
    fn read_item(
        &self,
        run: &mut Run,
        work: &mut Work<'a>,
        item: &ReadItem,
        rest: &'a [ReadItem],
        line: bool,
        at: &Reached,
    ) -> Result<Next<'a>, Over>
        ensures { let p = program_of self.now.steps in Goes p result work.new (view_run run.new) (then_flow p work.old (λ f. item_read p f item.now.checked item.now.ty (view_reached at.now) (map view_taken rest.now) line) (view_run run.old)) }
    {
        self.steps.take(run, &work.f, at, item.ty, item.checked)?;
        read(run, work, rest, line)
    }

    // The activation that called goes on with what its call gives.
    fn return_from(
        &self,
        run: &mut Run,
        work: &mut Work<'a>,
        back: Box<Return<'a>>,
    ) -> Result<Next<'a>, Over>
        ensures { let p = program_of self.now.steps in let to = back.entry.value in Goes p result work.new (view_run run.new) (with_value (rest_of p work.old) (view_activation to.caller) (ended (view_callee to.callee) to.first) (view_run run.old)) }
    {
        let back = Box::into_inner(back);
        work.f = back.caller;
        gave_value(self.steps.end(run, &back.callee, back.first))
    }

    /// A value goes to the frame that waits for it.
    pub fn give_value(
        &self,
        run: &mut Run,
        work: &mut Work<'a>,
        frame: OnValue<'a>,
        value: Value,
    ) -> Result<Next<'a>, Over>
        ensures { let p = program_of self.now.steps in Goes p result work.new (view_run run.new) (resumed_value p (rest_of p work.old) frame.entry (view_value value) (view_activation work.old.f) (view_run run.old)) }
    {
        let alloc = self.steps.alloc;
        match frame {
            OnValue::Unary { ty, op } => gave_value(unary_value(&work.f, ty, op, &value)),
            OnValue::Left {
                ty,
                op,
                right,
                early,
            } => operate(work, ty, op, value, right, early),
            OnValue::Right { ty, op, left } => {
                gave_value(self.steps.binary_value(run, &work.f, ty, op, &left, &value))
            }
            OnValue::Convert { ty } => gave_value(self.steps.converted_value(&work.f, ty, &value)),
            OnValue::Range { low, high } => gave_value(value_within(&value, low, high)),
            OnValue::Element { rest, set } => {
                add_element(alloc, work, rest, set.as_slice(), &value)
            }
            OnValue::First { last, rest, set } => span_from(work, last, rest, set, value),
            OnValue::Last { first, rest, set } => {
                add_span(alloc, work, &first, rest, set, &value)
            }
            OnValue::Deref { pointer } => {
                gave_place(self.steps.follow(run, &work.f, pointer, &value))
            }
            OnValue::Index { at, checked } => {
                gave_place(self.steps.element_at(&at, checked, &value))
            }
            OnValue::Argument {
                sort,
                rest,
                front,
                call,
            } => self.argue_on(run, work, rest, front, Operand::Given(sort, value), call),
            OnValue::Made { serial } => Ok(Next::Value(Value::Block(serial))),
            OnValue::Freed { at } => gave_flow(self.steps.free(run, &at)),
            OnValue::Assign { at } => done(self.steps.store(run, &at, &value)),
            OnValue::Run => Ok(Next::Flow(Flow::Next)),
            OnValue::If { yes, no } => choose(&value, yes, no),
            OnValue::While { condition, body } => turn_while(run, work, condition, body, &value),
            OnValue::Until { body, condition } => end_repeat(run, work, body, condition, &value),
            OnValue::Case { arms, other } => select(&value, arms, other),
            OnValue::From { counting, to } => count_from(work, counting, to, &value),
            OnValue::To { counting, first } => self.count_to(run, work, counting, first, &value),
            OnValue::Write {
                sort,
                width,
                rest,
                line,
            } => self.widen(run, work, sort, value, width, rest, line),
            OnValue::Width {
                sort,
                value: item,
                rest,
                line,
            } => self.print_wide(run, work, &sort, &item, &value, rest, line),
            OnValue::Halt => halt(&value),
            OnValue::Unmake {
                pointer,
                destructor,
                args,
            } => self.dispose(run, work, pointer, destructor, args, value),
        }
    }

    /// A place goes to the frame that waits for it.
    pub fn give_place(
        &self,
        run: &mut Run,
        work: &mut Work<'a>,
        frame: OnPlace<'a>,
        at: Reached<'a>,
    ) -> Result<Next<'a>, Over>
        ensures { let p = program_of self.now.steps in Goes p result work.new (view_run run.new) (resumed_place p (rest_of p work.old) frame.entry (view_reached at.entry) (view_activation work.old.f) (view_run run.old)) }
    {
        let alloc = self.steps.alloc;
        match frame {
            OnPlace::Load => gave_value(self.steps.load(run, &at)),
            OnPlace::Length => gave_value(self.steps.measure(run, &at)),
            OnPlace::Indexed { index, checked } => {
                work.evaluate(index, OnValue::Index { at, checked })
            }
            OnPlace::Field { number } => gave_place(self.steps.field_at(&at, number)),
            OnPlace::Own { routine, own, args } => {
                self.call_on(run, work, routine, own, args, at)
            }
            OnPlace::OfClass {
                slot,
                checked,
                args,
            } => {
                let call = Callable::OfClass { at, slot, checked };
                self.argue(run, work, args, Vec::new(alloc), call)
            }
            OnPlace::Through { args } => {
                self.argue(run, work, args, Vec::new(alloc), Callable::Held { at })
            }
            OnPlace::Argument { rest, front, call } => {
                self.argue_on(run, work, rest, front, Operand::Named(at), call)
            }
            OnPlace::AssignTo { value } => work.evaluate(value, OnValue::Assign { at }),
            OnPlace::CopyTo { from } => work.locate(from, OnPlace::CopyFrom { to: at }),
            OnPlace::CopyFrom { to } => done(self.steps.copy(run, &to, &at.spot)),
            OnPlace::With { body } => work.hold(at, body),
            OnPlace::Read { item, rest, line } => self.read_item(run, work, item, rest, line, &at),
        }
    }

    /// The end of a statement goes to the frame that waits for it.
    pub fn give_flow(
        &self,
        run: &mut Run,
        work: &mut Work<'a>,
        frame: OnFlow<'a>,
        flow: Flow,
    ) -> Result<Next<'a>, Over>
        ensures { let p = program_of self.now.steps in Goes p result work.new (view_run run.new) (resumed_flow p (rest_of p work.old) frame.entry (view_flow flow) (view_activation work.old.f) (view_run run.old)) }
    {
        match frame {
            OnFlow::Block { rest } => follow_statement(work, rest, flow),
            OnFlow::While { condition, body } => follow_while(work, condition, body, flow),
            OnFlow::Repeat { body, condition } => follow_repeat(work, body, condition, flow),
            OnFlow::Turn { counting, last } => self.follow_for(run, work, counting, last, flow),
            OnFlow::With => {
                work.release();
                Ok(Next::Flow(flow))
            }
            OnFlow::Return(back) => self.return_from(run, work, back),
        }
    }
}
