//! Expressions and places begin.

ghost use Rattle.type_layout.specs.declared.definitions.TypeId.{TypeId as TypeOf};
ghost use Rattle.std.specs.Prelude.{◌≡◌, Option};
ghost use Rattle.std.specs.Option.{option_map, option_copied};
ghost use Rattle.typed_tree.specs.declared.units.Program.{Program};
ghost use Rattle.typed_tree.specs.Expressions.{Call, Std, Make, NoArguments, view_expr, view_place, view_receiver, view_element, view_elements, view_arg, view_args};
ghost use Rattle.typed_tree.specs.Standard as routine;
ghost use Rattle.tp_meaning.specs.Trees.{Value as PureValue};
ghost use Rattle.tp_meaning.specs.Outcomes.{State, Does};
ghost use Rattle.tp_meaning.specs.Activations.{Activation as PureActivation};
ghost use Rattle.tp_meaning.specs.Calls.{Runs};
ghost use Rattle.tp_meaning.specs.Expressions.{value, measured, place, elements};
ghost use Rattle.tp_meaning.specs.Meaning.{run as runs};
ghost use Rattle.interpreter_store.specs.cell_store.Views.{view_value};
ghost use Rattle.interpreter_steps.specs.Running.{view_run, program_of};
ghost use Rattle.interpreter_steps.specs.interpreter_frames.Frames.{then_value, then_place, operated, measured_at, Goes};

use crate::machine::Machine;
use interpreter_steps::interpreter_frames::{
    Callable, Next, OnPlace, OnValue, Work, gave_place, gave_value,
};
use interpreter_steps::{Instance, Over, Run, constant_value, routine_value};
use interpreter_store::cell_store::Value;
use interpreter_store::value_operators::decided;
use type_layout::{Bytes, RoutineId, TypeId};
use typed_tree::standard::LENGTH;
use typed_tree::{Arg, BinaryOp, Expr, PlaceExpr, SetElement};

// An element or a span comes next, and then the others that are listed.
fn list_element<'a>(
    work: &mut Work<'a>,
    first: &'a SetElement,
    rest: &'a [SetElement],
    set: Vec<u8>,
) -> Result<Next<'a>, Over>
    ensures { (p : Program) (s : State) → Goes p result work.new s (then_value p work.old (λ f. elements p (runs p) f (view_element first.now (view_elements rest.now)) set.items) s) }
{
    match first {
        SetElement::One(one) => work.evaluate(one, OnValue::Element { rest, set }),
        SetElement::Span(low, high) => work.evaluate(
            low,
            OnValue::First {
                last: high,
                rest,
                set,
            },
        ),
    }
}

/// The set that holds the elements before, and those that are listed.
pub fn list_elements<'a>(
    work: &mut Work<'a>,
    listed: &'a [SetElement],
    set: Vec<u8>,
) -> Result<Next<'a>, Over>
    ensures { (p : Program) (s : State) → Goes p result work.new s (then_value p work.old (λ f. elements p (runs p) f (view_elements listed.now) set.items) s) }
{
    match listed {
        [] => Ok(Next::Value(Value::Elements(Bytes::from_vec(set)))),
        [first, rest @ ..] => list_element(work, first, rest, set),
    }
}

/// The right side comes next, unless the left one decides.
pub fn operate<'a>(
    work: &mut Work<'a>,
    ty: TypeId,
    op: BinaryOp,
    left: Value,
    right: &'a Expr,
    early: bool,
) -> Result<Next<'a>, Over>
    ensures { (p : Program) (s : State) → Goes p result work.new s (then_value p work.old (λ f. operated p f ty op (view_value left) (view_expr right.now) early) s) }
{
    match decided(op, early, &left) {
        Some(value) => Ok(Next::Value(value)),
        None => work.evaluate(right, OnValue::Right { ty, op, left }),
    }
}

// The variable that an argument loads.
fn loaded_from<'a>(one: &'a Arg) -> Option<&'a PlaceExpr>
    ensures { (p : Program) (again : Runs) (f : PureActivation) (other : Does PureValue) → measured p again f routine.length (view_arg one.now NoArguments) other ≡ measured_at p again f (option_map view_place (option_copied result)) other }
{
    match one {
        Arg::Value(e) => match e {
            Expr::Load { place, .. } => Some(place),
            _ => None,
        },
        Arg::Place(_) => None,
    }
}

// The variable of which Length is asked for.
fn variable_measured<'a>(number: u32, args: &'a [Arg]) -> Option<&'a PlaceExpr>
    ensures { (p : Program) (again : Runs) (f : PureActivation) (other : Does PureValue) → measured p again f number (view_args args.now) other ≡ measured_at p again f (option_map view_place (option_copied result)) other }
{
    match args {
        [] => None,
        [one] => {
            if number == LENGTH {
                loaded_from(one)
            } else {
                None
            }
        }
        [_, _, ..] => None,
    }
}

impl<'a> Machine<'a> {
    // Length of a variable reads its length alone. Of any other standard routine the arguments come next.
    fn perform(
        &self,
        run: &mut Run,
        work: &mut Work<'a>,
        ty: Option<TypeId>,
        number: u32,
        args: &'a [Arg],
    ) -> Result<Next<'a>, Over>
        ensures { let p = program_of self.now.steps in Goes p result work.new (view_run run.new) (then_value p work.old (λ f. value p (runs p) f (Std ty number (view_args args.now))) (view_run run.old)) }
    {
        match variable_measured(number, args) {
            Some(place) => work.locate(place, OnPlace::Length),
            None => {
                let call = Callable::Standard { ty, number };
                self.argue(run, work, args, Vec::new(self.steps.alloc), call)
            }
        }
    }

    fn call(
        &self,
        run: &mut Run,
        work: &mut Work<'a>,
        routine: RoutineId,
        own: &'a Option<Box<PlaceExpr>>,
        args: &'a [Arg],
    ) -> Result<Next<'a>, Over>
        ensures { (ty : Option TypeOf) → let p = program_of self.now.steps in Goes p result work.new (view_run run.new) (then_value p work.old (λ f. value p (runs p) f (Call ty routine (view_receiver own.now) (view_args args.now))) (view_run run.old)) }
    {
        match own {
            None => {
                let instance = Instance {
                    own: None,
                    class: None,
                };
                let call = Callable::Named { routine, instance };
                self.argue(run, work, args, Vec::new(self.steps.alloc), call)
            }
            Some(own) => work.locate(own, OnPlace::Own { routine, own, args }),
        }
    }

    fn make(
        &self,
        run: &mut Run,
        work: &mut Work<'a>,
        ty: TypeId,
        routine: RoutineId,
        args: &'a [Arg],
    ) -> Result<Next<'a>, Over>
        ensures { let p = program_of self.now.steps in Goes p result work.new (view_run run.new) (then_value p work.old (λ f. value p (runs p) f (Make ty routine (view_args args.now))) (view_run run.old)) }
    {
        let (serial, sort) = self.steps.block_for(run, &work.f, ty)?;
        let call = Callable::Constructor {
            routine,
            serial,
            sort,
        };
        self.argue(run, work, args, Vec::new(self.steps.alloc), call)
    }

    /// An expression begins.
    pub fn evaluate(
        &self,
        run: &mut Run,
        work: &mut Work<'a>,
        e: &'a Expr,
    ) -> Result<Next<'a>, Over>
        ensures { let p = program_of self.now.steps in Goes p result work.new (view_run run.new) (then_value p work.old (λ f. value p (runs p) f (view_expr e.now)) (view_run run.old)) }
    {
        let alloc = self.steps.alloc;
        match e {
            Expr::Const { value, .. } => Ok(Next::Value(constant_value(alloc, value)?)),
            Expr::RoutineValue { routine, .. } => gave_value(routine_value(&work.f, *routine)),
            Expr::Load { place, .. } => work.locate(place, OnPlace::Load),
            Expr::Unary { ty, op, operand } => {
                work.evaluate(operand, OnValue::Unary { ty: *ty, op: *op })
            }
            Expr::Binary {
                ty,
                op,
                left,
                right,
                early,
            } => work.evaluate(
                left,
                OnValue::Left {
                    ty: *ty,
                    op: *op,
                    right,
                    early: *early,
                },
            ),
            Expr::Convert { ty, operand } => work.evaluate(operand, OnValue::Convert { ty: *ty }),
            Expr::Range {
                operand,
                low,
                high,
                ..
            } => work.evaluate(
                operand,
                OnValue::Range {
                    low: *low,
                    high: *high,
                },
            ),
            Expr::SetOf { elements, .. } => {
                list_elements(work, elements.as_slice(), Vec::new(alloc))
            }
            Expr::Call {
                routine,
                own,
                args,
                ..
            } => self.call(run, work, *routine, own, args.as_slice()),
            Expr::CallVirtual {
                own,
                slot,
                checked,
                args,
                ..
            } => work.locate(
                own,
                OnPlace::OfClass {
                    slot: *slot,
                    checked: *checked,
                    args: args.as_slice(),
                },
            ),
            Expr::CallThrough { place, args, .. } => work.locate(
                place,
                OnPlace::Through {
                    args: args.as_slice(),
                },
            ),
            Expr::Std { ty, number, args } => {
                self.perform(run, work, *ty, *number, args.as_slice())
            }
            Expr::Make { ty, routine, args } => {
                self.make(run, work, *ty, *routine, args.as_slice())
            }
        }
    }

    /// A place begins.
    pub fn locate(&self, run: &Run, work: &mut Work<'a>, e: &'a PlaceExpr) -> Result<Next<'a>, Over>
        ensures { let p = program_of self.now.steps in Goes p result work.new (view_run run.now) (then_place p work.old (λ f. place p (runs p) f (view_place e.now)) (view_run run.now)) }
    {
        match e {
            PlaceExpr::Var(variable) => gave_place(self.steps.variable(run, &work.f, *variable)),
            PlaceExpr::Deref { pointer } => work.evaluate(pointer, OnValue::Deref { pointer }),
            PlaceExpr::Index {
                place,
                index,
                checked,
            } => work.locate(
                place,
                OnPlace::Indexed {
                    index,
                    checked: *checked,
                },
            ),
            PlaceExpr::FieldOf { place, number } => {
                work.locate(place, OnPlace::Field { number: *number })
            }
        }
    }
}
