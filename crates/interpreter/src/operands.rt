//! Arguments of calls, from left to right.

ghost use Rattle.std.specs.Prelude.{map};
ghost use Rattle.typed_tree.specs.Expressions.{view_arg, view_args};
ghost use Rattle.tp_meaning.specs.Expressions.{operands};
ghost use Rattle.tp_meaning.specs.Meaning.{run as runs};
ghost use Rattle.interpreter_effects.specs.activations.Views.{view_activation};
ghost use Rattle.interpreter_effects.specs.standard_effects.Operands.{view_operand};
ghost use Rattle.interpreter_steps.specs.Running.{view_run, program_of};
ghost use Rattle.interpreter_steps.specs.interpreter_frames.Frames.{rest_of, on_arguments, arguments_behind, Goes};

use crate::machine::Machine;
use interpreter_effects::standard_effects::Operand;
use interpreter_steps::interpreter_frames::{Callable, Next, OnPlace, OnValue, Work};
use interpreter_steps::{Over, Run, operand_behind, sort_of};
use typed_tree::Arg;

impl<'a> Machine<'a> {
    // An argument comes next, and then those behind it.
    fn argue_first(
        &self,
        run: &Run,
        work: &mut Work<'a>,
        first: &'a Arg,
        rest: &'a [Arg],
        front: Vec<Operand<'a>>,
        call: Callable<'a>,
    ) -> Result<Next<'a>, Over>
        ensures { let p = program_of self.now.steps in let f = view_activation work.old.f in Goes p result work.new (view_run run.now) (on_arguments p (rest_of p work.old) call.entry (map view_operand front.entry.items) f (operands p (runs p) f (view_arg first.now (view_args rest.now))) (view_run run.now)) }
    {
        match first {
            Arg::Value(one) => {
                let sort = sort_of(&work.f, one)?;
                work.evaluate(
                    one,
                    OnValue::Argument {
                        sort,
                        rest,
                        front,
                        call,
                    },
                )
            }
            Arg::Place(one) => work.locate(one, OnPlace::Argument { rest, front, call }),
        }
    }

    /// The arguments that are left come next, and then the call.
    pub fn argue(
        &self,
        run: &mut Run,
        work: &mut Work<'a>,
        rest: &'a [Arg],
        front: Vec<Operand<'a>>,
        call: Callable<'a>,
    ) -> Result<Next<'a>, Over>
        ensures { let p = program_of self.now.steps in let f = view_activation work.old.f in Goes p result work.new (view_run run.new) (on_arguments p (rest_of p work.old) call.entry (map view_operand front.entry.items) f (operands p (runs p) f (view_args rest.now)) (view_run run.old)) }
    {
        match rest {
            [] => self.apply(run, work, call, front),
            [first, rest @ ..] => self.argue_first(run, work, first, rest, front, call),
        }
    }

    /// An argument is known, and those that are left come next.
    pub fn argue_on(
        &self,
        run: &mut Run,
        work: &mut Work<'a>,
        rest: &'a [Arg],
        front: Vec<Operand<'a>>,
        one: Operand<'a>,
        call: Callable<'a>,
    ) -> Result<Next<'a>, Over>
        ensures { let p = program_of self.now.steps in let f = view_activation work.old.f in Goes p result work.new (view_run run.new) (on_arguments p (rest_of p work.old) call.entry (map view_operand front.entry.items) f (arguments_behind p f (view_operand one.entry) (view_args rest.now)) (view_run run.old)) }
    {
        let front = operand_behind(front, one)?;
        self.argue(run, work, rest, front, call)
    }
}
