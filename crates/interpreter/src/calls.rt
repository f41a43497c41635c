//! Calls, once their arguments are known.

ghost use Rattle.std.specs.Prelude.{map};
ghost use Rattle.typed_tree.specs.Expressions.{view_expr};
ghost use Rattle.tp_meaning.specs.Expressions.{called_by_class, called_through};
ghost use Rattle.tp_meaning.specs.Statements.{freed, unmade_at};
ghost use Rattle.tp_meaning.specs.Meaning.{run as runs};
ghost use Rattle.interpreter_store.specs.cell_store.Views.{view_value};
ghost use Rattle.interpreter_store.specs.typed_cells.Sorts.{view_sort, view_reached};
ghost use Rattle.interpreter_effects.specs.activations.Views.{view_activation};
ghost use Rattle.interpreter_effects.specs.standard_effects.Operands.{view_operand};
ghost use Rattle.interpreter_steps.specs.Running.{view_run, view_instance, program_of};
ghost use Rattle.interpreter_steps.specs.interpreter_frames.Frames.{rest_of, then_value, then_flow, called_named, constructed, on_operands, Goes};

use crate::machine::Machine;
use interpreter_effects::standard_effects::Operand;
use interpreter_steps::interpreter_frames::{Callable, Next, OnValue, Work, gave_value};
use interpreter_steps::{Instance, Over, Run, all_handed, held_routine, named, new_instance};
use interpreter_store::cell_store::Value;
use interpreter_store::typed_cells::{Reached, Sort};
use type_layout::RoutineId;
use typed_tree::{Destructor, Expr};

impl<'a> Machine<'a> {
    // Calls a routine by its name.
    fn call_named(
        &self,
        run: &mut Run,
        work: &mut Work<'a>,
        routine: RoutineId,
        instance: Instance,
        args: Vec<Operand>,
    ) -> Result<Next<'a>, Over>
        ensures { let p = program_of self.now.steps in Goes p result work.new (view_run run.new) (then_value p work.old (λ f. called_named p f routine (view_instance instance) (map view_operand args.entry.items)) (view_run run.old)) }
    {
        let key = named(&work.f, routine)?;
        self.called(run, work, &key, instance, args)
    }

    // Calls the method that the class of an instance has.
    fn call_of_class(
        &self,
        run: &mut Run,
        work: &mut Work<'a>,
        at: &Reached,
        slot: u32,
        checked: bool,
        args: Vec<Operand>,
    ) -> Result<Next<'a>, Over>
        ensures { let p = program_of self.now.steps in Goes p result work.new (view_run run.new) (then_value p work.old (λ f. called_by_class p (runs p) f (view_reached at.now) slot checked (map view_operand args.entry.items)) (view_run run.old)) }
    {
        run.spend()?;
        let key = self.steps.method_of(run, at, slot, checked)?;
        let values = all_handed(self.steps.alloc, args)?;
        self.enter(run, work, &key, Some(&at.spot), None, values.as_slice())
    }

    // Calls the routine that a variable holds.
    fn call_held(
        &self,
        run: &mut Run,
        work: &mut Work<'a>,
        at: &Reached,
        args: Vec<Operand>,
    ) -> Result<Next<'a>, Over>
        ensures { let p = program_of self.now.steps in Goes p result work.new (view_run run.new) (then_value p work.old (λ f. called_through p (runs p) f (view_reached at.now) (map view_operand args.entry.items)) (view_run run.old)) }
    {
        run.spend()?;
        let key = held_routine(run, at)?;
        let values = all_handed(self.steps.alloc, args)?;
        self.enter(run, work, &key, None, None, values.as_slice())
    }

    // Calls the constructor of a new block, to which a pointer is then given.
    fn construct(
        &self,
        run: &mut Run,
        work: &mut Work<'a>,
        routine: RoutineId,
        serial: usize,
        sort: &Sort,
        args: Vec<Operand>,
    ) -> Result<Next<'a>, Over>
        ensures { let p = program_of self.now.steps in Goes p result work.new (view_run run.new) (then_value p work.old (λ f. constructed p f routine serial (view_sort sort.now) (map view_operand args.entry.items)) (view_run run.old)) }
    {
        let key = named(&work.f, routine)?;
        let instance = new_instance(self.steps.alloc, serial, sort)?;
        work.expect(OnValue::Made { serial })?;
        self.called(run, work, &key, instance, args)
    }

    // Calls the destructor of a block, which is then freed.
    fn destroy_at(
        &self,
        run: &mut Run,
        work: &mut Work<'a>,
        at: Reached<'a>,
        destructor: Destructor,
        args: Vec<Operand>,
    ) -> Result<Next<'a>, Over>
        ensures { let p = program_of self.now.steps in let of = view_reached at.entry in Goes p result work.new (view_run run.new) (then_flow p work.old (λ f. freed p (runs p) f destructor (map view_operand args.entry.items) of.spot.object of) (view_run run.old)) }
    {
        run.spend()?;
        let key = self.steps.destructor_of(run, &work.f, &at, destructor)?;
        let values = all_handed(self.steps.alloc, args)?;
        let own = at.spot.copied(self.steps.alloc)?;
        work.expect(OnValue::Freed { at })?;
        self.enter(run, work, &key, Some(&own), None, values.as_slice())
    }

    // Calls the destructor of the block to which a pointer leads, which is then freed.
    fn destroy(
        &self,
        run: &mut Run,
        work: &mut Work<'a>,
        pointer: &'a Box<Expr>,
        block: &Value,
        destructor: Destructor,
        args: Vec<Operand>,
    ) -> Result<Next<'a>, Over>
        ensures { let p = program_of self.now.steps in Goes p result work.new (view_run run.new) (then_flow p work.old (λ f. unmade_at p (runs p) f (view_expr pointer.now.value) destructor (map view_operand args.entry.items) (view_value block.now)) (view_run run.old)) }
    {
        let at = self.steps.follow(run, &work.f, pointer, block)?;
        self.destroy_at(run, work, at, destructor, args)
    }

    /// Calls what is called, with its arguments.
    pub fn apply(
        &self,
        run: &mut Run,
        work: &mut Work<'a>,
        call: Callable<'a>,
        args: Vec<Operand<'a>>,
    ) -> Result<Next<'a>, Over>
        ensures { let p = program_of self.now.steps in Goes p result work.new (view_run run.new) (on_operands p (rest_of p work.old) call.entry (map view_operand args.entry.items) (view_activation work.old.f) (view_run run.old)) }
    {
        match call {
            Callable::Named { routine, instance } => {
                self.call_named(run, work, routine, instance, args)
            }
            Callable::OfClass { at, slot, checked } => {
                self.call_of_class(run, work, &at, slot, checked, args)
            }
            Callable::Held { at } => self.call_held(run, work, &at, args),
            Callable::Standard { ty, number } => {
                gave_value(
                    self.steps
                        .standard_value(run, &work.f, ty, number, args.as_slice()),
                )
            }
            Callable::Constructor {
                routine,
                serial,
                sort,
            } => self.construct(run, work, routine, serial, &sort, args),
            Callable::Destructor {
                pointer,
                block,
                destructor,
            } => self.destroy(run, work, pointer, &block, destructor, args),
        }
    }
}
