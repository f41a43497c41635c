//! The steps of a run, one after another.

ghost use Rattle.typed_tree.specs.declared.units.Program.{Program};
ghost use Rattle.tp_meaning.specs.Trees.{Value as PureValue};
ghost use Rattle.tp_meaning.specs.Outcomes.{State, Outcome};
ghost use Rattle.interpreter_store.specs.cell_store.Views.{view_value};
ghost use Rattle.interpreter_store.specs.typed_cells.Sorts.{view_reached};
ghost use Rattle.interpreter_effects.specs.activations.Views.{view_activation};
ghost use Rattle.interpreter_steps.specs.Running.{view_run, view_flow, program_of, Comes};
ghost use Rattle.interpreter_steps.specs.declared.interpreter_frames.work.Work.{Work as WorkOf};
ghost use Rattle.interpreter_steps.specs.interpreter_frames.Frames.{rest_of, framed, next_of, Steps, Goes};

use interpreter_steps::interpreter_frames::{Frame, Next, Step, Work};
use interpreter_steps::{Flow, Interpreter, Over, Run};
use interpreter_store::cell_store::Value;
use interpreter_store::typed_cells::Reached;

/// A program that is run by its frames.
#[derive(Clone, Copy)]
pub struct Machine<'a> {
    pub steps: Interpreter<'a>,
}

fn going<'a>(answer: Result<Next<'a>, Over>) -> Result<Step<'a>, Over>
    ensures { (p : Program) (work : WorkOf) (s : State) (o : Outcome PureValue) → Goes p answer.entry work s o → Steps p result work s o }
{
    match answer {
        Ok(one) => Ok(Step::Goes(one)),
        Err(over) => Err(over),
    }
}

impl<'a> Machine<'a> {
    fn value_to(
        &self,
        run: &mut Run,
        work: &mut Work<'a>,
        frame: Frame<'a>,
        value: Value,
    ) -> Result<Step<'a>, Over>
        ensures { let p = program_of self.now.steps in Steps p result work.new (view_run run.new) ((framed p (rest_of p work.old) frame.entry).value (view_value value) (view_activation work.old.f) (view_run run.old)) }
    {
        match frame {
            Frame::Value(one) => going(self.give_value(run, work, one, value)),
            Frame::Place(_) => Err(Over::Stuck),
            Frame::Flow(_) => Err(Over::Stuck),
        }
    }

    fn value_step(&self, run: &mut Run, work: &mut Work<'a>, value: Value) -> Result<Step<'a>, Over>
        ensures { let p = program_of self.now.steps in Steps p result work.new (view_run run.new) ((rest_of p work.old).value (view_value value) (view_activation work.old.f) (view_run run.old)) }
    {
        match work.pop() {
            None => Ok(Step::Gave(value)),
            Some(frame) => self.value_to(run, work, frame, value),
        }
    }

    fn place_to(
        &self,
        run: &mut Run,
        work: &mut Work<'a>,
        frame: Frame<'a>,
        at: Reached<'a>,
    ) -> Result<Step<'a>, Over>
        ensures { let p = program_of self.now.steps in Steps p result work.new (view_run run.new) ((framed p (rest_of p work.old) frame.entry).place (view_reached at.entry) (view_activation work.old.f) (view_run run.old)) }
    {
        match frame {
            Frame::Place(one) => going(self.give_place(run, work, one, at)),
            Frame::Value(_) => Err(Over::Stuck),
            Frame::Flow(_) => Err(Over::Stuck),
        }
    }

    fn place_step(
        &self,
        run: &mut Run,
        work: &mut Work<'a>,
        at: Reached<'a>,
    ) -> Result<Step<'a>, Over>
        ensures { let p = program_of self.now.steps in Steps p result work.new (view_run run.new) ((rest_of p work.old).place (view_reached at.entry) (view_activation work.old.f) (view_run run.old)) }
    {
        match work.pop() {
            None => Err(Over::Stuck),
            Some(frame) => self.place_to(run, work, frame, at),
        }
    }

    fn flow_to(
        &self,
        run: &mut Run,
        work: &mut Work<'a>,
        frame: Frame<'a>,
        flow: Flow,
    ) -> Result<Step<'a>, Over>
        ensures { let p = program_of self.now.steps in Steps p result work.new (view_run run.new) ((framed p (rest_of p work.old) frame.entry).flow (view_flow flow) (view_activation work.old.f) (view_run run.old)) }
    {
        match frame {
            Frame::Flow(one) => going(self.give_flow(run, work, one, flow)),
            Frame::Value(_) => Err(Over::Stuck),
            Frame::Place(_) => Err(Over::Stuck),
        }
    }

    fn flow_step(&self, run: &mut Run, work: &mut Work<'a>, flow: Flow) -> Result<Step<'a>, Over>
        ensures { let p = program_of self.now.steps in Steps p result work.new (view_run run.new) ((rest_of p work.old).flow (view_flow flow) (view_activation work.old.f) (view_run run.old)) }
    {
        match work.pop() {
            None => Err(Over::Stuck),
            Some(frame) => self.flow_to(run, work, frame, flow),
        }
    }

    fn step(&self, run: &mut Run, work: &mut Work<'a>, next: Next<'a>) -> Result<Step<'a>, Over>
        ensures { let p = program_of self.now.steps in Steps p result work.new (view_run run.new) (next_of p (rest_of p work.old) (view_activation work.old.f) next.entry (view_run run.old)) }
    {
        match next {
            Next::Evaluate(e) => going(self.evaluate(run, work, e)),
            Next::Locate(e) => going(self.locate(run, work, e)),
            Next::Execute(one) => going(self.execute(run, work, one)),
            Next::Value(value) => self.value_step(run, work, value),
            Next::Place(at) => self.place_step(run, work, at),
            Next::Flow(flow) => self.flow_step(run, work, flow),
        }
    }

    /// Goes on until the run gives a value or is over. A run of 2^64 steps is answered as out of memory.
    pub fn finish(&self, run: &mut Run, work: Work<'a>, next: Next<'a>) -> Result<Value, Over>
        ensures { let p = program_of self.now.steps in Comes view_value result (view_run run.new) (next_of p (rest_of p work.entry) (view_activation work.entry.f) next.entry (view_run run.old)) }
    {
        let mut work = work;
        let mut next = next;
        'steps: for _ in 0..u64::MAX {
            match self.step(run, &mut work, next)? {
                Step::Goes(one) => next = one,
                Step::Gave(value) => return Ok(value),
            }
        }
        Err(Over::OutOfMemory)
    }
}
