//! What a step gives goes on.

ghost use Rattle.typed_tree.specs.declared.units.Program.{Program};
ghost use Rattle.tp_meaning.specs.Trees.{Value as PureValue};
ghost use Rattle.tp_meaning.specs.Outcomes.{State, Outcome, and_then};
ghost use Rattle.tp_meaning.specs.Activations.{Reached as PureReached};
ghost use Rattle.tp_meaning.specs.Calls.{Flow as PureFlow, Next as PureNext};
ghost use Rattle.interpreter_store.specs.cell_store.Views.{view_value};
ghost use Rattle.interpreter_store.specs.typed_cells.Sorts.{view_reached};
ghost use Rattle.interpreter_effects.specs.activations.Views.{view_activation};
ghost use Rattle.interpreter_steps.specs.Running.{view_flow, Comes};
ghost use Rattle.interpreter_steps.specs.declared.interpreter_frames.work.Work.{Work};
ghost use Rattle.interpreter_steps.specs.interpreter_frames.Frames.{rest_of, Goes};

use crate::interpreter_frames::frames::Next;
use crate::{Flow, Over};
use interpreter_store::cell_store::Value;
use interpreter_store::typed_cells::Reached;

/// A value goes to the frame that waits for it.
pub fn gave_value<'a>(answer: Result<Value, Over>) -> Result<Next<'a>, Over>
    ensures { (p : Program) (work : Work) (s : State) (o : Outcome PureValue) → Comes view_value answer s o → Goes p result work s (and_then o (λ v. (rest_of p work).value v (view_activation work.f))) }
{
    match answer {
        Ok(value) => Ok(Next::Value(value)),
        Err(over) => Err(over),
    }
}

/// A place goes to the frame that waits for it.
pub fn gave_place<'a>(answer: Result<Reached<'a>, Over>) -> Result<Next<'a>, Over>
    ensures { (p : Program) (work : Work) (s : State) (o : Outcome PureReached) → Comes view_reached answer.entry s o → Goes p result work s (and_then o (λ at. (rest_of p work).place at (view_activation work.f))) }
{
    match answer {
        Ok(at) => Ok(Next::Place(at)),
        Err(over) => Err(over),
    }
}

/// The end of a statement goes to the frame that waits for it.
pub fn gave_flow<'a>(answer: Result<Flow, Over>) -> Result<Next<'a>, Over>
    ensures { (p : Program) (work : Work) (s : State) (o : Outcome PureFlow) → Comes view_flow answer s o → Goes p result work s (and_then o (λ flow. (rest_of p work).flow flow (view_activation work.f))) }
{
    match answer {
        Ok(flow) => Ok(Next::Flow(flow)),
        Err(over) => Err(over),
    }
}

/// The next statement follows.
pub fn done<'a>(answer: Result<(), Over>) -> Result<Next<'a>, Over>
    ensures { (p : Program) (work : Work) (s : State) (o : Outcome (Unit {0})) → Comes (λ done. done) answer s o → Goes p result work s (and_then o (λ done. (rest_of p work).flow PureNext (view_activation work.f))) }
{
    match answer {
        Ok(()) => Ok(Next::Flow(Flow::Next)),
        Err(over) => Err(over),
    }
}
