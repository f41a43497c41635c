//! What is left to do of a run.

ghost use Rattle.std.specs.Prelude.{◌≡◌, ◌++◌, ◌∷◌, [], OnOk, IfErr};
ghost use Rattle.typed_tree.specs.declared.units.Program.{Program};
ghost use Rattle.typed_tree.specs.Expressions.{view_expr, view_place};
ghost use Rattle.typed_tree.specs.Statements.{view_stmt};
ghost use Rattle.tp_meaning.specs.Outcomes.{State, and_then};
ghost use Rattle.tp_meaning.specs.Expressions.{value, place};
ghost use Rattle.tp_meaning.specs.Statements.{statement, with_held};
ghost use Rattle.tp_meaning.specs.Meaning.{run};
ghost use Rattle.interpreter_store.specs.typed_cells.Sorts.{view_reached};
ghost use Rattle.interpreter_effects.specs.activations.Views.{view_activation, view_callee};
ghost use Rattle.interpreter_steps.specs.Entering.{ended};
ghost use Rattle.interpreter_steps.specs.interpreter_frames.Frames.{rest_of, with_value, framed, released, popped, resumed_value, resumed_place, resumed_flow, Goes};

use crate::Over;
use crate::interpreter_frames::frames::{Frame, Next, OnFlow, OnPlace, OnValue, Return};
use interpreter_effects::activations::{Activation, Callee};
use interpreter_store::typed_cells::Reached;
use std::alloc::Global;
use std::mem;
use typed_tree::{Expr, PlaceExpr, Stmt};

/// The activation that runs, and the frames that wait for what runs in it, the next one last.
#[derive(Drop)]
pub struct Work<'a> {
    pub f: Activation<'a>,
    pub frames: Vec<Frame<'a>>,
}

// The place of a `with` is held.
fn hold_place<'a>(f: &mut Activation<'a>, at: Reached<'a>) -> Result<(), Over>
    ensures ok { OnOk result (view_activation f.new ≡ with_held (view_activation f.old) (view_reached at.entry)) }
    ensures err { IfErr result (λ over. over ≡ Over.OutOfMemory) }
{
    f.withs.push(at)?;
    Ok(())
}

impl<'a> Work<'a> {
    fn push(&mut self, frame: Frame<'a>) -> Result<(), Over>
        ensures frames { OnOk result (self.new.frames.items ≡ self.old.frames.items ++ frame.entry ∷ []) }
        ensures activation { self.new.f ≡ self.old.f }
        ensures err { IfErr result (λ over. over ≡ Over.OutOfMemory) }
    {
        self.frames.push(frame)?;
        Ok(())
    }

    /// An expression comes next, and its value goes to a frame.
    pub fn evaluate(&mut self, e: &'a Expr, frame: OnValue<'a>) -> Result<Next<'a>, Over>
        ensures { (p : Program) (s : State) → let f = view_activation self.old.f in Goes p result self.new s (and_then (value p (run p) f (view_expr e.now) s) (λ v. resumed_value p (rest_of p self.old) frame.entry v f)) }
    {
        self.push(Frame::Value(frame))?;
        Ok(Next::Evaluate(e))
    }

    /// A place comes next, and goes to a frame.
    pub fn locate(&mut self, e: &'a PlaceExpr, frame: OnPlace<'a>) -> Result<Next<'a>, Over>
        ensures { (p : Program) (s : State) → let f = view_activation self.old.f in Goes p result self.new s (and_then (place p (run p) f (view_place e.now) s) (λ at. resumed_place p (rest_of p self.old) frame.entry at f)) }
    {
        self.push(Frame::Place(frame))?;
        Ok(Next::Locate(e))
    }

    /// A statement comes next, and a frame waits for its end.
    pub fn execute(&mut self, one: &'a Stmt, frame: OnFlow<'a>) -> Result<Next<'a>, Over>
        ensures { (p : Program) (s : State) → let f = view_activation self.old.f in Goes p result self.new s (and_then (statement p (run p) f (view_stmt one.now) s) (λ flow. resumed_flow p (rest_of p self.old) frame.entry flow f)) }
    {
        self.push(Frame::Flow(frame))?;
        Ok(Next::Execute(one))
    }

    /// A frame waits for the value of a call.
    pub fn expect(&mut self, frame: OnValue<'a>) -> Result<(), Over>
        ensures rest { (p : Program) → OnOk result (rest_of p self.new ≡ framed p (rest_of p self.old) (Frame.Value frame.entry)) }
        ensures activation { self.new.f ≡ self.old.f }
        ensures err { IfErr result (λ over. over ≡ Over.OutOfMemory) }
    {
        self.push(Frame::Value(frame))?;
        Ok(())
    }

    /// The body of a routine comes next, in an activation of its own.
    pub fn enter(
        &mut self,
        alloc: Global,
        g: Activation<'a>,
        callee: Callee<'a>,
        first: usize,
    ) -> Result<Next<'a>, Over>
        ensures { (p : Program) (s : State) → Goes p result self.new s (and_then (statement p (run p) (view_activation g.entry) (view_stmt callee.entry.routine.now.body) s) (λ flow. with_value (rest_of p self.old) (view_activation self.old.f) (ended (view_callee callee.entry) first))) }
    {
        let caller = mem::replace(&mut self.f, g);
        let back = Box::new(
            alloc,
            Return {
                callee,
                first,
                caller,
            },
        )?;
        self.push(Frame::Flow(OnFlow::Return(back)))?;
        Ok(Next::Execute(&callee.routine.body))
    }

    /// A statement comes next, inside a `with` over a place.
    pub fn hold(&mut self, at: Reached<'a>, body: &'a Stmt) -> Result<Next<'a>, Over>
        ensures { (p : Program) (s : State) → let f = view_activation self.old.f in Goes p result self.new s (and_then (statement p (run p) (with_held f (view_reached at.entry)) (view_stmt body.now) s) (λ flow. (rest_of p self.old).flow flow f)) }
    {
        hold_place(&mut self.f, at)?;
        self.push(Frame::Flow(OnFlow::With))?;
        Ok(Next::Execute(body))
    }

    /// The innermost `with` ends.
    pub fn release(&mut self)
        ensures frames { self.new.frames ≡ self.old.frames }
        ensures activation { view_activation self.new.f ≡ released (view_activation self.old.f) }
    {
        let _held = self.f.withs.pop();
    }

    /// Takes the frame that is next.
    pub fn pop(&mut self) -> Option<Frame<'a>>
        ensures rest { (p : Program) → rest_of p self.old ≡ popped p (rest_of p self.new) result }
        ensures activation { self.new.f ≡ self.old.f }
    {
        self.frames.pop()
    }
}
