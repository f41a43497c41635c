//! The laws of calls by far pointers, each the contract of a function that does nothing.

ghost use Rattle.std.specs.Prelude.{◌≡◌, ℕ, ◌+◌, ◌*◌, ◌≤◌, suc, IsTrue, List, length, Option, Some};
ghost use Rattle.flat_code.specs.declared.memory.Place.{Place};
ghost use Rattle.flat_code.specs.declared.tree.Address.{Address};
ghost use Rattle.flat_code.specs.declared.tree.FlatResult.{FlatResult};
ghost use Rattle.flat_code.specs.Legal.{exprs_depth, HasResultSize};
ghost use Rattle.flat_code.specs.Program.{Key};
ghost use Rattle.flat_code.specs.Tree.{Expr, CallThrough};
ghost use Rattle.effect_simulation.specs.effects.Pushed.{AllHaveWords};
ghost use Rattle.code_templates.specs.code_lines.Expressions.{args_code};
ghost use Rattle.code_templates.specs.code_lines.Lines.{call_far, taken};
ghost use Rattle.code_templates.specs.code_lines.Operands.{loads};
ghost use Rattle.statement_simulation.specs.flow.Sites.{World, Site, Live, Fits};
ghost use Rattle.statement_simulation.specs.flow.Outcomes.{EndsErrors};
ghost use Rattle.statement_simulation.specs.flow.Lists.{StepFlows};
ghost use Rattle.call_simulation.specs.frames.Chain.{IsChained};
ghost use Rattle.call_simulation.specs.steps.Callable.{Callable};
ghost use Rattle.call_simulation.specs.indirect_calls.FarCallable.{FarCallable};

/// A routine that can be called by its far pointer can be called by a far call of it, be it in the image or in an overlay.
pub fn far_law()
    ensures { (w : World) (site : Site) (live : Live) → Fits w site live → (key : Key) (place : Place) (bound most : ℕ) → FarCallable w site live key place bound most → (IsTrue w.framed → IsChained w live) → Callable w site live key (call_far place) bound most }
{}

/// The statement that calls through a far pointer does what it means, if each routine that a far pointer may name can be called
/// by it: the arguments in order, a turn, and only then the pointer is read, with the caller's bytes as they are.
pub fn through_law()
    ensures { (w : World) (site : Site) (live : Live) → Fits w site live → EndsErrors w live site.context.addresses.error_routine → (IsTrue w.framed → IsChained w live) → (bound most pointer : ℕ) (at : Address) (args : List Expr) (result : Option FlatResult) → AllHaveWords args → HasResultSize result → 68 + 2 * (length args + exprs_depth args) ≤ live.frame.sp → 8 + length (args_code site.context args) + length (loads site.context at) + most + length (taken site.context result) ≤ w.rate → ((place : Place) (key : Key) → w.choice.callee place ≡ Some key → FarCallable w site live key place bound most) → StepFlows w site live (suc bound) pointer (CallThrough at args result) }
{}
