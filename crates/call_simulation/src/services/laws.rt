//! The law of the acts that are routines, the contract of a function that does nothing.

ghost use Rattle.std.specs.Prelude.{◌≡◌, ℕ, ◌≤◌, IsTrue, [], Option, None};
ghost use Rattle.flat_code.specs.Tree.{Runtime};
ghost use Rattle.statement_simulation.specs.flow.Sites.{World, Site, Live, Fits};
ghost use Rattle.statement_simulation.specs.flow.Lists.{StepFlows};
ghost use Rattle.call_simulation.specs.frames.Chain.{IsChained};
ghost use Rattle.call_simulation.specs.services.Services.{flag_code, HasService, HasClear, HasFlag};

/// The act that clears the overlay buffer and the one that sets the installed flag are followed by their code: a far call of the
/// act's routine, which comes back to the caller; without overlays the clearing only comes back. The clearing leaves a framed state where that is asked for, and so does the
/// return into an overlay.
pub fn service_law()
    ensures clear { (w : World) (site : Site) (live : Live) → Fits w site live → (IsTrue w.framed → IsChained w live) → HasClear w site.context.addresses.clear_routine → 72 ≤ live.frame.sp → 3 ≤ w.rate → (bound pointer : ℕ) → StepFlows w site live bound pointer (Runtime 3 [] None) }
    ensures flag { (w : World) (site : Site) (live : Live) → Fits w site live → (IsTrue w.framed → IsChained w live) → (offset : ℕ) → HasFlag w offset → HasService w site.context.addresses.flag_routine (flag_code offset) → 72 ≤ live.frame.sp → 3 ≤ w.rate → (bound pointer : ℕ) → StepFlows w site live bound pointer (Runtime 4 [] None) }
{}
