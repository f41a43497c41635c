//! The law of copies, the contract of a function that does nothing.

ghost use Rattle.std.specs.Prelude.{◌<◌, ◌≤◌, ℕ};
ghost use Rattle.flat_code.specs.declared.tree.Address.{Address};
ghost use Rattle.flat_code.specs.Tree.{Copy};
ghost use Rattle.statement_simulation.specs.flow.Sites.{World, Site, Live, Fits};
ghost use Rattle.statement_simulation.specs.flow.Outcomes.{EndsErrors};
ghost use Rattle.statement_simulation.specs.flow.Lists.{StepFlows};

/// A copy is followed by its code, at any place, from any place to any place, overlapping or not: bytes are moved one after
/// another, an unset one as it is. The two places are known before the first byte moves. A word of the stack is needed
/// besides the 64 bytes below.
pub fn copy_law()
    ensures { (w : World) (site : Site) (live : Live) (bound pointer : ℕ) → Fits w site live → EndsErrors w live site.context.addresses.error_routine → (to from : Address) (bytes : ℕ) → bytes < 65536 → 66 ≤ live.frame.sp → StepFlows w site live bound pointer (Copy to from bytes) }
{}
