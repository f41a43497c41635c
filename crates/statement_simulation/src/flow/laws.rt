//! The laws of lists of statements, each the contract of a function that does nothing.

ghost use Rattle.std.specs.Prelude.{◌*◌, ◌+◌, ◌<◌, ◌≤◌, ℕ};
ghost use Rattle.flat_code.specs.declared.tree.Address.{Address};
ghost use Rattle.flat_code.specs.Legal.{expr_depth};
ghost use Rattle.flat_code.specs.Tree.{Expr, StoreByte, StoreWord, Leave, Return, Error, Code};
ghost use Rattle.statement_simulation.specs.expressions.Evaluates.{HasWords};
ghost use Rattle.statement_simulation.specs.flow.Sites.{World, Site, Live, Fits};
ghost use Rattle.statement_simulation.specs.flow.Outcomes.{EndsErrors};
ghost use Rattle.statement_simulation.specs.flow.Lists.{StepFlows, IsFit, CodeFlows};

/// If each step of a list of statements is followed by its code, then the list is: the code of its tests and loops does what
/// they mean, at any place and for any number of turns below the bound. A test takes the first part where its value isn't 0,
/// a loop spends a turn before each run of its body, and every turn has an event of its own.
pub fn flow_law()
    ensures { (w : World) (site : Site) (live : Live) (bound : ℕ) → Fits w site live → EndsErrors w live site.context.addresses.error_routine → (pointer : ℕ) (code : Code) → IsFit w site live bound pointer code → CodeFlows w site live bound pointer code }
{}

/// The steps that call nothing and copy nothing are followed by their code: stores, what leaves loops and returns, and
/// errors.
pub fn step_law()
    ensures byte { (w : World) (site : Site) (live : Live) (bound pointer : ℕ) → Fits w site live → EndsErrors w live site.context.addresses.error_routine → (to : Address) (e : Expr) → HasWords e → 64 + 2 * expr_depth e ≤ live.frame.sp → StepFlows w site live bound pointer (StoreByte to e) }
    ensures word { (w : World) (site : Site) (live : Live) (bound pointer : ℕ) → Fits w site live → EndsErrors w live site.context.addresses.error_routine → (to : Address) (e : Expr) → HasWords e → 64 + 2 * expr_depth e ≤ live.frame.sp → StepFlows w site live bound pointer (StoreWord to e) }
    ensures leave { (w : World) (site : Site) (live : Live) (bound pointer loops : ℕ) → Fits w site live → StepFlows w site live bound pointer (Leave loops) }
    ensures home { (w : World) (site : Site) (live : Live) (bound pointer : ℕ) → Fits w site live → StepFlows w site live bound pointer Return }
    ensures error { (w : World) (site : Site) (live : Live) (bound pointer code : ℕ) → Fits w site live → EndsErrors w live site.context.addresses.error_routine → code < 65536 → 64 ≤ live.frame.sp → StepFlows w site live bound pointer (Error code) }
{}
