//! Routines are entered.

ghost use Rattle.std.specs.Prelude.{map};
ghost use Rattle.std.specs.Option.{option_map, option_copied};
ghost use Rattle.tp_meaning.specs.Calls.{entered};
ghost use Rattle.tp_meaning.specs.Expressions.{called};
ghost use Rattle.tp_meaning.specs.Meaning.{run as runs};
ghost use Rattle.interpreter_store.specs.cell_store.Views.{view_key, view_spot, view_value};
ghost use Rattle.interpreter_effects.specs.standard_effects.Operands.{view_operand};
ghost use Rattle.interpreter_steps.specs.Running.{view_run, view_instance, program_of};
ghost use Rattle.interpreter_steps.specs.interpreter_frames.Frames.{then_value, Goes};

use crate::machine::Machine;
use interpreter_effects::program_names::is_overlay;
use interpreter_effects::standard_effects::Operand;
use interpreter_steps::interpreter_frames::{Next, Work, gave_value};
use interpreter_steps::{Instance, Over, Run, all_handed};
use interpreter_store::cell_store::{Key, Spot, Value};

impl<'a> Machine<'a> {
    /// Enters a routine whose turn is spent.
    pub fn enter(
        &self,
        run: &mut Run,
        work: &mut Work<'a>,
        key: &Key,
        own: Option<&Spot>,
        class: Option<Key>,
        args: &[Value],
    ) -> Result<Next<'a>, Over>
        ensures { let p = program_of self.now.steps in Goes p result work.new (view_run run.new) (then_value p work.old (λ f. entered p (runs p) f (view_key key.now) (option_map view_spot (option_copied own.entry)) (option_map view_key class) (map view_value args.now)) (view_run run.old)) }
    {
        let callee = self.steps.admitted(run, &work.f, key)?;
        let (g, first) = self.steps.begin(run, &callee, &work.f, own, class, args)?;
        work.enter(self.steps.alloc, g, callee, first)
    }

    /// Calls a routine of the sources, or of the unit Overlay.
    pub fn called(
        &self,
        run: &mut Run,
        work: &mut Work<'a>,
        key: &Key,
        instance: Instance,
        args: Vec<Operand>,
    ) -> Result<Next<'a>, Over>
        ensures { let p = program_of self.now.steps in Goes p result work.new (view_run run.new) (then_value p work.old (λ f. called p (runs p) f (view_key key.now) (view_instance instance) (map view_operand args.entry.items)) (view_run run.old)) }
    {
        let values = all_handed(self.steps.alloc, args)?;
        if is_overlay(&key.unit) {
            return gave_value(
                self.steps
                    .overlay_called(run, key.number, values.as_slice()),
            );
        }
        run.spend()?;
        let Instance { own, class } = instance;
        self.enter(run, work, key, own.as_ref(), class, values.as_slice())
    }
}
