//! What a call does before and after the body of its routine.

ghost use Rattle.std.specs.Prelude.{◌≡◌, map};
ghost use Rattle.std.specs.Option.{option_map, option_copied};
ghost use Rattle.interpreter_store.specs.cell_store.Views.{view_key, view_spot, view_value};
ghost use Rattle.interpreter_effects.specs.activations.Views.{view_activation, view_callee};
ghost use Rattle.interpreter_steps.specs.Running.{view_run, program_of, Comes};
ghost use Rattle.interpreter_steps.specs.Entering.{admitted, begun, ended};

use crate::state::{Interpreter, Over, Run};
use interpreter_effects::activations::{Activation, Callee, callee_of};
use interpreter_effects::program_names::is_overlaid;
use interpreter_store::cell_store::{Key, Spot, Value};

impl<'a> Interpreter<'a> {
    /// The routine that is called, where its unit can be reached and the stack has room.
    pub fn admitted(&self, run: &Run, f: &Activation<'a>, key: &Key) -> Result<Callee<'a>, Over>
        ensures { let s = view_run run.now in Comes view_callee result s (admitted (program_of self.now) (view_activation f.now) (view_key key.now) s) }
    {
        let callee = callee_of(self.sources.program, key)?;
        if is_overlaid(self.sources.program, &key.unit) && !run.installed {
            return Err(Over::Error(208));
        }
        if callee.is_too_deep(self.sources.program, f.sum)? {
            return Err(Over::Error(202));
        }
        Ok(callee)
    }

    /// Its activation and the serial number of its first variable, once the variables are made and the instance has its
    /// class.
    pub fn begin(
        &self,
        run: &mut Run,
        callee: &Callee<'a>,
        f: &Activation<'a>,
        own: Option<&Spot>,
        class: Option<Key>,
        args: &[Value],
    ) -> Result<(Activation<'a>, usize), Over>
        ensures { Comes (λ begun. (view_activation begun.0, begun.1)) result (view_run run.new) (begun (view_callee callee.now) (view_activation f.now) (option_map view_spot (option_copied own.entry)) (option_map view_key class) (map view_value args.now) (view_run run.old)) }
    {
        let around = f.levels_around(callee.routine.outer)?;
        let first = run.store.next_serial();
        callee.open(self.alloc, own, args, &mut run.store)?;
        callee.set_class(self.alloc, own, class, &mut run.store)?;
        let g = callee.activation(self.alloc, f, around, first)?;
        Ok((g, first))
    }

    /// What it gives, once its variables are gone.
    pub fn end(&self, run: &mut Run, callee: &Callee, first: usize) -> Result<Value, Over>
        ensures { Comes view_value result (view_run run.new) (ended (view_callee callee.now) first (view_run run.old)) }
    {
        let value = callee.result_of(self.alloc, first, &run.store)?;
        callee.close(self.alloc, first, &mut run.store)?;
        Ok(value)
    }
}
