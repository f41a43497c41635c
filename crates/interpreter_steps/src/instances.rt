//! Instances of methods, and how a call finds its routine.

ghost use Rattle.std.specs.Prelude.{◌≡◌, map, Err};
ghost use Rattle.std.specs.Option.{option_map};
ghost use Rattle.typed_tree.specs.Expressions.{view_place};
ghost use Rattle.tp_meaning.specs.Outcomes.{State, looked, known};
ghost use Rattle.tp_meaning.specs.Programs.{overlay_file, routine_key, class_sort};
ghost use Rattle.tp_meaning.specs.Activations.{held_routine};
ghost use Rattle.tp_meaning.specs.Calls.{is_file, installed_if, with_overlay_result, without_class, with_method, dispatched_in, method_of, overlay_called};
ghost use Rattle.tp_meaning.specs.Expressions.{class_for, instance_at};
ghost use Rattle.interpreter_store.specs.cell_store.Views.{view_key, view_value};
ghost use Rattle.interpreter_store.specs.typed_cells.Sorts.{view_sort, view_reached};
ghost use Rattle.interpreter_effects.specs.activations.Views.{view_activation};
ghost use Rattle.interpreter_steps.specs.Running.{view_run, view_instance, program_of, Comes};
ghost use Rattle.interpreter_steps.specs.Entering.{new_instance};

use crate::state::{Interpreter, Over, Run};
use interpreter_effects::activations::Activation;
use interpreter_effects::program_names::{
    class_key, class_sort, is_overlay_file, method_in, routine_key,
};
use interpreter_store::cell_store::{Key, Spot, Value};
use interpreter_store::typed_cells::{Reached, Sort};
use std::alloc::Global;
use type_layout::RoutineId;
use typed_tree::PlaceExpr;

/// The instance of a method, and the class that a constructor gives it.
#[derive(Drop)]
pub struct Instance {
    pub own: Option<Spot>,
    pub class: Option<Key>,
}

// A constructor gives an instance the type of its place. Of Self the class stays as it is.
fn class_for(f: &Activation, e: &PlaceExpr, sort: &Sort) -> Option<Key>
    ensures { option_map view_key result ≡ class_for (view_activation f.now) (view_place e.now) (view_sort sort.now) }
{
    match e {
        PlaceExpr::Var(variable) => {
            if f.is_self(*variable) {
                None
            } else {
                class_key(sort)
            }
        }
        _ => class_key(sort),
    }
}

/// The instance at a place.
pub fn instance_at(f: &Activation, e: &PlaceExpr, at: Reached) -> Instance
    ensures { view_instance result ≡ instance_at (view_activation f.now) (view_place e.now) (view_reached at.entry) }
{
    let class = class_for(f, e, &at.sort);
    Instance {
        own: Some(at.spot),
        class,
    }
}

/// A new block that is an instance of a type.
pub fn new_instance(alloc: Global, serial: usize, sort: &Sort) -> Result<Instance, Over>
    ensures { (s : State) → Comes view_instance result s (new_instance serial (view_sort sort.now) s) }
{
    match class_key(sort) {
        None => Err(Over::Stuck),
        Some(class) => Ok(Instance {
            own: Some(Spot::whole(alloc, serial)),
            class: Some(class),
        }),
    }
}

/// The name of a routine of the unit that runs.
pub fn named(f: &Activation, routine: RoutineId) -> Result<Key, Over>
    ensures { (s : State) → Comes view_key result s (known (routine_key f.now.unit.now routine) s) }
{
    match routine_key(f.unit, routine) {
        None => Err(Over::Stuck),
        Some(key) => Ok(key),
    }
}

/// The routine that a variable holds.
pub fn held_routine(run: &Run, at: &Reached) -> Result<Key, Over>
    ensures { let s = view_run run.now in Comes view_key result s (looked (held_routine (view_reached at.now)) s) }
{
    Ok(at.held_routine(&run.store)?)
}

// An instance without class has no virtual method.
fn without_class(checked: bool) -> Over
    ensures { (s : State) → Comes view_key (Err result) s (without_class checked s) }
{
    if checked {
        Over::Error(210)
    } else {
        Over::Undefined(4)
    }
}

// A class that lacks the method has nothing to call.
fn with_method(found: Option<Key>) -> Result<Key, Over>
    ensures { (s : State) → Comes view_key result s (with_method (option_map view_key found) s) }
{
    match found {
        None => Err(Over::Undefined(4)),
        Some(key) => Ok(key),
    }
}

// What a class has for a slot. A class that no unit declares has nothing.
fn dispatched_in(alloc: Global, slot: u32, sort: Option<Sort>) -> Result<Key, Over>
    ensures { (s : State) → Comes view_key result s (dispatched_in slot (option_map view_sort sort.entry) s) }
{
    match sort {
        None => Err(Over::Stuck),
        Some(sort) => {
            let found = method_in(alloc, slot, &sort)?;
            with_method(found)
        }
    }
}

impl Interpreter<'_> {
    fn dispatched_by(&self, class: &Key, slot: u32) -> Result<Key, Over>
        ensures { (s : State) → Comes view_key result s (dispatched_in slot (class_sort (program_of self.now) (view_key class.now)) s) }
    {
        dispatched_in(self.alloc, slot, class_sort(self.sources.program, class))
    }

    /// The routine that the class of an instance has for a slot. One without class is error 210 where that is checked, and
    /// else an undefined act.
    pub fn method_of(&self, run: &Run, at: &Reached, slot: u32, checked: bool) -> Result<Key, Over>
        ensures { let s = view_run run.now in Comes view_key result s (method_of (program_of self.now) (view_reached at.now) slot checked s) }
    {
        match at.class(self.alloc, &run.store)? {
            None => Err(without_class(checked)),
            Some(class) => self.dispatched_by(&class, slot),
        }
    }

    // The result of a call of the unit Overlay.
    fn set_overlay_result(&self, run: &mut Run, z: i32) -> Result<Value, Over>
        ensures { Comes view_value result (view_run run.new) (with_overlay_result z (view_run run.old)) }
    {
        let at = Reached {
            spot: Spot::whole(self.alloc, 0),
            sort: Sort::Alone(self.sources.integer),
        };
        at.assign(self.alloc, &Value::Ordinal(z), &mut run.store)?;
        Ok(Value::Void)
    }

    // OvrInit: the overlays are installed if the name is that of their file.
    fn install(&self, run: &mut Run, name: &[u8]) -> Result<Value, Over>
        ensures { Comes view_value result (view_run run.new) (installed_if (is_file (overlay_file (program_of self.now)) name.now) (view_run run.old)) }
    {
        if is_overlay_file(self.alloc, self.sources.program, name)? {
            run.installed = true;
            return self.set_overlay_result(run, 0);
        }
        self.set_overlay_result(run, -2)
    }

    /// OvrInit, OvrSetBuf and OvrClearBuf, in this order.
    pub fn overlay_called(&self, run: &mut Run, number: u32, args: &[Value]) -> Result<Value, Over>
        ensures { Comes view_value result (view_run run.new) (overlay_called (program_of self.now) number (map view_value args.now) (view_run run.old)) }
    {
        match (number, args) {
            (0, [Value::Text(name)]) => self.install(run, name.as_slice()),
            (1, [Value::Ordinal(_)]) => self.set_overlay_result(run, 0),
            (2, []) => self.set_overlay_result(run, 0),
            _ => Err(Over::Stuck),
        }
    }
}
