//! Steps of statements that run no others.

ghost use Rattle.std.specs.Prelude.{◌≡◌, ◌+ℤ◌, Err};
ghost use Rattle.std.specs.List.{list_any};
ghost use Rattle.std.specs.Option.{option_copied};
ghost use Rattle.type_layout.specs.Layouts.{bounds_of};
ghost use Rattle.tp_meaning.specs.Store.{number_of};
ghost use Rattle.tp_meaning.specs.Programs.{definition, sort_in};
ghost use Rattle.tp_meaning.specs.Outcomes.{State, found, looked, changed};
ghost use Rattle.tp_meaning.specs.Activations.{assigned, copied, number_in};
ghost use Rattle.tp_meaning.specs.Standard.{number_assigned};
ghost use Rattle.tp_meaning.specs.Statements.{covers, is_past, step, counted, tested, line_written, line_read, halted, unless_nil, destructor_of};
ghost use Rattle.interpreter_store.specs.cell_store.Views.{view_key, view_spot, view_value};
ghost use Rattle.interpreter_store.specs.typed_cells.Sorts.{view_sort, view_reached};
ghost use Rattle.interpreter_effects.specs.activations.Views.{view_activation};
ghost use Rattle.interpreter_steps.specs.Running.{view_run, view_flow, program_of, Comes};
ghost use Rattle.interpreter_steps.specs.StatementParts.{counted_at, begun_at, printed_in, freed_at};

use crate::expressions::sort_in;
use crate::instances::named;
use crate::state::{Flow, Interpreter, Over, Run};
use common_values::input::after_line;
use common_values::ordinals::shift_count;
use interpreter_effects::activations::Activation;
use interpreter_effects::standard_effects::{number_assigned, size_freed};
use interpreter_store::cell_store::{Key, Spot, Tree, Value};
use interpreter_store::typed_cells::{Reached, Sort};
use interpreter_store::value_operators::{field_text, is_between, text_of, within};
use type_layout::{TypeDef, TypeId};
use typed_tree::{Destructor, LabelRange, Variable};

/// The number of an ordinal.
pub fn number_of(value: &Value) -> Result<i32, Over>
    ensures { (s : State) → Comes (λ z. z) result s (found (number_of (view_value value.now)) s) }
{
    Ok(value.number()?)
}

/// The number that a variable holds.
pub fn number_in(run: &Run, at: &Reached) -> Result<i32, Over>
    ensures { let s = view_run run.now in Comes (λ z. z) result s (looked (number_in (view_reached at.now)) s) }
{
    Ok(at.number(&run.store)?)
}

/// Whether one of the labels covers a number.
pub fn covers(labels: &[LabelRange], z: i32) -> bool
    ensures { result ≡ list_any (covers z) labels.now }
{
    labels
        .iter()
        .any(|label| is_between(label.low, label.high, z))
}

/// Whether a loop's last value is passed.
pub fn is_past(down: bool, first: i32, last: i32) -> bool
    ensures { result ≡ is_past down first last }
{
    if down { first < last } else { last < first }
}

/// How Halt ends a run.
pub fn halted(z: i32) -> Over
    ensures { (s : State) → Comes view_flow (Err result) s (halted z s) }
{
    Over::Ended(shift_count(z))
}

/// A pointer that is disposed of is not nil: for that it is error 204.
pub fn unless_nil(pointer: &Value) -> Result<(), Over>
    ensures { (s : State) → Comes (λ done. done) result s (found (unless_nil (view_value pointer.now)) s) }
{
    match pointer {
        Value::Nil => Err(Over::Error(204)),
        _ => Ok(()),
    }
}

/// Skips the rest of the line, with `line`.
pub fn skip_line(run: &mut Run, line: bool) -> Result<Flow, Over>
    ensures { Comes view_flow result (view_run run.new) (line_read line (view_run run.old)) }
{
    if line {
        run.input = after_line(run.input);
    }
    Ok(Flow::Next)
}

/// Writes the end of a line, with `line`.
pub fn end_line(run: &mut Run, line: bool) -> Result<Flow, Over>
    ensures { Comes view_flow result (view_run run.new) (line_written line (view_run run.old)) }
{
    if line {
        run.out.extend_from_slice(b"\r\n")?;
    }
    Ok(Flow::Next)
}

// The bounds of an ordinal type, (0, 0) of one that is none.
fn bounds_of(one: Option<&TypeDef>) -> (i32, i32)
    ensures { result ≡ bounds_of (option_copied one.entry) }
{
    match one {
        Some(TypeDef::Ordinal { low, high, .. }) => (*low, *high),
        _ => (0, 0),
    }
}

/// Under range checks a value must lie in the bounds of a type.
pub(crate) fn tested(checked: bool, one: Option<&TypeDef>, z: i32) -> Result<i32, Over>
    ensures { (s : State) → Comes (λ z. z) result s (tested checked (option_copied one.entry) z s) }
{
    if checked {
        let (low, high) = bounds_of(one);
        Ok(within(low, high, z)?)
    } else {
        Ok(z)
    }
}

// Under range checks a value must lie in the bounds of a type of the unit that runs.
fn tested_in(f: &Activation, ty: TypeId, checked: bool, z: i32) -> Result<i32, Over>
    ensures { (s : State) → Comes (λ z. z) result s (tested checked (definition (sort_in f.now.unit.now ty)) z s) }
{
    let sort = sort_in(f, ty);
    tested(checked, sort.definition(), z)
}

impl<'a> Interpreter<'a> {
    /// Assigns a value to a place.
    pub fn store(&self, run: &mut Run, at: &Reached, value: &Value) -> Result<(), Over>
        ensures { Comes (λ done. done) result (view_run run.new) (changed (assigned (view_reached at.now) (view_value value.now)) (view_run run.old)) }
    {
        at.assign(self.alloc, value, &mut run.store)?;
        Ok(())
    }

    /// Copies a record, an array or an object to a place.
    pub fn copy(&self, run: &mut Run, at: &Reached, from: &Spot) -> Result<(), Over>
        ensures { Comes (λ done. done) result (view_run run.new) (changed (copied (view_reached at.now) (view_spot from.now)) (view_run run.old)) }
    {
        at.copy(self.alloc, from, &mut run.store)?;
        Ok(())
    }

    pub(crate) fn store_number(&self, run: &mut Run, at: &Reached, z: i64) -> Result<(), Over>
        ensures { Comes (λ done. done) result (view_run run.new) (changed (number_assigned (view_reached at.now) z) (view_run run.old)) }
    {
        number_assigned(self.alloc, at, z, &mut run.store)?;
        Ok(())
    }

    /// Steps the variable of a loop.
    pub fn step(&self, run: &mut Run, at: &Reached, z: i32, down: bool) -> Result<(), Over>
        ensures { Comes (λ done. done) result (view_run run.new) (changed (number_assigned (view_reached at.now) (z +ℤ step down)) (view_run run.old)) }
    {
        let by = if down { -1 } else { 1 };
        self.store_number(run, at, i64::from(z) + by)
    }

    /// Ends a loop that has turned: its variable is unset.
    pub fn counted(
        &self,
        run: &mut Run,
        f: &Activation<'a>,
        variable: Variable,
    ) -> Result<Flow, Over>
        ensures { Comes view_flow result (view_run run.new) (counted (program_of self.now) (view_activation f.now) variable (view_run run.old)) }
    {
        let at = self.variable(run, f, variable)?;
        run.store.replace(&at.spot, Tree::Leaf(None))?;
        Ok(Flow::Next)
    }

    fn count_at(
        &self,
        run: &mut Run,
        f: &Activation<'a>,
        variable: Variable,
        low: i32,
    ) -> Result<(), Over>
        ensures { Comes (λ done. done) result (view_run run.new) (counted_at (program_of self.now) (view_activation f.now) variable low (view_run run.old)) }
    {
        let at = self.variable(run, f, variable)?;
        self.store(run, &at, &Value::Ordinal(low))
    }

    /// Gives the variable of a loop its first value, and gives the last one, where both lie in the bounds of its type.
    pub fn count_from(
        &self,
        run: &mut Run,
        f: &Activation<'a>,
        variable: Variable,
        ty: TypeId,
        checked: bool,
        first: i32,
        last: i32,
    ) -> Result<i32, Over>
        ensures { Comes (λ z. z) result (view_run run.new) (begun_at (program_of self.now) (view_activation f.now) variable ty checked first last (view_run run.old)) }
    {
        let low = tested_in(f, ty, checked, first)?;
        let high = tested_in(f, ty, checked, last)?;
        self.count_at(run, f, variable, low)?;
        Ok(high)
    }

    /// Writes a value in a field of a width.
    pub fn print(&self, run: &mut Run, sort: &Sort, value: &Value, width: i32) -> Result<(), Over>
        ensures { Comes (λ done. done) result (view_run run.new) (printed_in (view_sort sort.now) (view_value value.now) width (view_run run.old)) }
    {
        let text = text_of(self.alloc, sort.definition(), value)?;
        let field = field_text(self.alloc, width, text.as_slice())?;
        run.out.extend_from_slice(field.as_slice())?;
        Ok(())
    }

    /// The destructor that is called for an instance.
    pub fn destructor_of(
        &self,
        run: &Run,
        f: &Activation<'a>,
        at: &Reached,
        destructor: Destructor,
    ) -> Result<Key, Over>
        ensures { let s = view_run run.now in Comes view_key result s (destructor_of (program_of self.now) (view_activation f.now) (view_reached at.now) destructor s) }
    {
        match destructor {
            Destructor::Routine(routine) => named(f, routine),
            Destructor::Slot { slot, checked } => self.method_of(run, at, slot, checked),
        }
    }

    /// Frees the block of an instance, by the size of the class that it has.
    pub fn free(&self, run: &mut Run, at: &Reached) -> Result<Flow, Over>
        ensures { Comes view_flow result (view_run run.new) (freed_at (program_of self.now) (view_reached at.now) (view_run run.old)) }
    {
        let bytes = size_freed(self.alloc, self.sources.program, at, &run.store)?;
        run.store.dispose(at.spot.object, bytes)?;
        Ok(Flow::Next)
    }
}
