//! Steps of Read.

ghost use Rattle.std.specs.Prelude.{◌≡◌};
ghost use Rattle.std.specs.Option.{option_copied};
ghost use Rattle.tp_meaning.specs.Programs.{definition, sort_in};
ghost use Rattle.tp_meaning.specs.Statements.{number_taken, char_taken, text_taken, taken_as};
ghost use Rattle.interpreter_store.specs.typed_cells.Sorts.{view_reached};
ghost use Rattle.interpreter_steps.specs.Running.{view_run, Comes};
ghost use Rattle.interpreter_steps.specs.StatementParts.{stored_within, numeral_stored};

use crate::expressions::sort_in;
use crate::state::{Interpreter, Over, Run};
use crate::statements::tested;
use common_values::input::{read_char, read_number, read_string};
use interpreter_effects::activations::Activation;
use interpreter_store::cell_store::Value;
use interpreter_store::typed_cells::Reached;
use type_layout::{Bytes, Host, TypeDef, TypeId};

impl<'a> Interpreter<'a> {
    fn store_tested(
        &self,
        run: &mut Run,
        at: &Reached,
        one: Option<&TypeDef>,
        checked: bool,
        z: i32,
    ) -> Result<(), Over>
        ensures { Comes (λ done. done) result (view_run run.new) (stored_within checked (view_reached at.now) (option_copied one.entry) z (view_run run.old)) }
    {
        let z = tested(checked, one, z)?;
        self.store_number(run, at, i64::from(z))
    }

    // Where there is no numeral it is error 106.
    fn store_numeral(
        &self,
        run: &mut Run,
        at: &Reached,
        one: Option<&TypeDef>,
        checked: bool,
        numeral: Option<i32>,
    ) -> Result<(), Over>
        ensures { Comes (λ done. done) result (view_run run.new) (numeral_stored checked (view_reached at.now) (option_copied one.entry) numeral (view_run run.old)) }
    {
        match numeral {
            None => Err(Over::Error(106)),
            Some(z) => self.store_tested(run, at, one, checked, z),
        }
    }

    // A number, which must lie in the bounds of the type under range checks.
    fn take_number(
        &self,
        run: &mut Run,
        at: &Reached,
        one: Option<&TypeDef>,
        checked: bool,
    ) -> Result<(), Over>
        ensures { Comes (λ done. done) result (view_run run.new) (number_taken checked (view_reached at.now) (option_copied one.entry) (view_run run.old)) }
    {
        let (numeral, rest) = read_number(run.input);
        run.input = rest;
        self.store_numeral(run, at, one, checked, numeral)
    }

    fn take_char(&self, run: &mut Run, at: &Reached) -> Result<(), Over>
        ensures { Comes (λ done. done) result (view_run run.new) (char_taken (view_reached at.now) (view_run run.old)) }
    {
        let (byte, rest) = read_char(run.input);
        run.input = rest;
        self.store(run, at, &Value::Ordinal(i32::from(byte)))
    }

    fn take_text(&self, run: &mut Run, at: &Reached, size: u8) -> Result<(), Over>
        ensures { Comes (λ done. done) result (view_run run.new) (text_taken (view_reached at.now) size (view_run run.old)) }
    {
        let (text, rest) = read_string(run.input, size);
        run.input = rest;
        let bytes = Bytes::from_slice(self.alloc, text)?;
        self.store(run, at, &Value::Text(bytes))
    }

    /// Fills a place by a type of the unit.
    pub fn take(
        &self,
        run: &mut Run,
        f: &Activation<'a>,
        at: &Reached,
        ty: TypeId,
        checked: bool,
    ) -> Result<(), Over>
        ensures { Comes (λ done. done) result (view_run run.new) (taken_as checked (view_reached at.now) (definition (sort_in f.now.unit.now ty)) (view_run run.old)) }
    {
        let sort = sort_in(f, ty);
        match sort.definition() {
            Some(TypeDef::Ordinal { host, .. }) => match host {
                Host::Char => self.take_char(run, at),
                Host::Boolean | Host::Enumeration => Err(Over::Stuck),
                Host::ShortInt | Host::Byte | Host::Integer | Host::Word | Host::LongInt => {
                    self.take_number(run, at, sort.definition(), checked)
                }
            },
            Some(TypeDef::Str { max }) => self.take_text(run, at, *max),
            _ => Err(Over::Stuck),
        }
    }
}
