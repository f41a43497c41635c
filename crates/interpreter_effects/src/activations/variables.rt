//! The places of variables.

ghost use Rattle.std.specs.Prelude.{◌≡◌, ◌≤◌, ◌+◌, IfOk};
ghost use Rattle.std.specs.Option.{option_map, option_copied};
ghost use Rattle.tp_meaning.specs.Found.{known};
ghost use Rattle.tp_meaning.specs.Activations.{whole, spot_through, variable_in, global_at, variable_at, is_self};
ghost use Rattle.interpreter_store.specs.cell_store.Views.{view_key, view_spot, view_store};
ghost use Rattle.interpreter_store.specs.cell_store.Finding.{Gets};
ghost use Rattle.interpreter_store.specs.typed_cells.Sorts.{view_reached};
ghost use Rattle.interpreter_effects.specs.activations.Views.{view_level, view_activation};
ghost use Rattle.interpreter_effects.specs.activations.Parts.{variable_of, global_named, own_variable, outer_variable};

use crate::activations::calls::{Activation, Level};
use crate::activations::routines::{is_alias, is_self_of, variables_of};
use crate::program_names::{Sources, global_serial, key_of};
use interpreter_store::cell_store::{Key, Spot, Stop, Store, Trap};
use interpreter_store::typed_cells::{Reached, Sort};
use std::alloc::{AllocError, Global};
use typed_tree::{Unit, Variable};

// The place that a `with` holds has a number from here on.
const FIRST_HELD: u32 = 0x8000_0000;

fn spot_through(alloc: Global, alias: bool, own: Spot, store: &Store) -> Result<Spot, Stop>
    ensures { Gets view_spot result (spot_through alias (view_spot own) (view_store store.now)) }
{
    if alias {
        Ok(store.value_at(&own)?.spot()?.copied(alloc)?)
    } else {
        Ok(own)
    }
}

// The object of a variable. A serial number that passes 64 bits is answered as out of memory.
fn own_spot(alloc: Global, first: usize, number: u32) -> Result<Spot, AllocError>
    ensures { IfOk result (λ spot. view_spot spot ≡ whole (first + number)) }
{
    let serial = first.checked_add(number as usize).ok_or(AllocError)?;
    Ok(Spot::whole(alloc, serial))
}

fn variable_in<'a>(
    alloc: Global,
    unit: &'a Unit,
    number: u32,
    store: &Store,
    level: &Level,
) -> Result<Reached<'a>, Stop>
    ensures { Gets view_reached result (variable_in unit.now number (view_store store.now) (view_level level.now)) }
{
    let types = variables_of(alloc, level.routine)?;
    let Some(ty) = types.get(number as usize) else {
        return Err(Stop::Trapped(Trap::IllTyped));
    };
    let ty = *ty;
    let own = own_spot(alloc, level.first, number)?;
    let spot = spot_through(alloc, is_alias(level.routine, number), own, store)?;
    Ok(Reached {
        spot,
        sort: Sort::Of {
            types: &unit.types,
            ty,
        },
    })
}

fn variable_of<'a>(
    alloc: Global,
    unit: &'a Unit,
    number: u32,
    store: &Store,
    level: Option<&Level>,
) -> Result<Reached<'a>, Stop>
    ensures { Gets view_reached result (variable_of unit.now number (view_store store.now) (option_map view_level (option_copied level.entry))) }
{
    match level {
        None => Err(Stop::Trapped(Trap::IllTyped)),
        Some(level) => variable_in(alloc, unit, number, store, level),
    }
}

fn global_at<'a>(alloc: Global, sources: &Sources<'a>, key: &Key) -> Result<Reached<'a>, Stop>
    ensures { Gets view_reached result (global_at sources.now.program.now (view_key key.now)) }
{
    let Some(sort) = sources.global_sort(key) else {
        return Err(Stop::Trapped(Trap::IllTyped));
    };
    let serial = global_serial(sources.program, key)?;
    Ok(Reached {
        spot: Spot::whole(alloc, serial),
        sort,
    })
}

fn global_named<'a>(
    alloc: Global,
    sources: &Sources<'a>,
    key: Option<Key>,
) -> Result<Reached<'a>, Stop>
    ensures { Gets view_reached result (global_named sources.now.program.now (option_map view_key key)) }
{
    match key {
        None => Err(Stop::Trapped(Trap::IllTyped)),
        Some(key) => global_at(alloc, sources, &key),
    }
}

fn copied_place<'a>(alloc: Global, at: Option<&Reached<'a>>) -> Result<Reached<'a>, Stop>
    ensures { Gets view_reached result (known (option_map view_reached (option_copied at.entry))) }
{
    match at {
        None => Err(Stop::Trapped(Trap::IllTyped)),
        Some(at) => Ok(at.copied(alloc)?),
    }
}

impl<'a> Activation<'a> {
    fn own_variable(&self, alloc: Global, number: u32, store: &Store) -> Result<Reached<'a>, Stop>
        ensures { Gets view_reached result (own_variable (view_activation self.now) number (view_store store.now)) }
    {
        if number < FIRST_HELD {
            variable_of(
                alloc,
                self.unit,
                number,
                store,
                self.levels.as_slice().get(0),
            )
        } else {
            copied_place(
                alloc,
                self.withs.as_slice().get((number - FIRST_HELD) as usize),
            )
        }
    }

    // A variable of a routine round the one that runs.
    fn outer_variable(
        &self,
        alloc: Global,
        level: u32,
        number: u32,
        store: &Store,
    ) -> Result<Reached<'a>, Stop>
        requires { 2 ≤ level }
        ensures { Gets view_reached result (outer_variable (view_activation self.now) level number (view_store store.now)) }
    {
        variable_of(
            alloc,
            self.unit,
            number,
            store,
            self.levels.as_slice().get(level as usize - 1),
        )
    }

    /// The place of a variable.
    pub fn variable_at(
        &self,
        alloc: Global,
        sources: &Sources<'a>,
        variable: Variable,
        store: &Store,
    ) -> Result<Reached<'a>, Stop>
        ensures { Gets view_reached result (variable_at sources.now.program.now (view_activation self.now) variable (view_store store.now)) }
    {
        match variable.level {
            0 => global_named(
                alloc,
                sources,
                key_of(self.unit, variable.unit, variable.number),
            ),
            1 => self.own_variable(alloc, variable.number, store),
            level => self.outer_variable(alloc, level, variable.number, store),
        }
    }

    /// Whether a variable is Self of a method.
    pub fn is_self(&self, variable: Variable) -> bool
        ensures { result ≡ is_self (view_activation self.now) variable }
    {
        if variable.level == 0 {
            return false;
        }
        match self.levels.as_slice().get(variable.level as usize - 1) {
            None => false,
            Some(level) => is_self_of(level.routine, variable.number),
        }
    }
}
