//! Steps of places that run no others.

ghost use Rattle.std.specs.Prelude.{◌≡◌, pos, Err};
ghost use Rattle.type_layout.specs.Layouts.{bounds_at};
ghost use Rattle.typed_tree.specs.Expressions.{view_expr};
ghost use Rattle.tp_meaning.specs.Outcomes.{State, looked};
ghost use Rattle.tp_meaning.specs.Activations.{Reached as PureReached, variable_at, loaded, length_held};
ghost use Rattle.tp_meaning.specs.Programs.{definition, char_sort};
ghost use Rattle.tp_meaning.specs.Expressions.{field_at, outside, element_between, element_in};
ghost use Rattle.interpreter_store.specs.cell_store.Views.{view_spot, view_value};
ghost use Rattle.interpreter_store.specs.typed_cells.Sorts.{view_sort, view_reached};
ghost use Rattle.interpreter_effects.specs.activations.Views.{view_activation};
ghost use Rattle.interpreter_steps.specs.Running.{view_run, program_of, Comes};
ghost use Rattle.interpreter_steps.specs.Places.{followed_to, indexed};

use crate::expressions::sort_of;
use crate::state::{Interpreter, Over, Run};
use interpreter_effects::activations::Activation;
use interpreter_effects::standard_effects::target;
use interpreter_store::cell_store::{Spot, Value};
use interpreter_store::typed_cells::{
    Reached, Sort, field_place, field_type, inside, parts_of_type,
};
use interpreter_store::value_operators::is_between;
use std::alloc::Global;
use type_layout::{TypeDef, TypeId, Types};
use typed_tree::{Expr, Variable};

// Outside its bounds an index is error 201 where it is checked, and else an undefined act.
fn outside(checked: bool) -> Over
    ensures { (s : State) → Comes view_reached (Err result) s (outside checked s) }
{
    if checked {
        Over::Error(201)
    } else {
        Over::Undefined(3)
    }
}

// The part of a place at an index. A part whose number passes 32 bits is answered as out of memory.
fn element_between<'a>(
    alloc: Global,
    at: &Spot,
    bounds: (i32, i32),
    sort: Sort<'a>,
    checked: bool,
    z: i32,
) -> Result<Reached<'a>, Over>
    ensures { (s : State) (of : PureReached) → of.spot ≡ view_spot at.now → Comes view_reached result s (element_between of bounds (view_sort sort.entry) checked z s) }
{
    if !is_between(bounds.0, bounds.1, z) {
        return Err(outside(checked));
    }
    let place = z.abs_diff(bounds.0);
    Ok(Reached {
        spot: at.inside(alloc, place)?,
        sort,
    })
}

impl<'a> Interpreter<'a> {
    /// The place of a variable.
    pub fn variable(
        &self,
        run: &Run,
        f: &Activation<'a>,
        variable: Variable,
    ) -> Result<Reached<'a>, Over>
        ensures { let s = view_run run.now in Comes view_reached result s (looked (variable_at (program_of self.now) (view_activation f.now) variable) s) }
    {
        Ok(f.variable_at(self.alloc, &self.sources, variable, &run.store)?)
    }

    /// What a place holds; of a record, an array or an object the place itself.
    pub fn load(&self, run: &Run, at: &Reached) -> Result<Value, Over>
        ensures { let s = view_run run.now in Comes view_value result s (looked (loaded (view_reached at.now)) s) }
    {
        Ok(at.loaded(self.alloc, &run.store)?)
    }

    /// The length of what a string variable holds.
    pub fn measure(&self, run: &Run, at: &Reached) -> Result<Value, Over>
        ensures { let s = view_run run.now in Comes view_value result s (looked (length_held (view_reached at.now)) s) }
    {
        Ok(at.length(&run.store)?)
    }

    /// The place to which a pointer leads, as its expression is typed.
    pub fn follow(
        &self,
        run: &Run,
        f: &Activation<'a>,
        e: &Expr,
        pointer: &Value,
    ) -> Result<Reached<'a>, Over>
        ensures { let s = view_run run.now in Comes view_reached result s (followed_to (view_activation f.now) (view_expr e.now) (view_value pointer.now) s) }
    {
        let serial = run.store.followed(pointer)?;
        let sort = sort_of(f, e)?;
        Ok(Reached {
            spot: Spot::whole(self.alloc, serial),
            sort: target(&sort)?,
        })
    }

    fn field_of(
        &self,
        at: &Reached<'a>,
        types: &'a Types,
        ty: TypeId,
        number: u32,
    ) -> Result<Reached<'a>, Over>
        requires { view_sort at.now.sort ≡ record { table = types.now; ty = ty } }
        ensures { (s : State) → Comes view_reached result s (field_at (view_reached at.now) number s) }
    {
        let Some(field) = field_type(self.alloc, types, ty, number)? else {
            return Err(Over::Stuck);
        };
        let parts = parts_of_type(self.alloc, types, ty)?;
        let place = field_place(parts.as_slice(), number);
        Ok(Reached {
            spot: inside(self.alloc, &at.spot, place)?,
            sort: Sort::Of { types, ty: field },
        })
    }

    /// The place of a field. What stands in a table of its own has no field, and is answered as out of memory.
    pub fn field_at(&self, at: &Reached<'a>, number: u32) -> Result<Reached<'a>, Over>
        ensures { (s : State) → Comes view_reached result s (field_at (view_reached at.now) number s) }
    {
        match at.sort {
            Sort::Alone(_) => Err(Over::OutOfMemory),
            Sort::Of { types, ty } => self.field_of(at, types, ty, number),
        }
    }

    fn array_element(
        &self,
        at: &Reached<'a>,
        sort: Sort<'a>,
        index: TypeId,
        checked: bool,
        z: i32,
    ) -> Result<Reached<'a>, Over>
        ensures { (s : State) → let of = view_reached at.now in Comes view_reached result s (element_between of (bounds_at of.sort.table.types index) (view_sort sort.entry) checked z s) }
    {
        let bounds = at.sort.bounds_at(index);
        element_between(self.alloc, &at.spot, bounds, sort, checked, z)
    }

    fn char_sort(&self) -> Sort<'a>
        ensures { view_sort result ≡ char_sort }
    {
        Sort::Alone(self.sources.char)
    }

    fn string_element(
        &self,
        at: &Reached<'a>,
        max: u8,
        checked: bool,
        z: i32,
    ) -> Result<Reached<'a>, Over>
        ensures { (s : State) → let of = view_reached at.now in Comes view_reached result s (element_between of (pos 0, pos max) char_sort checked z s) }
    {
        let sort = self.char_sort();
        element_between(self.alloc, &at.spot, (0, i32::from(max)), sort, checked, z)
    }

    fn element_by(
        &self,
        at: &Reached<'a>,
        types: &'a Types,
        one: &TypeDef,
        checked: bool,
        z: i32,
    ) -> Result<Reached<'a>, Over>
        requires { (view_sort at.now.sort).table ≡ types.now }
        ensures { (s : State) → Comes view_reached result s (element_in (view_reached at.now) checked z (Some one.now) s) }
    {
        match one {
            TypeDef::ArrayOf { index, element } => {
                let sort = Sort::Of {
                    types,
                    ty: *element,
                };
                self.array_element(at, sort, *index, checked, z)
            }
            TypeDef::Str { max } => self.string_element(at, *max, checked, z),
            _ => Err(Over::Stuck),
        }
    }

    fn element_of(
        &self,
        at: &Reached<'a>,
        types: &'a Types,
        checked: bool,
        z: i32,
    ) -> Result<Reached<'a>, Over>
        requires { (view_sort at.now.sort).table ≡ types.now }
        ensures { (s : State) → Comes view_reached result s (element_in (view_reached at.now) checked z (definition (view_sort at.now.sort)) s) }
    {
        match at.sort.definition() {
            None => Err(Over::Stuck),
            Some(one) => self.element_by(at, types, one, checked, z),
        }
    }

    /// The place of an element. What stands in a table of its own has no element, and is answered as out of memory.
    pub fn element_at(
        &self,
        at: &Reached<'a>,
        checked: bool,
        index: &Value,
    ) -> Result<Reached<'a>, Over>
        ensures { (s : State) → Comes view_reached result s (indexed (view_reached at.now) checked (view_value index.now) s) }
    {
        let z = index.number()?;
        match at.sort {
            Sort::Alone(_) => Err(Over::OutOfMemory),
            Sort::Of { types, .. } => self.element_of(at, types, checked, z),
        }
    }
}
