//! Blocks of the heap, and the sizes of instances.

ghost use Rattle.std.specs.Prelude.{◌≡◌, is_some, IfOk};
ghost use Rattle.std.specs.Option.{option_map};
ghost use Rattle.tp_meaning.specs.Shapes.{parts_at, class_place};
ghost use Rattle.tp_meaning.specs.Standard.{made, made_for, disposed_by, instance_size, size_freed, size_of_variable, target};
ghost use Rattle.interpreter_store.specs.cell_store.Views.{view_key, view_value, view_store};
ghost use Rattle.interpreter_store.specs.cell_store.Finding.{Gets};
ghost use Rattle.interpreter_store.specs.typed_cells.Sorts.{view_sort, view_reached};

use crate::program_names::{class_size, heap_of, size_in};
use interpreter_store::cell_store::{Key, Stop, Store, Trap, Value};
use interpreter_store::typed_cells::{Reached, Sort, class_place, new_tree, parts_of_type};
use std::alloc::{AllocError, Global};
use type_layout::TypeDef;
use typed_tree::Program;

/// What a pointer type points to. A pointer type in a table of its own, which no program has, is answered as out of memory.
pub fn target<'a>(sort: &Sort<'a>) -> Result<Sort<'a>, Stop>
    ensures { Gets view_sort result (target (view_sort sort.now)) }
{
    match sort.definition() {
        Some(TypeDef::PointerTo { target }) => match sort {
            Sort::Alone(_) => Err(Stop::OutOfMemory),
            Sort::Of { types, .. } => Ok(Sort::Of { types, ty: *target }),
        },
        _ => Err(Stop::Trapped(Trap::IllTyped)),
    }
}

/// Makes a block for a type, which has the next serial number.
#[tactic(auto, using(interpreter_store::proofs::cell_store::Heaps::made_is))]
pub fn make(alloc: Global, program: &Program, sort: &Sort, store: &mut Store) -> Result<(), Stop>
    ensures { Gets (λ _. view_store store.new) result (made program.now (view_sort sort.now) (view_store store.old)) }
{
    let Sort::Of { types, ty } = sort else {
        return Err(Stop::OutOfMemory);
    };
    let tree = new_tree(alloc, types, *ty)?;
    let bytes = size_in(sort)?;
    store.make(tree, bytes, heap_of(program))
}

/// Makes a block to which a pointer variable then leads.
pub(crate) fn make_for(
    alloc: Global,
    program: &Program,
    at: &Reached,
    store: &mut Store,
) -> Result<(), Stop>
    ensures { Gets (λ _. view_store store.new) result (made_for program.now (view_reached at.now) (view_store store.old)) }
{
    let sort = target(&at.sort)?;
    let serial = store.next_serial();
    make(alloc, program, &sort, store)?;
    at.assign(alloc, &Value::Block(serial), store)
}

/// Disposes of a block by the size of the type that its pointer points to. For nil it is error 204.
pub(crate) fn disposed_by(sort: &Sort, value: &Value, store: &mut Store) -> Result<(), Stop>
    ensures { Gets (λ _. view_store store.new) result (disposed_by (view_sort sort.now) (view_value value.now) (view_store store.old)) }
{
    match value {
        Value::Nil => Err(Stop::Trapped(Trap::Error(204))),
        Value::Block(serial) => {
            let to = target(sort)?;
            store.dispose(*serial, size_in(&to)?)?;
            Ok(())
        }
        _ => Err(Stop::Trapped(Trap::IllTyped)),
    }
}

/// The size of an instance, which is that of its class. One that has none is an unset cell.
pub fn instance_size(program: &Program, class: &Option<Key>) -> Result<u16, Stop>
    ensures { Gets (λ bytes. bytes) result (instance_size program.now (option_map view_key class.now)) }
{
    match class {
        None => Err(Stop::Trapped(Trap::Act(1))),
        Some(class) => match class_size(program, class)? {
            None => Err(Stop::Trapped(Trap::IllTyped)),
            Some(bytes) => Ok(bytes),
        },
    }
}

/// The size of the class that an instance has as its block is freed.
pub fn size_freed(
    alloc: Global,
    program: &Program,
    at: &Reached,
    store: &Store,
) -> Result<u16, Stop>
    ensures { Gets (λ bytes. bytes) result (size_freed program.now (view_reached at.now) (view_store store.now)) }
{
    let class = at.class(alloc, store)?;
    instance_size(program, &class)
}

// Whether values of a type have a class. What stands in a table of its own is an ordinal; any other type there is answered as out of memory.
fn has_class(alloc: Global, sort: &Sort) -> Result<bool, AllocError>
    ensures { IfOk result (λ has. let sort = view_sort sort.now in has ≡ is_some (class_place (parts_at sort.table.types sort.ty))) }
{
    match sort {
        Sort::Alone(TypeDef::Ordinal { .. }) => Ok(false),
        Sort::Alone(_) => Err(AllocError),
        Sort::Of { types, ty } => {
            let parts = parts_of_type(alloc, types, *ty)?;
            Ok(class_place(parts.as_slice()).is_some())
        }
    }
}

/// SizeOf: of an instance with a class field it is the size of its class.
pub(crate) fn size_of_variable(
    alloc: Global,
    program: &Program,
    at: &Reached,
    store: &Store,
) -> Result<Value, Stop>
    ensures { Gets view_value result (size_of_variable program.now (view_reached at.now) (view_store store.now)) }
{
    let bytes = if has_class(alloc, &at.sort)? {
        size_freed(alloc, program, at, store)?
    } else {
        size_in(&at.sort)?
    };
    Ok(Value::Ordinal(i32::from(bytes)))
}
