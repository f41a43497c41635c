//! The laws of the store.

ghost use Rattle.std.specs.Prelude.{◌≡◌};
ghost use Rattle.typed_tree.specs.declared.units.Program.{Program};
ghost use Rattle.tp_meaning.specs.Shapes.{new_tree};
ghost use Rattle.tp_meaning.specs.Store.{Store};
ghost use Rattle.tp_meaning.specs.Programs.{Sort, size_in, heap_of};
ghost use Rattle.tp_meaning.specs.Standard.{made};
ghost use Rattle.interpreter_store.specs.cell_store.Parts.{block_made};

/// New makes a block as `Store::make` does: with the tree of a new variable, the size of its type, and the program's heap. It
/// does nothing.
pub fn store_laws()
    ensures { (program : Program) (sort : Sort) (store : Store) → made program sort store ≡ block_made (new_tree sort.table.types sort.ty) (size_in sort) (heap_of program) store }
{}
