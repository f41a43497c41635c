//! The law.

ghost use Rattle.initializer_meaning.specs.initializer_trees.Laws.{AreTreesOfInitializers};

/// The tree that a variable begins with, which the meaning reads of its bytes, is that of its first value; it does nothing.
pub fn first_tree_laws()
    ensures { AreTreesOfInitializers }
{}
