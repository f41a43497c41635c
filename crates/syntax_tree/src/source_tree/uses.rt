//! The units that a source uses.

ghost use Rattle.std.specs.Prelude.{◌≡◌};
ghost use Rattle.syntax_tree.specs.source_tree.Sources.{used, used_in_interface};

use crate::Identifier;
use crate::source_tree::source::Tree;

/// The names of the used units, those of the interface part first.
pub fn uses_of(tree: &Tree) -> &[Identifier]
    ensures { result.now ≡ used tree.now }
{
    match tree {
        Tree::Program { uses, .. } => uses.as_slice(),
        Tree::Unit { uses, .. } => uses.as_slice(),
    }
}

/// How many of the used units the interface part names; in a program all.
pub fn interface_uses(tree: &Tree) -> usize
    ensures { result ≡ used_in_interface tree.now }
{
    match tree {
        Tree::Program { uses, .. } => uses.len(),
        Tree::Unit { interface_uses, .. } => *interface_uses,
    }
}
