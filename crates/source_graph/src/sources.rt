//! Sources.

use tp_lexer::source_directives::Directives;
use tp_parser::Tree;
use type_layout::Name;

/// A program or a unit: the name of its file in upper case, the number of its text among all that were read, what its directives
/// say for the whole of it, and its tree.
#[derive(Drop)]
pub struct Source {
    pub name: Name,
    pub text: u32,
    pub says: Directives,
    pub tree: Tree,
}
