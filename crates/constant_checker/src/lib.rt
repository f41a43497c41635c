//! Constants and initializers.
#![tactic(auto)]

pub mod constant_expressions;
pub mod stored_values;
pub mod typed_constants;

pub use call_rules;
pub use call_rules::object_vmt;
pub use pascal_grammar;
pub use scopes;
pub use syntax_tree;
pub use tp_lexer;
pub use type_layout;
pub use typed_tree;
pub use typing_rules;
