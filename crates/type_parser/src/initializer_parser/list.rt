//! Values in parentheses as they are read.

ghost use Rattle.std.specs.Prelude.{◌≡◌, ◌++◌, IfErr, OnOk, List, [], ◌∷◌};
ghost use Rattle.pascal_grammar.specs.Productions.{list, initializer_list, no_initializers, no_field_values};
ghost use Rattle.syntax_tree.specs.Expressions.{of, mark_at};
ghost use Rattle.expression_parser.specs.declared.error.ReadError.TheVariants.{NoMemory};
ghost use Rattle.syntax_tree.specs.type_tree.Initializers.{of_initializer, value_list, field_value_list};

use expression_parser::ReadError;
use pascal_grammar::Position;
use std::alloc::Global;
use syntax_tree::type_tree::{FieldValue, Initializer};

/// The values of a list, so far.
#[derive(Drop)]
pub struct Values {
    pub items: Vec<Initializer>,
}

/// The values of fields, so far.
#[derive(Drop)]
pub struct FieldValues {
    pub items: Vec<FieldValue>,
}

impl Values {
    pub fn new(alloc: Global) -> Values
        ensures { result.items.items ≡ [] }
    {
        Values {
            items: Vec::new(alloc),
        }
    }

    pub fn push(&mut self, item: Initializer) -> Result<(), ReadError>
        ensures ok { OnOk result (self.new.items.items ≡ self.old.items.items ++ (item ∷ [])) }
        ensures err { IfErr result (λ e. e ≡ NoMemory) }
    {
        self.items.push(item)?;
        Ok(())
    }

    /// The list of these.
    pub fn into_list(self, position: Position) -> Initializer
        ensures { of_initializer result ≡ of list (of initializer_list (mark_at position ∷ value_list self.items.items (of no_initializers []) ∷ []) ∷ []) }
    {
        Initializer::List {
            position,
            items: self.items,
        }
    }
}

impl FieldValues {
    pub fn new(alloc: Global) -> FieldValues
        ensures { result.items.items ≡ [] }
    {
        FieldValues {
            items: Vec::new(alloc),
        }
    }

    pub fn push(&mut self, item: FieldValue) -> Result<(), ReadError>
        ensures ok { OnOk result (self.new.items.items ≡ self.old.items.items ++ (item ∷ [])) }
        ensures err { IfErr result (λ e. e ≡ NoMemory) }
    {
        self.items.push(item)?;
        Ok(())
    }

    /// The value of a record with these.
    pub fn into_record(self, position: Position) -> Initializer
        ensures { of_initializer result ≡ of list (of initializer_list (mark_at position ∷ field_value_list self.items.items (of no_field_values []) ∷ []) ∷ []) }
    {
        Initializer::Record {
            position,
            fields: self.items,
        }
    }
}
