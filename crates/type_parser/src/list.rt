//! Index types and fields as they are read.

ghost use Rattle.std.specs.Prelude.{◌≡◌, ◌++◌, IfErr, IfOk, OnOk, List, [], ◌∷◌};
ghost use Rattle.pascal_grammar.specs.Productions.{array_type, record_type, object_type, set_type, no_index_types};
ghost use Rattle.syntax_tree.specs.Expressions.{of, word, mark_at};
ghost use Rattle.expression_parser.specs.declared.error.ReadError.TheVariants.{NoMemory};
ghost use Rattle.type_parser.specs.Views.{indexes_of, fields_of, object_part_of};
ghost use Rattle.syntax_tree.specs.type_tree.Types.{of_type, of_structured, ancestor_of};

use expression_parser::ReadError;
use pascal_grammar::Position;
use std::alloc::Global;
use syntax_tree::Identifier;
use syntax_tree::type_tree::{FieldGroup, Method, StructuredType, TypeDenoter};

/// The types of the indexes of an array, so far.
#[derive(Drop)]
pub struct IndexTypes {
    pub items: Vec<TypeDenoter>,
}

/// The fields of a record or an object, so far.
#[derive(Drop)]
pub struct Groups {
    pub items: Vec<FieldGroup>,
}

/// The fields and the methods of an object, and whether a semicolon stands behind the last fields.
#[derive(Drop)]
pub struct ObjectPart {
    pub groups: Groups,
    pub semicolon: bool,
    pub methods: Vec<Method>,
}

impl IndexTypes {
    pub fn new(alloc: Global) -> IndexTypes
        ensures { result.items.items ≡ [] }
    {
        IndexTypes {
            items: Vec::new(alloc),
        }
    }

    pub fn push(&mut self, item: TypeDenoter) -> Result<(), ReadError>
        ensures ok { OnOk result (self.new.items.items ≡ self.old.items.items ++ (item ∷ [])) }
        ensures err { IfErr result (λ e. e ≡ NoMemory) }
    {
        self.items.push(item)?;
        Ok(())
    }

    /// The array with these.
    pub fn into_array(
        self,
        alloc: Global,
        position: Position,
        element: TypeDenoter,
    ) -> Result<StructuredType, ReadError>
        ensures ok { IfOk result (λ x. of_structured x ≡ of array_type (mark_at position ∷ indexes_of self.items.items (of no_index_types []) ∷ word ∷ of_type element ∷ [])) }
        ensures err { IfErr result (λ e. e ≡ NoMemory) }
    {
        let element = Box::new(alloc, element)?;
        Ok(StructuredType::Array {
            position,
            indexes: self.items,
            element,
        })
    }
}

impl Groups {
    pub fn new(alloc: Global) -> Groups
        ensures { result.items.items ≡ [] }
    {
        Groups {
            items: Vec::new(alloc),
        }
    }

    pub fn push(&mut self, item: FieldGroup) -> Result<(), ReadError>
        ensures ok { OnOk result (self.new.items.items ≡ self.old.items.items ++ (item ∷ [])) }
        ensures err { IfErr result (λ e. e ≡ NoMemory) }
    {
        self.items.push(item)?;
        Ok(())
    }

    /// The record of these fields.
    pub fn into_record(self, position: Position, semicolon: bool) -> StructuredType
        ensures { of_structured result ≡ of record_type (mark_at position ∷ fields_of self.items.items semicolon ∷ word ∷ []) }
    {
        StructuredType::Record {
            position,
            fields: self.items,
            semicolon,
        }
    }
}

impl ObjectPart {
    /// The object type with this ancestor.
    pub fn into_object(self, position: Position, ancestor: Option<Identifier>) -> TypeDenoter
        ensures { of_type result ≡ of object_type (mark_at position ∷ ancestor_of ancestor ∷ object_part_of self.groups.items.items self.semicolon self.methods.items ∷ []) }
    {
        TypeDenoter::Object {
            position,
            ancestor,
            fields: self.groups.items,
            semicolon: self.semicolon,
            methods: self.methods,
        }
    }
}

/// The sets of this type.
pub fn set_of(
    alloc: Global,
    position: Position,
    element: TypeDenoter,
) -> Result<StructuredType, ReadError>
    ensures ok { IfOk result (λ x. of_structured x ≡ of set_type (mark_at position ∷ word ∷ of_type element ∷ [])) }
    ensures err { IfErr result (λ e. e ≡ NoMemory) }
{
    let element = Box::new(alloc, element)?;
    Ok(StructuredType::Set { position, element })
}
