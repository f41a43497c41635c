//! Types.

use crate::outcome::put_outcome;
use expression_parser::ReadError;
use pascal_grammar::Lexeme;
use std::alloc::Global;
use syntax_tree::type_tree::{
    FieldGroup, MethodHeader, NamedType, ParameterGroup, PointerTarget, StructuredType, TypeDenoter,
};
use test_rows::{Line, put};
use type_parser::read_type;

fn structured(structured: &StructuredType) -> &'static str {
    match structured {
        StructuredType::Array { indexes, .. } if indexes.len() == 2 => "array of two indexes",
        StructuredType::Array { .. } => "array",
        StructuredType::Record {
            semicolon: true,
            fields,
            ..
        } if fields.len() == 2 => "record of two groups, semicolon",
        StructuredType::Record { fields, .. } => match fields.as_slice() {
            [FieldGroup::Fields { names, .. }] if names.len() == 2 => "record of one group of two",
            _ => "record",
        },
        StructuredType::Set { .. } => "set",
    }
}

fn parameters(parameters: &[ParameterGroup]) -> &'static str {
    match parameters {
        [] => "no parameters",
        [
            ParameterGroup::Value { names, .. },
            ParameterGroup::Variable {
                of: NamedType::String(_),
                ..
            },
        ] if names.len() == 2 => "two values, a variable string",
        _ => "parameters",
    }
}

fn shape(read: &TypeDenoter) -> &'static str {
    match read {
        TypeDenoter::Name(_) => "name",
        TypeDenoter::Range(_, _) => "range",
        TypeDenoter::Enumeration { names, .. } if names.len() == 3 => "three constants",
        TypeDenoter::Pointer {
            target: PointerTarget::Letter(_),
            ..
        } => "pointer to a letter",
        TypeDenoter::Pointer { .. } => "pointer",
        TypeDenoter::String {
            length: Some(_),
            ..
        } => "string of a length",
        TypeDenoter::String { .. } => "string",
        TypeDenoter::Procedure {
            parameters: all,
            ..
        } => parameters(all.as_slice()),
        TypeDenoter::Object {
            ancestor: Some(_),
            fields,
            methods,
            ..
        } if fields.len() == 1 => match methods.as_slice() {
            [method] if method.is_virtual => match method.header {
                MethodHeader::Function { .. } => "descendant with a virtual function",
                _ => "descendant",
            },
            _ => "descendant",
        },
        TypeDenoter::Packed { inner, .. } | TypeDenoter::Structured(inner) => structured(inner),
        _ => "other",
    }
}

fn shape_read(read: &Result<(TypeDenoter, &[Lexeme]), ReadError>) -> &'static str {
    match read {
        Ok((read, rest)) if rest.is_empty() => shape(read),
        _ => "none",
    }
}

/// Writes what the tree of a type holds, or the outcome.
pub(crate) fn put_type(alloc: Global, out: &mut Line, as_tree: bool, lexemes: &[Lexeme]) {
    let read = read_type(alloc, 200, lexemes);
    if as_tree {
        put(out, shape_read(&read));
    } else {
        put_outcome(out, lexemes, &read);
    }
}
