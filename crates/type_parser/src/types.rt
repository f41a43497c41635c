//! Reading types.

ghost use Rattle.std.specs.Prelude.{◌≡◌, List, [], ◌∷◌};
ghost use Rattle.pascal_grammar.specs.Productions.{structured_type, packed_structured, no_index_types};
ghost use Rattle.ll1_grammar.specs.Readers.{made};
ghost use Rattle.syntax_tree.specs.Expressions.{of};
ghost use Rattle.expression_parser.specs.Gives.{Gives};
ghost use Rattle.type_parser.specs.Reading.{typed_inside, type_at, packed_at, structured_at, array_at, record_at, set_at, object_at, index_types_at, index_list_at, fields_at, object_part_at, groups_at, group_at};
ghost use Rattle.type_parser.specs.Views.{indexes_of, fields_of, object_part_of, groups_of, group_of};
ghost use Rattle.syntax_tree.specs.type_tree.Types.{of_type, of_structured, index_type_list};

use crate::list::{Groups, IndexTypes, ObjectPart, set_of};
use crate::lookahead::{
    StructuredStart, TypeStart, begins_name, deeper, goes_on, structured_start, type_start,
};
use crate::object::{fields_end, methods_end, object_end};
use crate::parameter_parser::read_identifiers;
use crate::plain::{ancestor, enumeration_type, functional_type, procedural_type, string_type};
use crate::range::{caret_type, named_type, range};
use expression_parser::{ReadError, begins, mark, skip, tail};
use pascal_grammar::{Kind, Lexeme, Omission};
use std::alloc::Global;
use syntax_tree::type_tree::{FieldGroup, StructuredType, TypeDenoter};

#[cycle(types)]
#[tactic(auto, unfolding(crate::specs::Reading::type_by))]
pub fn next_type(
    alloc: Global,
    depth: u32,
    lexemes: &[Lexeme],
) -> Result<(TypeDenoter, &[Lexeme]), ReadError>
    ensures gives { Gives (λ x. (of_type x.0, x.1.now)) result (type_at depth (typed_inside depth) lexemes.now) }
{
    match type_start(lexemes) {
        TypeStart::Name => named_type(alloc, depth, lexemes),
        TypeStart::Caret => caret_type(alloc, depth, lexemes),
        TypeStart::String => string_type(alloc, depth, lexemes),
        TypeStart::Enumeration => enumeration_type(alloc, depth, lexemes),
        TypeStart::Procedure => procedural_type(alloc, depth, lexemes),
        TypeStart::Function => functional_type(alloc, depth, lexemes),
        TypeStart::Object => next_object(alloc, depth, lexemes),
        TypeStart::Packed => {
            let (position, rest) = mark(lexemes, Kind::Packed)?;
            let (inner, rest) = next_packed(alloc, depth, rest)?;
            Ok((TypeDenoter::Packed { position, inner }, rest))
        }
        TypeStart::Structured => {
            let (inner, rest) = next_structured(alloc, depth, lexemes)?;
            Ok((TypeDenoter::Structured(inner), rest))
        }
        TypeStart::File => Err(ReadError::LeftOut(Omission::FileType, lexemes.len())),
        TypeStart::Range => range(alloc, depth, lexemes),
    }
}

/// What is packed, and what stands behind it.
#[cycle(types)]
#[tactic(auto, unfolding(crate::specs::Reading::packed_by))]
fn next_packed(
    alloc: Global,
    depth: u32,
    lexemes: &[Lexeme],
) -> Result<(StructuredType, &[Lexeme]), ReadError>
    ensures gives { Gives (λ x. (of packed_structured (of_structured x.0 ∷ []), x.1.now)) result (packed_at (typed_inside depth) lexemes.now) }
{
    if begins(lexemes, Kind::File) {
        return Err(ReadError::LeftOut(Omission::PackedFile, lexemes.len()));
    }
    let (inner, rest) = next_structured(alloc, depth, lexemes)?;
    Ok((inner, rest))
}

#[cycle(types)]
#[tactic(auto, unfolding(crate::specs::Reading::structured_by))]
fn next_structured(
    alloc: Global,
    depth: u32,
    lexemes: &[Lexeme],
) -> Result<(StructuredType, &[Lexeme]), ReadError>
    ensures gives { Gives (λ x. (of_structured x.0, x.1.now)) result (structured_at (typed_inside depth) lexemes.now) }
{
    match structured_start(lexemes) {
        StructuredStart::Array => next_array(alloc, depth, lexemes),
        StructuredStart::Record => next_record(alloc, depth, lexemes),
        StructuredStart::Set => next_set(alloc, depth, lexemes),
        StructuredStart::Nothing => Err(ReadError::Syntax(lexemes.len())),
    }
}

#[cycle(types)]
#[tactic(auto, unfolding(crate::specs::Reading::array_at))]
fn next_array(
    alloc: Global,
    depth: u32,
    lexemes: &[Lexeme],
) -> Result<(StructuredType, &[Lexeme]), ReadError>
    ensures gives { Gives (λ x. (of_structured x.0, x.1.now)) result (array_at (typed_inside depth) lexemes.now) }
{
    let depth = deeper(depth, lexemes)?;
    let (position, rest) = mark(lexemes, Kind::Array)?;
    let (indexes, rest) = next_index_types(alloc, depth, rest)?;
    let rest = skip(rest, Kind::Of)?;
    let (element, rest) = next_type(alloc, depth, rest)?;
    let whole = indexes.into_array(alloc, position, element)?;
    Ok((whole, rest))
}

/// The types of indexes in brackets, and what stands behind them.
#[cycle(types)]
#[tactic(auto, unfolding(crate::specs::Reading::index_types_by))]
fn next_index_types(
    alloc: Global,
    depth: u32,
    lexemes: &[Lexeme],
) -> Result<(IndexTypes, &[Lexeme]), ReadError>
    ensures gives { Gives (λ x. (indexes_of x.0.items.items (of no_index_types []), x.1.now)) result (index_types_at (typed_inside depth) lexemes.now) }
{
    if !begins(lexemes, Kind::OpenBracket) {
        return Err(ReadError::Syntax(lexemes.len()));
    }
    let depth = deeper(depth, lexemes)?;
    let rest = skip(lexemes, Kind::OpenBracket)?;
    let (all, rest) = next_index_list(alloc, depth, rest)?;
    let rest = skip(rest, Kind::CloseBracket)?;
    Ok((all, rest))
}

#[cycle(types)]
#[tactic(auto, unfolding(crate::specs::Reading::index_list_at))]
fn next_index_list(
    alloc: Global,
    depth: u32,
    lexemes: &[Lexeme],
) -> Result<(IndexTypes, &[Lexeme]), ReadError>
    ensures gives { Gives (λ x. (index_type_list x.0.items.items (of no_index_types []), x.1.now)) result (index_list_at depth (typed_inside depth) lexemes.now) }
{
    let mut all = IndexTypes::new(alloc);
    let (first, mut rest) = next_type(alloc, depth, lexemes)?;
    all.push(first)?;
    'commas: while begins(rest, Kind::Comma) {
        let (next, after) = next_type(alloc, depth, tail(rest))?;
        all.push(next)?;
        rest = after;
    }
    Ok((all, rest))
}

#[cycle(types)]
#[tactic(auto, unfolding(crate::specs::Reading::record_at))]
fn next_record(
    alloc: Global,
    depth: u32,
    lexemes: &[Lexeme],
) -> Result<(StructuredType, &[Lexeme]), ReadError>
    ensures gives { Gives (λ x. (of_structured x.0, x.1.now)) result (record_at (typed_inside depth) lexemes.now) }
{
    let depth = deeper(depth, lexemes)?;
    let (position, rest) = mark(lexemes, Kind::Record)?;
    let (fields, semicolon, rest) = next_fields(alloc, depth, rest)?;
    let rest = skip(rest, Kind::End)?;
    Ok((fields.into_record(position, semicolon), rest))
}

/// The fields of a record, whether a semicolon stands behind the last of them, and what stands behind that.
#[cycle(types)]
#[tactic(auto, unfolding(crate::specs::Reading::fields_by))]
fn next_fields(
    alloc: Global,
    depth: u32,
    lexemes: &[Lexeme],
) -> Result<(Groups, bool, &[Lexeme]), ReadError>
    ensures gives { Gives (λ x. (fields_of x.0.items.items x.1, x.2.now)) result (fields_at (type_at depth (typed_inside depth)) lexemes.now) }
{
    if begins_name(lexemes) {
        let (groups, rest) = next_groups(alloc, depth, lexemes)?;
        let (semicolon, rest) = fields_end(rest)?;
        return Ok((groups, semicolon, rest));
    }
    if begins(lexemes, Kind::Case) {
        return Err(ReadError::LeftOut(Omission::Variants, lexemes.len()));
    }
    Ok((Groups::new(alloc), false, lexemes))
}

/// Fields behind semicolons, at least one group, and what stands behind the last that a name follows.
#[cycle(types)]
#[tactic(auto, unfolding(crate::specs::Reading::groups_at))]
fn next_groups(
    alloc: Global,
    depth: u32,
    lexemes: &[Lexeme],
) -> Result<(Groups, &[Lexeme]), ReadError>
    ensures gives { Gives (λ x. (groups_of x.0.items.items, x.1.now)) result (groups_at (type_at depth (typed_inside depth)) lexemes.now) }
{
    let mut all = Groups::new(alloc);
    let (first, mut rest) = next_group(alloc, depth, lexemes)?;
    all.push(first)?;
    'groups: while goes_on(rest) {
        let (next, after) = next_group(alloc, depth, tail(rest))?;
        all.push(next)?;
        rest = after;
    }
    Ok((all, rest))
}

#[cycle(types)]
#[tactic(auto, unfolding(crate::specs::Reading::group_at))]
fn next_group(
    alloc: Global,
    depth: u32,
    lexemes: &[Lexeme],
) -> Result<(FieldGroup, &[Lexeme]), ReadError>
    ensures gives { Gives (λ x. (group_of x.0, x.1.now)) result (group_at (type_at depth (typed_inside depth)) lexemes.now) }
{
    let (names, rest) = read_identifiers(alloc, lexemes)?;
    let rest = skip(rest, Kind::Colon)?;
    let (of, rest) = next_type(alloc, depth, rest)?;
    Ok((FieldGroup::Fields { names, of }, rest))
}

#[cycle(types)]
#[tactic(auto, unfolding(crate::specs::Reading::set_at))]
fn next_set(
    alloc: Global,
    depth: u32,
    lexemes: &[Lexeme],
) -> Result<(StructuredType, &[Lexeme]), ReadError>
    ensures gives { Gives (λ x. (of_structured x.0, x.1.now)) result (set_at (typed_inside depth) lexemes.now) }
{
    let depth = deeper(depth, lexemes)?;
    let (position, rest) = mark(lexemes, Kind::Set)?;
    let rest = skip(rest, Kind::Of)?;
    let (element, rest) = next_type(alloc, depth, rest)?;
    let whole = set_of(alloc, position, element)?;
    Ok((whole, rest))
}

#[cycle(types)]
#[tactic(auto, unfolding(crate::specs::Reading::object_at))]
fn next_object(
    alloc: Global,
    depth: u32,
    lexemes: &[Lexeme],
) -> Result<(TypeDenoter, &[Lexeme]), ReadError>
    ensures gives { Gives (λ x. (of_type x.0, x.1.now)) result (object_at (typed_inside depth) lexemes.now) }
{
    let depth = deeper(depth, lexemes)?;
    let (position, rest) = mark(lexemes, Kind::Object)?;
    let (ancestor, rest) = ancestor(depth, rest)?;
    let (part, rest) = next_object_part(alloc, depth, rest)?;
    Ok((part.into_object(position, ancestor), rest))
}

/// The fields and methods of an object with the word behind them, and what stands behind that.
#[cycle(types)]
#[tactic(auto, unfolding(crate::specs::Reading::object_part_by))]
fn next_object_part(
    alloc: Global,
    depth: u32,
    lexemes: &[Lexeme],
) -> Result<(ObjectPart, &[Lexeme]), ReadError>
    ensures gives { Gives (λ x. (object_part_of x.0.groups.items.items x.0.semicolon x.0.methods.items, x.1.now)) result (object_part_at depth (type_at depth (typed_inside depth)) lexemes.now) }
{
    if !begins_name(lexemes) {
        let (methods, rest) = methods_end(alloc, depth, lexemes)?;
        let whole = ObjectPart {
            groups: Groups::new(alloc),
            semicolon: false,
            methods,
        };
        return Ok((whole, rest));
    }
    let (groups, rest) = next_groups(alloc, depth, lexemes)?;
    let (semicolon, methods, rest) = object_end(alloc, depth, rest)?;
    let whole = ObjectPart {
        groups,
        semicolon,
        methods,
    };
    Ok((whole, rest))
}
