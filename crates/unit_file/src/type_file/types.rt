//! Reading the types of an interface.

ghost use Rattle.std.specs.Prelude.{◌≡◌, ◌<◌, ◌++◌, nat_lt, if◌then◌else◌, slice_get, option_map, Ok, Err, ℕ, List, [], IfOk};
ghost use Rattle.type_layout.specs.declared.definitions.TypeDef.{TypeDef};
ghost use Rattle.type_layout.specs.Table.{Table, place_of, IsAddable};
ghost use Rattle.type_layout.specs.Layouts.{size_over};
ghost use Rattle.object_file.specs.file_parts.Parts.{Gives, ruled, followed, ◌▷◌, byte_at, long_at, signed_at, option_at, name_at, made};
ghost use Rattle.unit_file.specs.type_file.Text.{empty_table, with_entry, table_of, types_text, AreTypes};
ghost use Rattle.unit_file.specs.type_file.Reading.{host_of, host_at, is_low, is_high, ordinal_at, is_ordinal, is_byte_range, is_object, passes, id_where, id_option_where, type_parts_at, type_at, entry_of, entry_at, entries_at, types_at};

use crate::type_file::entry::TypeEntry;
use crate::type_file::parts::{fields_of, header_of, id_below, id_option, methods_of};
use object_file::file_parts::{
    PartError, byte_of, damaged, long_of, name_of, option_of, signed_of, truth_of,
};
use std::alloc::Global;
use type_layout::{Host, Name, TypeDef, TypeError, TypeId, Types};

fn host_number(bytes: &[u8]) -> Result<(u8, &[u8]), PartError>
    ensures few { IfOk result (λ x. x.0 < 8) }
    ensures read { Gives (λ x. (x.0, x.1.now)) result (ruled (λ number. nat_lt number 8) byte_at bytes.now) }
{
    let (number, rest) = byte_of(bytes)?;
    if number >= 8 {
        return damaged(bytes.len());
    }
    Ok((number, rest))
}

fn host_with(number: u8) -> Host
    requires { number < 8 }
    ensures { result ≡ host_of number }
{
    match number {
        0 => Host::ShortInt,
        1 => Host::Byte,
        2 => Host::Integer,
        3 => Host::Word,
        4 => Host::LongInt,
        5 => Host::Char,
        6 => Host::Boolean,
        _ => Host::Enumeration,
    }
}

#[tactic(auto, unfolding(crate::specs::type_file::Reading::host_at))]
fn host_of(bytes: &[u8]) -> Result<(Host, &[u8]), PartError>
    ensures { Gives (λ x. (x.0, x.1.now)) result (host_at bytes.now) }
{
    let (number, rest) = host_number(bytes)?;
    Ok((host_with(number), rest))
}

fn low_of(host: Host, bytes: &[u8]) -> Result<(i32, &[u8]), PartError>
    ensures { Gives (λ x. (x.0, x.1.now)) result (ruled (is_low host) signed_at bytes.now) }
{
    let (low, rest) = signed_of(bytes)?;
    if !(host.least() <= low && low <= host.greatest()) {
        return damaged(bytes.len());
    }
    Ok((low, rest))
}

fn high_of(host: Host, low: i32, bytes: &[u8]) -> Result<(i32, &[u8]), PartError>
    ensures { Gives (λ x. (x.0, x.1.now)) result (ruled (is_high host low) signed_at bytes.now) }
{
    let (high, rest) = signed_of(bytes)?;
    if !(low <= high && high <= host.greatest()) {
        return damaged(bytes.len());
    }
    Ok((high, rest))
}

#[tactic(auto, unfolding(crate::specs::type_file::Reading::ordinal_at))]
fn ordinal_of(bytes: &[u8]) -> Result<(TypeDef, &[u8]), PartError>
    ensures { Gives (λ x. (x.0, x.1.now)) result (ordinal_at bytes.now) }
{
    let (host, rest) = host_of(bytes)?;
    let (low, rest) = low_of(host, rest)?;
    let (high, rest) = high_of(host, low, rest)?;
    Ok((TypeDef::Ordinal { host, low, high }, rest))
}

/// The type with a number, where the table has it.
fn type_with(types: &Types, number: u32) -> Option<&TypeDef>
    ensures { option_map (λ one. one.now) result ≡ slice_get types.now.types number }
{
    if number < types.count() {
        Some(types.get(TypeId(number)))
    } else {
        None
    }
}

fn is_ordinal(types: &Types, number: u32) -> bool
    ensures { result ≡ is_ordinal (slice_get types.now.types number) }
{
    matches!(type_with(types, number), Some(TypeDef::Ordinal { .. }))
}

fn is_byte_range(types: &Types, number: u32) -> bool
    ensures { result ≡ is_byte_range (slice_get types.now.types number) }
{
    match type_with(types, number) {
        Some(TypeDef::Ordinal { low, high, .. }) => 0 <= *low && *high <= 255,
        _ => false,
    }
}

fn is_object(types: &Types, number: u32) -> bool
    ensures { result ≡ is_object (slice_get types.now.types number) }
{
    matches!(type_with(types, number), Some(TypeDef::ObjectOf { .. }))
}

fn max_of(bytes: &[u8]) -> Result<(u8, &[u8]), PartError>
    ensures { Gives (λ x. (x.0, x.1.now)) result (ruled (λ max. nat_lt 0 max) byte_at bytes.now) }
{
    let (max, rest) = byte_of(bytes)?;
    if max == 0 {
        return damaged(bytes.len());
    }
    Ok((max, rest))
}

fn base_of<'a>(types: &Types, bytes: &'a [u8]) -> Result<(u32, &'a [u8]), PartError>
    ensures { Gives (λ x. (x.0, x.1.now)) result (ruled (λ number. is_byte_range (slice_get types.now.types number)) long_at bytes.now) }
{
    let (number, rest) = long_of(bytes)?;
    if !is_byte_range(types, number) {
        return damaged(bytes.len());
    }
    Ok((number, rest))
}

fn index_of<'a>(types: &Types, bytes: &'a [u8]) -> Result<(u32, &'a [u8]), PartError>
    ensures { Gives (λ x. (x.0, x.1.now)) result (ruled (λ number. is_ordinal (slice_get types.now.types number)) long_at bytes.now) }
{
    let (number, rest) = long_of(bytes)?;
    if !is_ordinal(types, number) {
        return damaged(bytes.len());
    }
    Ok((number, rest))
}

fn is_parent(types: &Types, parent: Option<u32>) -> bool
    ensures { result ≡ passes (λ number. is_object (slice_get types.now.types number)) parent }
{
    match parent {
        None => true,
        Some(number) => is_object(types, number),
    }
}

fn parent_number<'a>(types: &Types, bytes: &'a [u8]) -> Result<(Option<u32>, &'a [u8]), PartError>
    ensures { Gives (λ x. (x.0, x.1.now)) result (ruled (passes (λ number. is_object (slice_get types.now.types number))) option_at bytes.now) }
{
    let (parent, rest) = option_of(bytes)?;
    if !is_parent(types, parent) {
        return damaged(bytes.len());
    }
    Ok((parent, rest))
}

#[tactic(auto, unfolding(crate::specs::type_file::Reading::id_option_where))]
fn parent_of<'a>(types: &Types, bytes: &'a [u8]) -> Result<(Option<TypeId>, &'a [u8]), PartError>
    ensures { Gives (λ x. (x.0, x.1.now)) result (id_option_where (λ number. is_object (slice_get types.now.types number)) bytes.now) }
{
    let (parent, rest) = parent_number(types, bytes)?;
    Ok((id_option(parent), rest))
}

fn str_of(bytes: &[u8]) -> Result<(TypeDef, &[u8]), PartError>
    ensures { Gives (λ x. (x.0, x.1.now)) result (made TypeDef.Str (ruled (λ max. nat_lt 0 max) byte_at) bytes.now) }
{
    let (max, rest) = max_of(bytes)?;
    Ok((TypeDef::Str { max }, rest))
}

#[tactic(auto, unfolding(crate::specs::type_file::Reading::id_where))]
fn set_of<'a>(types: &Types, bytes: &'a [u8]) -> Result<(TypeDef, &'a [u8]), PartError>
    ensures { Gives (λ x. (x.0, x.1.now)) result (type_parts_at 0 types.now.types 0 2 bytes.now) }
{
    let (base, rest) = base_of(types, bytes)?;
    let base = TypeId(base);
    Ok((TypeDef::SetOf { base }, rest))
}

#[tactic(auto, unfolding(crate::specs::type_file::Reading::id_where))]
fn array_of<'a>(types: &Types, bytes: &'a [u8]) -> Result<(TypeDef, &'a [u8]), PartError>
    ensures { Gives (λ x. (x.0, x.1.now)) result (type_parts_at 0 types.now.types 0 3 bytes.now) }
{
    let (index, rest) = index_of(types, bytes)?;
    let index = TypeId(index);
    let (element, rest) = id_below(types.count(), rest)?;
    Ok((TypeDef::ArrayOf { index, element }, rest))
}

fn record_of<'a>(
    alloc: Global,
    types: &Types,
    bytes: &'a [u8],
) -> Result<(TypeDef, &'a [u8]), PartError>
    ensures { Gives (λ x. (x.0, x.1.now)) result (type_parts_at 0 types.now.types 0 4 bytes.now) }
{
    let (fields, rest) = fields_of(alloc, types.count(), bytes)?;
    Ok((TypeDef::RecordOf { fields }, rest))
}

fn pointer_to(count: u32, bytes: &[u8]) -> Result<(TypeDef, &[u8]), PartError>
    ensures { Gives (λ x. (x.0, x.1.now)) result (type_parts_at count [] 0 5 bytes.now) }
{
    let (target, rest) = id_below(count, bytes)?;
    Ok((TypeDef::PointerTo { target }, rest))
}

fn object_of<'a>(
    alloc: Global,
    count: u32,
    types: &Types,
    place: usize,
    bytes: &'a [u8],
) -> Result<(TypeDef, &'a [u8]), PartError>
    ensures { Gives (λ x. (x.0, x.1.now)) result (type_parts_at count types.now.types place 6 bytes.now) }
{
    let (parent, rest) = parent_of(types, bytes)?;
    let (dynamic, rest) = truth_of(rest)?;
    let (fields, rest) = fields_of(alloc, types.count(), rest)?;
    let (methods, rest) = methods_of(alloc, count, place, rest)?;
    let one = TypeDef::ObjectOf {
        parent,
        dynamic,
        fields,
        methods,
    };
    Ok((one, rest))
}

fn procedural(alloc: Global, count: u32, bytes: &[u8]) -> Result<(TypeDef, &[u8]), PartError>
    ensures { Gives (λ x. (x.0, x.1.now)) result (type_parts_at count [] 0 7 bytes.now) }
{
    let (header, rest) = header_of(alloc, count, bytes)?;
    Ok((TypeDef::Procedural { header }, rest))
}

fn parts_of<'a>(
    alloc: Global,
    count: u32,
    types: &Types,
    place: usize,
    tag: u8,
    bytes: &'a [u8],
) -> Result<(TypeDef, &'a [u8]), PartError>
    requires { tag < 8 }
    ensures { Gives (λ x. (x.0, x.1.now)) result (type_parts_at count types.now.types place tag bytes.now) }
{
    match tag {
        0 => ordinal_of(bytes),
        1 => str_of(bytes),
        2 => set_of(types, bytes),
        3 => array_of(types, bytes),
        4 => record_of(alloc, types, bytes),
        5 => pointer_to(count, bytes),
        6 => object_of(alloc, count, types, place, bytes),
        _ => procedural(alloc, count, bytes),
    }
}

fn tag_of(bytes: &[u8]) -> Result<(u8, &[u8]), PartError>
    ensures few { IfOk result (λ x. x.0 < 8) }
    ensures read { Gives (λ x. (x.0, x.1.now)) result (ruled (λ tag. nat_lt tag 8) byte_at bytes.now) }
{
    let (tag, rest) = byte_of(bytes)?;
    if tag >= 8 {
        return damaged(bytes.len());
    }
    Ok((tag, rest))
}

#[tactic(auto, unfolding(crate::specs::type_file::Reading::type_at))]
fn type_of<'a>(
    alloc: Global,
    count: u32,
    types: &Types,
    place: usize,
    bytes: &'a [u8],
) -> Result<(TypeDef, &'a [u8]), PartError>
    ensures { Gives (λ x. (x.0, x.1.now)) result (type_at count types.now.types place bytes.now) }
{
    let (tag, rest) = tag_of(bytes)?;
    parts_of(alloc, count, types, place, tag, rest)
}

/// The place of a unit among the units of a table, the next one where it is new.
fn place_of(types: &Types, unit: &Name) -> usize
    ensures { result ≡ place_of types.now.units unit.now }
{
    types.unit_place(unit).unwrap_or(types.units().len())
}

/// A type with its origin, over the types of a table, and the bytes behind it.
fn parts_of_entry<'a>(
    alloc: Global,
    count: u32,
    types: &Types,
    bytes: &'a [u8],
) -> Result<(TypeEntry, &'a [u8]), PartError>
    ensures { Gives (λ x. (x.0, x.1.now)) result (made entry_of (followed name_at (λ origin. long_at ▷ type_at count types.now.types (place_of types.now.units origin))) bytes.now) }
{
    let (origin, rest) = name_of(bytes)?;
    let (number, rest) = long_of(rest)?;
    let (one, rest) = type_of(alloc, count, types, place_of(types, &origin), rest)?;
    let entry = TypeEntry {
        origin,
        number,
        one,
    };
    Ok((entry, rest))
}

/// Adds a type that the table takes. One that passes the limit is damage where so many bytes are left.
fn add(types: &mut Types, entry: TypeEntry, left: usize) -> Result<(), PartError>
    requires { IsAddable types.old entry.origin entry.one }
    ensures { Gives (λ _. types.new) result (if nat_lt 65520 (size_over types.old.types entry.one) then Err left else Ok (with_entry types.old entry)) }
{
    match types.add(entry.origin, entry.number, entry.one) {
        Ok(_) => Ok(()),
        Err(TypeError::TooLarge { .. }) => damaged(left),
        Err(TypeError::NoMemory) => Err(PartError::NoMemory),
    }
}

/// Adds the type that the bytes begin with: the bytes behind it.
#[tactic(auto, unfolding(crate::specs::type_file::Reading::entry_at))]
fn add_entry<'a>(
    alloc: Global,
    count: u32,
    types: &mut Types,
    bytes: &'a [u8],
) -> Result<&'a [u8], PartError>
    ensures { Gives (λ rest. (types.new, rest.now)) result (made (with_entry types.old) (entry_at count types.old) bytes.now) }
{
    let (entry, rest) = parts_of_entry(alloc, count, types, bytes)?;
    add(types, entry, rest.len() + 4)?;
    Ok(rest)
}

fn entries_of(alloc: Global, count: u32, bytes: &[u8]) -> Result<(Types, &[u8]), PartError>
    ensures { Gives (λ x. (x.0, x.1.now)) result (made (table_of empty_table) (entries_at count count empty_table) bytes.now) }
{
    let mut types = Types::new(alloc);
    let mut rest = bytes;
    for _ in 0..count {
        rest = add_entry(alloc, count, &mut types, rest)?;
    }
    Ok((types, rest))
}

#[tactic(auto, unfolding(crate::specs::type_file::Reading::types_at))]
fn types(alloc: Global, bytes: &[u8]) -> Result<(Types, &[u8]), PartError>
    ensures { Gives (λ x. (x.0, x.1.now)) result (types_at bytes.now) }
{
    let (count, rest) = long_of(bytes)?;
    entries_of(alloc, count, rest)
}

/// The types of an interface, by their numbers, and the bytes behind them. `Damaged` comes exactly where the bytes begin
/// with none, at the first part that breaks a rule given the parts before it.
pub fn types_of(alloc: Global, bytes: &[u8]) -> Result<(Types, &[u8]), PartError>
    // What is read is spelled so.
    ensures found { IfOk result (λ x. AreTypes x.0 × (bytes.now ≡ types_text x.0 ++ x.1.now)) }
    // What is spelled so is read, unless memory runs out.
    ensures only { (table : Table) (rest : List ℕ) → AreTypes table → bytes.now ≡ types_text table ++ rest
        → Gives {B = Table × List ℕ} (λ x. (x.0, x.1.now)) result (Ok (table, rest)) }
    // What the parts in their order give: the types, or the place of damage.
    ensures exact { Gives (λ x. (x.0, x.1.now)) result (types_at bytes.now) }
{
    types(alloc, bytes)
}
