//! What is known without a declaration.

ghost use Rattle.std.specs.Prelude.{◌≡◌, ◌+◌, ◌<◌, ◌^◌, Some, IfOk, OnOk, length, map, slice_get};
ghost use Rattle.scopes.specs.Growth.{IsGrown};
ghost use Rattle.scopes.specs.Predeclared.{system, whole, type_list, type_table, with_known, number_entry, with_types, with_constants, with_standard, predeclared};

use crate::{Entry, Symbols};
use std::alloc::{AllocError, Global};
use type_layout::{Host, Name, TypeDef, TypeId, Types};
use typed_tree::Value;
use typed_tree::standard::{
    ABS, CHR, CONCAT, COPY, DEC, DELETE, DISPOSE, EOF, EOLN, EXIT, HALT, HI, INC, INSERT, LENGTH,
    LO, NEW, ODD, ORD, POS, PRED, READ, READ_LN, SIZE_OF, SQR, STR, SUCC, SWAP, UP_CASE, VAL,
    WRITE, WRITE_LN,
};

/// The predeclared types, by their ids in the table of each scope. Their origins are in the unit SYSTEM, with the same
/// numbers.
pub const SHORT_INT: TypeId = TypeId(0);

pub const BYTE: TypeId = TypeId(1);

pub const INTEGER: TypeId = TypeId(2);

pub const WORD: TypeId = TypeId(3);

pub const LONG_INT: TypeId = TypeId(4);

pub const CHAR: TypeId = TypeId(5);

pub const BOOLEAN: TypeId = TypeId(6);
/// `string`, the texts of at most 255 bytes.
pub const STRING: TypeId = TypeId(7);
/// The sets of 0..255, of Char and of Boolean.
pub const SET_OF_BYTE: TypeId = TypeId(8);

pub const SET_OF_CHAR: TypeId = TypeId(9);

pub const SET_OF_BOOLEAN: TypeId = TypeId(10);

// How many types are predeclared.
const COUNT: u32 = 11;

// The names of the first predeclared types, by their ids.
const TYPE_NAMES: [&[u8]; 7] = [
    b"SHORTINT",
    b"BYTE",
    b"INTEGER",
    b"WORD",
    b"LONGINT",
    b"CHAR",
    b"BOOLEAN",
];

// The names of the standard routines, with their numbers.
const STANDARD: [(&[u8], u32); 32] = [
    (b"ABS", ABS),
    (b"SQR", SQR),
    (b"ODD", ODD),
    (b"ORD", ORD),
    (b"CHR", CHR),
    (b"SUCC", SUCC),
    (b"PRED", PRED),
    (b"INC", INC),
    (b"DEC", DEC),
    (b"HI", HI),
    (b"LO", LO),
    (b"SWAP", SWAP),
    (b"SIZEOF", SIZE_OF),
    (b"UPCASE", UP_CASE),
    (b"LENGTH", LENGTH),
    (b"COPY", COPY),
    (b"DELETE", DELETE),
    (b"INSERT", INSERT),
    (b"CONCAT", CONCAT),
    (b"POS", POS),
    (b"STR", STR),
    (b"VAL", VAL),
    (b"WRITE", WRITE),
    (b"WRITELN", WRITE_LN),
    (b"READ", READ),
    (b"READLN", READ_LN),
    (b"EOF", EOF),
    (b"EOLN", EOLN),
    (b"NEW", NEW),
    (b"DISPOSE", DISPOSE),
    (b"HALT", HALT),
    (b"EXIT", EXIT),
];

fn system() -> Name
    ensures { result ≡ system }
{
    match Name::new(b"SYSTEM") {
        Some(name) => name,
        None => unreachable!(),
    }
}

// All values of a host.
fn whole(host: Host) -> TypeDef
    ensures { result ≡ whole host }
{
    let (low, high) = match host {
        Host::ShortInt => (-128, 127),
        Host::Byte | Host::Char | Host::Enumeration => (0, 255),
        Host::Integer => (-32_768, 32_767),
        Host::Word => (0, 65_535),
        Host::LongInt => (i32::MIN, i32::MAX),
        Host::Boolean => (0, 1),
    };
    TypeDef::Ordinal { host, low, high }
}

fn type_of(number: u32) -> TypeDef
    requires { number < COUNT }
    ensures { slice_get type_list number ≡ Some result }
{
    match number {
        0 => whole(Host::ShortInt),
        1 => whole(Host::Byte),
        2 => whole(Host::Integer),
        3 => whole(Host::Word),
        4 => whole(Host::LongInt),
        5 => whole(Host::Char),
        6 => whole(Host::Boolean),
        7 => TypeDef::Str { max: 255 },
        8 => TypeDef::SetOf { base: BYTE },
        9 => TypeDef::SetOf { base: CHAR },
        _ => TypeDef::SetOf { base: BOOLEAN },
    }
}

/// The table of the predeclared types.
pub(crate) fn type_table(alloc: Global) -> Result<Types, AllocError>
    ensures table { IfOk result (λ types. types ≡ type_table) }
    ensures grown { IsGrown type_table }
{
    let mut types = Types::new(alloc);
    for number in 0..COUNT {
        match types.add(system(), number, type_of(number)) {
            Ok(_) => {}
            Err(_) => return Err(AllocError),
        }
    }
    Ok(types)
}

// Puts a name at the end, where these bytes are one and it is new.
#[tactic(auto, unfolding(crate::specs::Predeclared::with_known))]
fn know(symbols: &mut Symbols, name: &[u8], entry: Entry) -> Result<(), AllocError>
    ensures { OnOk result (symbols.new ≡ with_known symbols.old name.now entry) }
{
    if let Some(name) = Name::new(name) {
        let _is_new = symbols.enter(name, entry)?;
    }
    Ok(())
}

// The names of types, whose ids begin with this number.
#[tactic(auto, unfolding(crate::specs::Predeclared::with_types))]
fn know_types(symbols: &mut Symbols, number: u32, names: &[&[u8]]) -> Result<(), AllocError>
    requires { number + length names.now < 2 ^ 32 }
    ensures { OnOk result (symbols.new ≡ with_types symbols.old number (map (λ name. name.now) names.now)) }
{
    match names {
        [] => Ok(()),
        [name, names @ ..] => {
            know(symbols, name, Entry::Ty { ty: TypeId(number) })?;
            know_types(symbols, number + 1, names)
        }
    }
}

// Standard routines, each by its name.
#[tactic(auto, unfolding(crate::specs::Predeclared::with_standard))]
fn know_standard(symbols: &mut Symbols, routines: &[(&[u8], u32)]) -> Result<(), AllocError>
    ensures { OnOk result (symbols.new ≡ with_standard symbols.old (map (λ row. (row.0.now, row.1)) routines.now)) }
{
    match routines {
        [] => Ok(()),
        [row, rest @ ..] => {
            know(symbols, row.0, Entry::Std { number: row.1 })?;
            know_standard(symbols, rest)
        }
    }
}

fn number_entry(ty: TypeId, value: i32) -> Entry
    ensures { result ≡ number_entry ty value }
{
    Entry::Const {
        ty,
        value: Value::Number(value),
    }
}

#[tactic(auto, unfolding(crate::specs::Predeclared::with_constants))]
fn know_constants(symbols: &mut Symbols) -> Result<(), AllocError>
    ensures { OnOk result (symbols.new ≡ with_constants symbols.old) }
{
    know(symbols, b"MAXINT", number_entry(INTEGER, 32_767))?;
    know(symbols, b"MAXLONGINT", number_entry(LONG_INT, i32::MAX))?;
    know(symbols, b"FALSE", number_entry(BOOLEAN, 0))?;
    know(symbols, b"TRUE", number_entry(BOOLEAN, 1))
}

/// The predeclared names: the types, the constants and the standard routines.
#[tactic(auto, unfolding(crate::specs::Predeclared::predeclared, crate::specs::Predeclared::type_names, crate::specs::Predeclared::standard))]
pub(crate) fn predeclared_names(alloc: Global) -> Result<Symbols, AllocError>
    ensures { IfOk result (λ symbols. symbols ≡ predeclared) }
{
    let mut symbols = Symbols::new(alloc);
    know_types(&mut symbols, 0, &TYPE_NAMES)?;
    know_constants(&mut symbols)?;
    know_standard(&mut symbols, &STANDARD)?;
    Ok(symbols)
}
