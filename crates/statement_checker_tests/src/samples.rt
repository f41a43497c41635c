//! The scope of the tests. Names stand in rows, and each step has a function of its own, since the proof of a function grows with
//! what it holds at each of its exits.

use scopes::{BOOLEAN, BYTE, BlockKind, CHAR, Entry, INTEGER, LONG_INT, STRING, Scope, Symbols};
use std::alloc::{AllocError, Global};
use type_layout::{
    Field, Fields, Header, Host, Kind, Method, Methods, Name, Param, Params, RoutineId, TypeDef,
    TypeId,
};
use typed_tree::Value;

fn named(bytes: &[u8]) -> Result<Name, AllocError> {
    match Name::new(bytes) {
        Some(name) => Ok(name),
        None => Err(AllocError),
    }
}

fn enter(scope: &mut Scope, name: &[u8], entry: Entry) -> Result<(), AllocError> {
    if !scope.is_open() {
        return Err(AllocError);
    }
    match scope.enter(named(name)?, entry) {
        Ok(true) => Ok(()),
        _ => Err(AllocError),
    }
}

fn begin(scope: &mut Scope, kind: BlockKind) -> Result<(), AllocError> {
    scope.begin(kind)
}

/// A variable of the unit, by its level and number.
fn variable(level: u32, number: u32, ty: TypeId) -> Entry {
    Entry::Var {
        unit: 0,
        level,
        number,
        ty,
    }
}

fn add(scope: &mut Scope, one: TypeDef) -> Result<TypeId, AllocError> {
    let origin = named(b"P")?;
    if !scope.types().takes(&origin, &one) {
        return Err(AllocError);
    }
    match scope.add_type(origin, 0, one) {
        Ok(id) => Ok(id),
        Err(_) => Err(AllocError),
    }
}

/// Globals of predeclared types, by their numbers.
const SIMPLE: [(&[u8], u32, TypeId); 6] = [
    (b"I", 0, INTEGER),
    (b"B", 1, BYTE),
    (b"L", 2, LONG_INT),
    (b"C", 3, CHAR),
    (b"T", 4, BOOLEAN),
    (b"U", 5, STRING),
];

fn declare_simple(scope: &mut Scope) -> Result<(), AllocError> {
    for row in &SIMPLE {
        enter(scope, row.0, variable(0, row.1, row.2))?;
    }
    Ok(())
}

// The constant M of -1.
fn declare_constant(scope: &mut Scope) -> Result<(), AllocError> {
    let value = Value::Number(-1);
    enter(scope, b"M", Entry::Const { ty: INTEGER, value })
}

fn field(name: &[u8], ty: TypeId) -> Result<Field, AllocError> {
    Ok(Field {
        name: named(name)?,
        ty,
    })
}

fn fields(alloc: Global) -> Result<Fields, AllocError> {
    let mut fields = Fields::new(alloc);
    fields.push(field(b"X", INTEGER)?)?;
    fields.push(field(b"Y", BYTE)?)?;
    Ok(fields)
}

// Globals 7 and 8, R and S: records of X: Integer and Y: Byte, of type 12.
fn declare_records(alloc: Global, scope: &mut Scope) -> Result<(), AllocError> {
    let fields = fields(alloc)?;
    let ty = add(scope, TypeDef::RecordOf { fields })?;
    enter(scope, b"R", variable(0, 7, ty))?;
    enter(scope, b"S", variable(0, 8, ty))
}

const DIGIT: TypeDef = TypeDef::Ordinal {
    host: Host::Integer,
    low: 0,
    high: 9,
};

const COLOUR: TypeDef = TypeDef::Ordinal {
    host: Host::Enumeration,
    low: 0,
    high: 2,
};

// A global of a new type.
fn declare_new(
    scope: &mut Scope,
    name: &[u8],
    number: u32,
    one: TypeDef,
) -> Result<TypeId, AllocError> {
    let ty = add(scope, one)?;
    enter(scope, name, variable(0, number, ty))?;
    Ok(ty)
}

// Global 6, D: 0..9, of type 11; the records; 9, A: an array of Byte over D's type, of type 13; 10, N: a pointer to Integer, of
// type 14; 11, E: an enumeration, of type 15.
fn declare_others(alloc: Global, scope: &mut Scope) -> Result<(), AllocError> {
    let index = declare_new(scope, b"D", 6, DIGIT)?;
    declare_records(alloc, scope)?;
    let element = BYTE;
    declare_new(scope, b"A", 9, TypeDef::ArrayOf { index, element })?;
    declare_new(scope, b"N", 10, TypeDef::PointerTo { target: INTEGER })?;
    declare_new(scope, b"E", 11, COLOUR)?;
    Ok(())
}

fn parameter(name: &[u8], by_ref: bool) -> Result<Param, AllocError> {
    Ok(Param {
        name: named(name)?,
        by_ref,
        ty: INTEGER,
    })
}

fn routine(number: u32, level: u32, header: Header) -> Entry {
    Entry::Code {
        routine: RoutineId { unit: 0, number },
        level,
        header,
        far: number > 0,
    }
}

fn procedure(params: Params) -> Header {
    Header {
        kind: Kind::Procedure,
        params,
        result: None,
    }
}

fn function(params: Params) -> Header {
    Header {
        kind: Kind::Function,
        params,
        result: Some(INTEGER),
    }
}

// x: Integer; var y: Integer
fn two_parameters(alloc: Global) -> Result<Params, AllocError> {
    let mut params = Params::new(alloc);
    params.push(parameter(b"X", false)?)?;
    params.push(parameter(b"Y", true)?)?;
    Ok(params)
}

fn one_parameter(alloc: Global) -> Result<Params, AllocError> {
    let mut params = Params::new(alloc);
    params.push(parameter(b"Z", false)?)?;
    Ok(params)
}

// Procedure 0, G, which is near; procedure 1, Q(x: Integer; var y: Integer); function 2, H without parameters.
fn declare_routines(alloc: Global, scope: &mut Scope) -> Result<(), AllocError> {
    let none = Params::new(alloc);
    enter(scope, b"G", routine(0, 0, procedure(none)))?;
    let two = two_parameters(alloc)?;
    enter(scope, b"Q", routine(1, 0, procedure(two)))?;
    let none = Params::new(alloc);
    enter(scope, b"H", routine(2, 0, function(none)))
}

// Inside G, which has a variable O, function 3, F(z: Integer).
fn enter_outer(alloc: Global, scope: &mut Scope) -> Result<(), AllocError> {
    let owner = None;
    begin(scope, BlockKind::Routine { number: 0, owner })?;
    enter(scope, b"O", variable(1, 0, INTEGER))?;
    let params = one_parameter(alloc)?;
    enter(scope, b"F", routine(3, 1, function(params)))
}

// Inside F, which has a variable V behind its parameter and its result.
fn enter_inner(scope: &mut Scope) -> Result<(), AllocError> {
    let owner = None;
    begin(scope, BlockKind::Routine { number: 3, owner })?;
    enter(scope, b"Z", variable(2, 0, INTEGER))?;
    enter(scope, b"V", variable(2, 2, INTEGER))
}

// A used unit with a variable W.
fn used(alloc: Global) -> Result<Symbols, AllocError> {
    let mut symbols = Symbols::new(alloc);
    let entry = Entry::Var {
        unit: 1,
        level: 0,
        number: 0,
        ty: INTEGER,
    };
    match symbols.enter(named(b"W")?, entry) {
        Ok(true) => Ok(symbols),
        _ => Err(AllocError),
    }
}

fn use_unit(alloc: Global, scope: &mut Scope) -> Result<(), AllocError> {
    let symbols = used(alloc)?;
    scope.add_use(symbols)
}

// Globals 12, PV, and 13, FV, of procedural types 16, as Q, and 17, as H.
fn declare_procedural(alloc: Global, scope: &mut Scope) -> Result<(), AllocError> {
    let header = procedure(two_parameters(alloc)?);
    declare_new(scope, b"PV", 12, TypeDef::Procedural { header })?;
    let header = function(Params::new(alloc));
    declare_new(scope, b"FV", 13, TypeDef::Procedural { header })?;
    Ok(())
}

/// Methods of an object type of the unit, by name, number, kind, whether they are virtual, and whether they take z: Integer.
type MethodRow = (&'static [u8], u32, Kind, bool, bool);

const METHODS: [MethodRow; 5] = [
    (b"INIT", 5, Kind::Constructor, false, true),
    (b"DONE", 6, Kind::Destructor, true, false),
    (b"TOTAL", 7, Kind::Function, true, false),
    (b"SHOW", 8, Kind::Procedure, false, true),
    (b"PLAIN", 9, Kind::Function, false, false),
];

const INHERITING: [MethodRow; 2] = [
    (b"TOTAL", 10, Kind::Function, true, false),
    (b"EXTRA", 11, Kind::Procedure, true, false),
];

fn result_of(kind: Kind) -> Option<TypeId> {
    match kind {
        Kind::Function => Some(INTEGER),
        _ => None,
    }
}

fn method_header(alloc: Global, row: &MethodRow) -> Result<Header, AllocError> {
    let params = if row.4 {
        one_parameter(alloc)?
    } else {
        Params::new(alloc)
    };
    Ok(Header {
        kind: row.2,
        params,
        result: result_of(row.2),
    })
}

// In a type the unit of a routine is a place among the origins: SYSTEM, then P.
fn method(alloc: Global, row: &MethodRow) -> Result<Method, AllocError> {
    Ok(Method {
        name: named(row.0)?,
        header: method_header(alloc, row)?,
        is_virtual: row.3,
        routine: RoutineId {
            unit: 1,
            number: row.1,
        },
    })
}

fn methods(alloc: Global, rows: &[MethodRow]) -> Result<Methods, AllocError> {
    let mut methods = Methods::new(alloc);
    for row in rows {
        methods.push(method(alloc, row)?)?;
    }
    Ok(methods)
}

fn object(
    alloc: Global,
    parent: Option<TypeId>,
    rows: &[MethodRow],
) -> Result<TypeDef, AllocError> {
    Ok(TypeDef::ObjectOf {
        parent,
        dynamic: parent.is_none(),
        fields: Fields::new(alloc),
        methods: methods(alloc, rows)?,
    })
}

fn enter_type(scope: &mut Scope, name: &[u8], one: TypeDef) -> Result<TypeId, AllocError> {
    let ty = add(scope, one)?;
    enter(scope, name, Entry::Ty { ty })?;
    Ok(ty)
}

// Types 18, OT, an object; 19, OP, a pointer to it; 20, OU, its descendant; 21, UP, a pointer to that. Globals 14, OV, of OT; 15, OQ,
// of OP; 16, UV, of OU.
fn declare_objects(alloc: Global, scope: &mut Scope) -> Result<(), AllocError> {
    let class = enter_type(scope, b"OT", object(alloc, None, &METHODS)?)?;
    let pointer = enter_type(scope, b"OP", TypeDef::PointerTo { target: class })?;
    let below = object(alloc, Some(class), &INHERITING)?;
    let heir = enter_type(scope, b"OU", below)?;
    enter_type(scope, b"UP", TypeDef::PointerTo { target: heir })?;
    enter(scope, b"OV", variable(0, 14, class))?;
    enter(scope, b"OQ", variable(0, 15, pointer))?;
    enter(scope, b"UV", variable(0, 16, heir))
}

fn declare_globals(alloc: Global, scope: &mut Scope) -> Result<(), AllocError> {
    begin(scope, BlockKind::Part)?;
    declare_simple(scope)?;
    declare_constant(scope)?;
    declare_others(alloc, scope)?;
    declare_routines(alloc, scope)?;
    declare_procedural(alloc, scope)?;
    declare_objects(alloc, scope)
}

fn fill(alloc: Global, scope: &mut Scope) -> Result<(), AllocError> {
    use_unit(alloc, scope)?;
    declare_globals(alloc, scope)?;
    enter_outer(alloc, scope)?;
    enter_inner(scope)
}

// Inside the method Total of OU.
fn enter_method(scope: &mut Scope) -> Result<(), AllocError> {
    let class = TypeId(20);
    let owner = Some(class);
    begin(scope, BlockKind::Routine { number: 10, owner })?;
    enter(scope, b"SELF", variable(1, 0, class))
}

fn fill_method(alloc: Global, scope: &mut Scope) -> Result<(), AllocError> {
    use_unit(alloc, scope)?;
    declare_globals(alloc, scope)?;
    enter_method(scope)
}

// Inside a procedure of that method, which has a parameter Self.
fn enter_hiding(scope: &mut Scope) -> Result<(), AllocError> {
    let owner = None;
    begin(scope, BlockKind::Routine { number: 12, owner })?;
    enter(scope, b"SELF", variable(2, 0, INTEGER))
}

fn fill_hiding(alloc: Global, scope: &mut Scope) -> Result<(), AllocError> {
    fill_method(alloc, scope)?;
    enter_hiding(scope)
}

fn empty_scope(alloc: Global) -> Result<Scope, AllocError> {
    Scope::new(alloc, named(b"P")?)
}

/// The body of F inside G.
pub(crate) fn scope(alloc: Global) -> Result<Scope, AllocError> {
    let mut scope = empty_scope(alloc)?;
    fill(alloc, &mut scope)?;
    Ok(scope)
}

/// The body of the method Total of OU.
pub(crate) fn method_scope(alloc: Global) -> Result<Scope, AllocError> {
    let mut scope = empty_scope(alloc)?;
    fill_method(alloc, &mut scope)?;
    Ok(scope)
}

/// The body of a procedure of the method Total, where a parameter Self hides that of the method.
pub(crate) fn hiding_scope(alloc: Global) -> Result<Scope, AllocError> {
    let mut scope = empty_scope(alloc)?;
    fill_hiding(alloc, &mut scope)?;
    Ok(scope)
}
