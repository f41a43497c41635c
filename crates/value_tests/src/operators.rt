//! Operators on values.

use crate::names::{integer_type, operator};
use crate::strings::put_quoted;
use crate::variables::pointer;
use interpreter_store::cell_store::{Stop, Store, Trap, Tree, Value};
use interpreter_store::value_operators::{
    arithmetic, binary, decided, element_of, field_text, ranged, text_of,
};
use std::alloc::Global;
use test_rows::{Args, Line, put, put_number, put_shown, put_truth};
use type_layout::{Bytes, Host, TypeDef};
use typed_tree::BinaryOp;

fn put_result(out: &mut Line, found: Result<i32, Trap>) {
    match found {
        Ok(number) => put_number(out, i64::from(number)),
        Err(trap) => put_shown(out, &trap),
    }
}

// Whether a relation holds, or why it can't be said.
fn put_relation(out: &mut Line, found: &Result<Value, Stop>) {
    match found {
        Ok(Value::Ordinal(0)) => put(out, "false"),
        Ok(Value::Ordinal(1)) => put(out, "true"),
        Ok(_) => put(out, "no truth"),
        Err(stop) => put_shown(out, stop),
    }
}

fn text_value(alloc: Global, args: &mut Args) -> Value {
    Value::Text(Bytes::from_vec(args.bytes(alloc)))
}

fn put_texts(alloc: Global, out: &mut Line, args: &mut Args) {
    let left = text_value(alloc, args);
    let op = operator(args);
    let right = text_value(alloc, args);
    let found = binary(alloc, op, None, &left, &right, &Store::new(alloc));
    put_relation(out, &found);
}

// Two pointers, where there is block 0 alone.
fn put_pointers(alloc: Global, out: &mut Line, args: &mut Args) {
    let mut store = Store::new(alloc);
    if store.push(Tree::number(1)).is_err() {
        args.fail();
    }
    if let (Some(left), Some(right)) = (pointer(args.text()), pointer(args.text())) {
        let found = binary(alloc, BinaryOp::Equal, None, &left, &right, &store);
        put_relation(out, &found);
    }
}

fn host(args: &mut Args) -> Host {
    match args.text() {
        "LongInt" => Host::LongInt,
        "Integer" => Host::Integer,
        "Boolean" => Host::Boolean,
        "Char" => Host::Char,
        _ => {
            args.fail();
            Host::Enumeration
        }
    }
}

fn put_written(alloc: Global, out: &mut Line, args: &mut Args) {
    let ty = TypeDef::Ordinal {
        host: host(args),
        low: 0,
        high: 0,
    };
    let (number, width) = (args.number(), args.number());
    match text_of(alloc, Some(&ty), &Value::Ordinal(number)) {
        Ok(alone) => match field_text(alloc, width, alone.as_slice()) {
            Ok(field) => put_quoted(out, field.as_slice()),
            Err(_) => put(out, "no memory"),
        },
        Err(stop) => put_shown(out, &stop),
    }
}

/// Writes what is answered, if this is asked.
pub(crate) fn put_answer(alloc: Global, out: &mut Line, asked: &str, args: &mut Args) -> bool {
    match asked {
        "arithmetic" => {
            let kind = integer_type(args);
            let (a, op, b) = (args.number(), operator(args), args.number());
            put_result(out, arithmetic(op, kind, a, b));
        }
        "decided" => {
            let (left, op, early) = (args.number(), operator(args), args.truth());
            put_truth(out, decided(op, early, &Value::Ordinal(left)).is_some());
        }
        "in range" => {
            let (low, high, z) = (args.number(), args.number(), args.number());
            put_truth(out, ranged(low, high, &Value::Ordinal(z)).is_ok());
        }
        "element" => match element_of(&Value::Ordinal(args.number())) {
            Ok(element) => put_number(out, i64::from(element)),
            Err(trap) => put_shown(out, &trap),
        },
        "texts" => put_texts(alloc, out, args),
        "pointers" => put_pointers(alloc, out, args),
        "written" => put_written(alloc, out, args),
        _ => return false,
    }
    true
}
