//! Sets.

use crate::bits::put_next;
use common_values::sets::{
    assigned, contains, difference, intersection, is_member, is_same, is_subset, set_byte,
    set_bytes, set_size, union, with_range,
};
use std::alloc::{AllocError, Global};
use test_rows::{Args, Line, put, put_numbered, put_truth};

fn put_elements(out: &mut Line, set: &Result<Vec<u8>, AllocError>) {
    match set {
        Ok(set) if 64 < set.len() => {
            put_numbered(out, "", set.len() as u64);
            put(out, " elements");
        }
        Ok(set) if set.is_empty() => put(out, "none"),
        Ok(set) => {
            for element in set {
                put_next(out, i32::from(*element));
            }
        }
        Err(_) => put(out, "no memory"),
    }
}

// A set between two bounds: its size, or what is kept of another set.
fn put_bounded(alloc: Global, out: &mut Line, asked: &str, args: &mut Args) {
    let (low, high) = (args.byte(), args.byte());
    if high < low {
        put(out, "no bounds");
        return;
    }
    match asked {
        "size of a set" => put_next(out, i32::from(set_size(low, high))),
        "bytes of a set" => {
            let set = args.set(alloc);
            put_elements(out, &set_bytes(alloc, low, high, set.as_slice()));
        }
        _ => {
            let set = args.set(alloc);
            put_elements(out, &assigned(alloc, low, high, set.as_slice()));
        }
    }
}

fn put_byte(alloc: Global, out: &mut Line, args: &mut Args) {
    let set = args.set(alloc);
    let byte = args.byte();
    if byte < 32 {
        put_next(out, i32::from(set_byte(set.as_slice(), byte)));
    } else {
        put(out, "no byte");
    }
}

// What is asked of two sets.
fn put_both(alloc: Global, out: &mut Line, asked: &str, args: &mut Args) {
    let left = args.set(alloc);
    let right = args.set(alloc);
    let (left, right) = (left.as_slice(), right.as_slice());
    match asked {
        "union" => put_elements(out, &union(alloc, left, right)),
        "difference" => put_elements(out, &difference(alloc, left, right)),
        "intersection" => put_elements(out, &intersection(alloc, left, right)),
        "subset" => put_truth(out, is_subset(left, right)),
        _ => put_truth(out, is_same(left, right)),
    }
}

/// Writes what is answered, if this is asked.
pub(crate) fn put_answer(alloc: Global, out: &mut Line, asked: &str, args: &mut Args) -> bool {
    match asked {
        "contains" => {
            let set = args.set(alloc);
            put_truth(out, contains(set.as_slice(), args.byte()));
        }
        "member" => {
            let set = args.set(alloc);
            put_truth(out, is_member(set.as_slice(), args.number()));
        }
        "with a range" => {
            let set = args.set(alloc);
            let (low, high) = (args.byte(), args.byte());
            put_elements(out, &with_range(alloc, set.as_slice(), low, high));
        }
        "size of a set" | "bytes of a set" | "assigned" => put_bounded(alloc, out, asked, args),
        "byte of a set" => put_byte(alloc, out, args),
        "union" | "difference" | "intersection" | "subset" | "same" => {
            put_both(alloc, out, asked, args);
        }
        _ => return false,
    }
    true
}
