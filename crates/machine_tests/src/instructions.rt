//! Instructions.

use std::alloc::Global;
use test_rows::{Line, bytes_in, put, put_shown};
use x86_table::{decode, encode};

/// Writes the instruction that bytes spell alone, or that they spell none; and whether it is spelled so.
pub(crate) fn put_instruction(alloc: Global, out: &mut Line, row: &str) -> Option<()> {
    let bytes = bytes_in(alloc, row).ok()?;
    match decode(bytes.as_slice()) {
        Some((instr, length)) => {
            put_shown(out, &instr);
            if length != bytes.len() {
                put(out, " and more");
            } else if encode(&instr).as_slice() != bytes.as_slice() {
                put(out, " spelled otherwise");
            }
        }
        None => put(out, "none"),
    }
    Some(())
}
