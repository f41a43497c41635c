//! The names of files of sources.

ghost use Rattle.std.specs.Prelude.{◌≡◌, ◌≤◌, length, map};
ghost use Rattle.std.specs.Char.{to_ascii_lowercase};
ghost use Rattle.source_graph.specs.Files.{source_file};

use arrayvec::ArrayVec;
use std::str;
use type_layout::{FILE_NAME_LEN, FileName, Name};

fn lower_case(name: &[u8]) -> ArrayVec<u8, FILE_NAME_LEN>
    requires { length name.now ≤ 63 }
    ensures { result.items ≡ map to_ascii_lowercase name.now }
{
    let mut bytes = ArrayVec::new();
    for byte in name {
        bytes.push(byte.to_ascii_lowercase());
    }
    bytes
}

fn source_file_bytes(name: &[u8]) -> ArrayVec<u8, FILE_NAME_LEN>
    requires { length name.now ≤ 63 }
    ensures { result.items ≡ source_file name.now }
{
    let mut bytes = lower_case(name);
    match bytes.try_extend_from_slice(b".pas") {
        Ok(()) => bytes,
        Err(_) => unreachable!(),
    }
}

/// The name of the file of a source: its name in lower case, and `.pas`.
pub fn source_file(name: &Name) -> FileName
    ensures { result ≡ source_file name.now }
{
    let bytes = source_file_bytes(name.as_bytes());
    match str::from_utf8(bytes.as_slice()) {
        Ok(text) => match FileName::new(text) {
            Some(name) => name,
            None => unreachable!(),
        },
        Err(_) => unreachable!(),
    }
}
