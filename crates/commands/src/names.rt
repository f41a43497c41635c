//! The names of a program's files.

ghost use Rattle.std.specs.Prelude.{◌≡◌, ◌≤◌, ◌+◌, ◌++◌, length, map};
ghost use Rattle.std.specs.Char.{to_ascii_lowercase};
ghost use Rattle.commands.specs.Files.{extension, file_of};

use arrayvec::ArrayVec;
use std::str;
use type_layout::{FILE_NAME_LEN, FileName, Name};

/// The files that belong to a program.
#[derive(Clone, Copy, PartialEq, Eq, Debug)]
pub enum FileKind {
    /// Its source, `name.pas`.
    Source,
    /// Its executable, `name.exe`.
    Executable,
    /// Its overlay file, `name.ovr`.
    Overlays,
}

impl FileKind {
    fn extension(self) -> &'static [u8]
        ensures value { result.now ≡ extension self }
        ensures short { length result.now ≡ 4 }
    {
        match self {
            FileKind::Source => b".pas",
            FileKind::Executable => b".exe",
            FileKind::Overlays => b".ovr",
        }
    }
}

fn file_name_bytes(name: &[u8], kind: FileKind) -> ArrayVec<u8, FILE_NAME_LEN>
    requires { length name.now ≤ 63 }
    ensures { result.items ≡ file_of name.now kind }
{
    let mut bytes = ArrayVec::new();
    for byte in name {
        bytes.push(byte.to_ascii_lowercase());
    }
    match bytes.try_extend_from_slice(kind.extension()) {
        Ok(()) => bytes,
        Err(_) => unreachable!(),
    }
}

/// The name of a program's file: the program's name in lower case, and the extension.
pub fn file_name(name: &Name, kind: FileKind) -> FileName
    ensures { result ≡ file_of name.now kind }
{
    let bytes = file_name_bytes(name.as_bytes(), kind);
    match str::from_utf8(bytes.as_slice()) {
        Ok(text) => match FileName::new(text) {
            Some(name) => name,
            None => unreachable!(),
        },
        Err(_) => unreachable!(),
    }
}
