//! Names of included files.

ghost use Rattle.std.specs.Prelude.{◌≡◌, ◌==◌, IfOk};
ghost use Rattle.std.specs.List.{list_any};
ghost use Rattle.tp_lexer.specs.Directives.{lower_case, named, file_name_of};

use std::alloc::{AllocError, Global};
use std::str;
use type_layout::FileName;

fn has_dot(bytes: &[u8]) -> bool
    ensures { result ≡ list_any (λ c. c == 46) bytes.now }
{
    bytes.iter().any(|byte| *byte == b'.')
}

fn lower_case(alloc: Global, bytes: &[u8]) -> Result<Vec<u8>, AllocError>
    ensures { IfOk result (λ lower. lower.items ≡ lower_case bytes.now) }
{
    bytes
        .iter()
        .map(|byte| byte.to_ascii_lowercase())
        .collect(alloc)
}

fn named(bytes: &[u8]) -> Option<FileName>
    ensures { result ≡ named bytes.now }
{
    match str::from_utf8(bytes) {
        Ok(text) => FileName::new(text),
        Err(_) => None,
    }
}

/// The file's name that an include spells, in lower case and with `.pas` where it has no dot.
pub fn file_name_of(alloc: Global, bytes: &[u8]) -> Result<Option<FileName>, AllocError>
    ensures { IfOk result (λ name. name ≡ file_name_of bytes.now) }
{
    if bytes.is_empty() {
        return Ok(None);
    }
    let mut name = lower_case(alloc, bytes)?;
    if !has_dot(bytes) {
        name.extend_from_slice(b".pas")?;
    }
    Ok(named(name.as_slice()))
}
