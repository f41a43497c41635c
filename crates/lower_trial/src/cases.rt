//! What is read: a program's name, how many turns it may take, its sources, and its input.

ghost use Rattle.std.specs.Prelude.{◌<◌, IfSome, length};

use std::alloc::{AllocError, Global};
use std::str;
use tp_outside::MemoryFiles;
use type_layout::Name;

/// A program to try.
#[derive(Drop)]
pub struct Case<'a> {
    pub name: Name,
    pub turns: u64,
    pub files: MemoryFiles,
    pub input: &'a [u8],
}

/// The first line of some bytes, and what stands behind it.
fn first_line(bytes: &[u8]) -> Option<(&str, &[u8])>
    ensures { IfSome result (λ found. length found.1.now < length bytes.now) }
{
    let end = bytes.iter().position(|byte| *byte == b'\n')?;
    let (line, rest) = bytes.split_at_checked(end)?;
    let (_, rest) = rest.split_first()?;
    match str::from_utf8(line) {
        Ok(line) => Some((line, rest)),
        Err(_) => None,
    }
}

fn number_in(word: Option<&str>) -> Option<u64> {
    match word?.parse() {
        Ok(number) => Some(number),
        Err(_) => None,
    }
}

impl<'a> Case<'a> {
    /// The program that some bytes give, if they give one.
    pub fn read(alloc: Global, bytes: &'a [u8]) -> Result<Option<Case<'a>>, AllocError> {
        let Some((line, rest)) = first_line(bytes) else {
            return Ok(None);
        };
        let mut words = line.split_whitespace();
        let Some("program") = words.next() else {
            return Ok(None);
        };
        let Some(name) = words
            .next()
            .and_then(|word| Name::from_word(word.as_bytes()))
        else {
            return Ok(None);
        };
        let turns = number_in(words.next()).unwrap_or(1_000_000);
        let mut case = Case {
            name,
            turns,
            files: MemoryFiles::new(alloc, &[])?,
            input: &[],
        };
        case.read_parts(rest)?;
        Ok(Some(case))
    }

    /// Takes the files and the input that stand behind the first line.
    fn read_parts(&mut self, bytes: &'a [u8]) -> Result<(), AllocError> {
        let mut rest = bytes;
        'parts: while let Some((line, behind)) = first_line(rest) {
            let mut words = line.split_whitespace();
            let kind = words.next().unwrap_or("");
            let file = if kind == "file" { words.next() } else { None };
            let Some(length) = number_in(words.next()) else {
                return Ok(());
            };
            let Some((part, next)) = behind.split_at_checked(length as usize) else {
                return Ok(());
            };
            match file {
                Some(file) => self.files.put(file, part)?,
                None => self.input = part,
            }
            rest = next;
        }
        Ok(())
    }
}
