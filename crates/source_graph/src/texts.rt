//! The texts of sources.

ghost use Rattle.std.specs.Prelude.{◌≡◌, ◌≢◌, ◌≤◌, ◌<◌, ◌^◌, [], ◌+◌, ◌++◌, ◌∷◌, List, length, slice_get, IfOk, IfErr, IfSome, OnOk, MatchResult, Err, Ok, vec_len};
ghost use Rattle.std.specs.List.{list_any};
ghost use Rattle.tp_outside.specs.Faults.{HasRisen};
ghost use Rattle.tp_outside.specs.Folder.{Folder};
ghost use Rattle.source_graph.specs.declared.error.GatherError.{GatherError};
ghost use Rattle.source_graph.specs.Texts.{number_of, is_outer, begins_with_dot, leads_out, with_text, with_file, at, place_in};
ghost use Rattle.source_graph.specs.Walk.{Unless};

use crate::error::{At, GatherError};
use std::alloc::Global;
use std::marker::Model;
use tp_lexer::{Text, Token};
use tp_outside::{Files, read_prefix};
use type_layout::{Bytes, FileName, Place};

/// The most bytes that a text may have.
pub const TEXT_LIMIT: u64 = 1_048_576;

/// The most bytes that all texts may have together.
pub const ALL_TEXTS_LIMIT: u64 = 16_777_216;

// The most texts, so that their numbers have 32 bits.
const MOST: usize = 0xffff_ffff;

/// The texts that were read, in order.
#[derive(Debug, Drop)]
pub struct Texts {
    texts: Vec<Text>,
    // How many bytes they have together.
    bytes: u64,
}

impl Model for Texts {
    ghost use Rattle.std.specs.Prelude.{List, ◌≡◌, ◌≤◌, ◌<◌, ◌^◌, length};
    ghost use Rattle.tp_lexer.specs.declared.token.Text.{Text};
    ghost use Rattle.source_graph.specs.Texts.{bytes_in};

    ghost Value = { List Text };

    ghost view = { λ it. it.texts.items };

    ghost invariant = { λ it. (it.bytes ≡ bytes_in it.texts.items) × (it.bytes ≤ 16777216) × (length it.texts.items < 2 ^ 32) };
}

// The name of no file.
fn no_name() -> FileName
    ensures { result ≡ [] }
{
    match FileName::new("") {
        Some(name) => name,
        None => unreachable!(),
    }
}

// Whether a byte leads into other folders, or is none of a file's name.
fn is_outer(byte: u8) -> bool
    ensures { result ≡ is_outer byte }
{
    byte == b'/' || byte == b'\\' || byte == b':' || byte == 0
}

fn begins_with_dot(name: &[u8]) -> bool
    ensures { result ≡ begins_with_dot name.now }
{
    match name {
        [] => false,
        [first, ..] => *first == b'.',
    }
}

fn has_outer(name: &[u8]) -> bool
    ensures { result ≡ list_any is_outer name.now }
{
    name.iter().any(|byte| is_outer(*byte))
}

// Whether it is the name of no file that lies in the folder itself.
fn leads_out(name: &[u8]) -> bool
    ensures { result ≡ leads_out name.now }
{
    begins_with_dot(name) || has_outer(name)
}

/// Where a fault stands in the tokens of text `main`. Where there is no token it stands in that text.
pub fn place_in(main: u32, tokens: &[Token], place: Place) -> Place
    ensures { result ≡ place_in main tokens.now place }
{
    match tokens {
        [] => Place {
            text: main,
            line: place.line,
            column: place.column,
        },
        [_, ..] => place,
    }
}

/// A place in the texts, by its file.
pub fn at(texts: &[Text], place: Place) -> At
    ensures { result ≡ at texts.now place }
{
    let file = match texts.get(place.text as usize) {
        Some(text) => text.name.copied(),
        None => no_name(),
    };
    At {
        file,
        line: place.line,
        column: place.column,
    }
}

impl Texts {
    /// No text.
    pub fn new(alloc: Global) -> Texts
        ensures { result ≡ [] }
    {
        Texts {
            texts: Vec::new(alloc),
            bytes: 0,
        }
    }

    /// The texts, in order.
    pub fn as_slice(&self) -> &[Text]
        ensures texts { result.now ≡ self.now }
        ensures few { length self.now < 2 ^ 32 }
    {
        self.texts.as_slice()
    }

    /// The texts, in order.
    pub fn into_vec(self) -> Vec<Text>
        ensures { result.items ≡ self }
    {
        self.texts
    }

    /// How many texts there are.
    pub fn count(&self) -> u32
        ensures { result ≡ length self.now }
    {
        self.texts.len() as u32
    }

    // The place of the text of a file.
    fn place_of(&self, file: &FileName) -> Option<usize>
        ensures exact { result ≡ number_of self.now file.now }
        ensures within { IfSome result (λ number. number < length self.now) }
        ensures few { IfSome result (λ number. number < 2 ^ 32) }
    {
        self.texts.iter().position(|text| text.name == *file)
    }

    /// The number of the text of a file.
    pub fn number_of(&self, file: &FileName) -> Option<u32>
        ensures exact { result ≡ number_of self.now file.now }
        ensures within { IfSome result (λ number. number < length self.now) }
    {
        match self.place_of(file) {
            Some(number) => Some(number as u32),
            None => None,
        }
    }

    /// A place, by its file.
    pub fn at(&self, place: Place) -> At
        ensures { result ≡ at self.now place }
    {
        at(self.as_slice(), place)
    }

    // Puts a text behind the others.
    fn push(&mut self, file: &FileName, bytes: Vec<u8>) -> Result<(), GatherError>
        ensures told { MatchResult result
            (λ _. with_text self.old file.now bytes.items ≡ Ok self.new)
            (λ error. Unless error (with_text self.old file.now bytes.items ≡ Err error)) }
        ensures grows { OnOk result (length self.new ≡ length self.old + 1) }
        ensures no_fault { result ≡ Err GatherError.FilesFault → ⊥ }
    {
        let size = bytes.len() as u64;
        if size > TEXT_LIMIT {
            return Err(GatherError::TooLarge { bytes: size });
        }
        let all = self.bytes.saturating_add(size);
        if all > ALL_TEXTS_LIMIT {
            return Err(GatherError::TooLarge { bytes: all });
        }
        if self.texts.len() >= MOST {
            return Err(GatherError::NoMemory);
        }
        self.texts.push(Text {
            name: file.copied(),
            bytes: Bytes::from_vec(bytes),
        })?;
        self.bytes = all;
        Ok(())
    }

    /// Reads a file, and puts its text behind the others. Where the folder has no such file, as where the name leads out of it, the
    /// error is the one that is handed in.
    pub fn load<F: Files>(
        &mut self,
        alloc: Global,
        files: &mut F,
        file: &FileName,
        absent: GatherError,
    ) -> Result<(), GatherError>
        requires cause { absent ≢ GatherError.FilesFault }
        ensures told { IfSome (F.folder files.old) (λ held. MatchResult result
            (λ _. with_file absent self.old file.now (held file.now) ≡ Ok self.new)
            (λ error. Unless error (with_file absent self.old file.now (held file.now) ≡ Err error))) }
        ensures some { OnOk result ((held : Folder) × (with_file absent self.old file.now (held file.now) ≡ Ok self.new)) }
        ensures grows { OnOk result (length self.new ≡ length self.old + 1) }
        ensures unchanged { F.folder files.new ≡ F.folder files.old }
        ensures counted { F.faults files.old ≤ F.faults files.new }
        ensures failed { result ≡ Err GatherError.FilesFault → HasRisen (F.faults files.old) (F.faults files.new) }
    {
        if leads_out(file.as_bytes()) {
            return Err(absent);
        }
        let Some(size) = files.size(file.as_str())? else {
            return Err(absent);
        };
        if size > TEXT_LIMIT {
            return Err(GatherError::TooLarge { bytes: size });
        }
        let bytes = read_prefix(alloc, files, file.as_str(), size)?;
        self.push(file, bytes)
    }
}
