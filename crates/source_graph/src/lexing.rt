//! The tokens of sources, with what they include.

ghost use Rattle.std.specs.Prelude.{◌≡◌, ◌≢◌, ◌≤◌, ◌<◌, ◌+◌, IfOk, OnOk, IfErr, IfSome, MatchResult, Err, Ok, length, map};
ghost use Rattle.type_layout.specs.Words.{IsName};
ghost use Rattle.tp_outside.specs.Faults.{HasRisen};
ghost use Rattle.tp_outside.specs.Folder.{Folder};
ghost use Rattle.source_graph.specs.declared.error.GatherError.{GatherError};
ghost use Rattle.source_graph.specs.Texts.{defined};
ghost use Rattle.source_graph.specs.Files.{absent, opened, refusal_of, with_included, IsMended, IsCause, ComesTo, FailsBy};
ghost use Rattle.source_graph.specs.Walk.{Unless};

use crate::error::{GatherError, LexCause};
use crate::files::source_file;
use crate::texts::Texts;
use crate::wanted::{Wanted, is_left_out};
use std::alloc::Global;
use tp_lexer::{Feature, LexError, TokenList, tokens};
use tp_outside::Files;
use type_layout::{FileName, Name};

// The name of these bytes, which are one.
fn known(bytes: &[u8]) -> Name
    requires { IsName bytes.now }
    ensures { result ≡ bytes.now }
{
    match Name::new(bytes) {
        Some(name) => name,
        None => unreachable!(),
    }
}

// The names that are defined in front of each source.
fn defined() -> [Name; 3]
    ensures { result ≡ defined }
{
    [known(b"VER55"), known(b"MSDOS"), known(b"CPU86")]
}

// Why a source without a file is refused. A unit that is left out is at fault at its name in the uses clause.
fn absent(texts: &Texts, wanted: &Wanted) -> GatherError
    ensures exact { result ≡ absent texts.now wanted.now }
    ensures cause { result ≢ GatherError.FilesFault }
{
    match wanted.place {
        Some(place) if is_left_out(&wanted.name) => GatherError::NotInProfile {
            at: texts.at(place),
            feature: Feature::Units,
        },
        _ => GatherError::MissingFile {
            name: source_file(&wanted.name),
        },
    }
}

/// The number of the text of a wanted source, which is read where it is not among the texts.
pub fn open<F: Files>(
    alloc: Global,
    files: &mut F,
    texts: &mut Texts,
    wanted: &Wanted,
) -> Result<u32, GatherError>
    ensures told { IfSome (F.folder files.old) (λ held. MatchResult result
        (λ main. opened held texts.old wanted.now ≡ Ok (texts.new, main))
        (λ error. Unless error (opened held texts.old wanted.now ≡ Err error))) }
    ensures some { IfOk result (λ main. (held : Folder) × (opened held texts.old wanted.now ≡ Ok (texts.new, main))) }
    ensures within { IfOk result (λ main. main < length texts.new) }
    ensures unchanged { F.folder files.new ≡ F.folder files.old }
    ensures counted { F.faults files.old ≤ F.faults files.new }
    ensures failed { result ≡ Err GatherError.FilesFault → HasRisen (F.faults files.old) (F.faults files.new) }
{
    let file = source_file(&wanted.name);
    if let Some(number) = texts.number_of(&file) {
        return Ok(number);
    }
    let number = texts.count();
    let absent = absent(texts, wanted);
    texts.load(alloc, files, &file, absent)?;
    Ok(number)
}

// What is said of a rule that is broken.
fn refusal_of(texts: &Texts, rule: LexError) -> GatherError
    ensures exact { result ≡ refusal_of texts.now rule }
    ensures cause { result ≢ GatherError.FilesFault }
{
    let (place, cause) = match rule {
        LexError::NoMemory => return GatherError::NoMemory,
        LexError::BadCharacter { place } => (place, LexCause::BadCharacter),
        LexError::OpenComment { place } => (place, LexCause::OpenComment),
        LexError::OpenString { place } => (place, LexCause::OpenString),
        LexError::BadNumber { place } => (place, LexCause::BadNumber),
        LexError::BadDirective { place } => (place, LexCause::BadDirective),
        LexError::OpenCondition { place } => (place, LexCause::OpenCondition),
        LexError::MissingInclude { place: _, name } => return GatherError::MissingFile { name },
        LexError::NotInProfile { place, feature } => {
            return GatherError::NotInProfile {
                at: texts.at(place),
                feature,
            };
        }
    };
    GatherError::BadToken {
        at: texts.at(place),
        cause,
    }
}

// Reads a file that a text includes, and puts its text behind the others.
fn include<F: Files>(
    alloc: Global,
    files: &mut F,
    texts: &mut Texts,
    name: &FileName,
) -> Result<(), GatherError>
    ensures told { IfSome (F.folder files.old) (λ held. MatchResult result
        (λ _. with_included held texts.old name.now ≡ Ok texts.new)
        (λ error. Unless error (with_included held texts.old name.now ≡ Err error))) }
    ensures some { OnOk result ((held : Folder) × (with_included held texts.old name.now ≡ Ok texts.new)) }
    ensures grows { OnOk result (length texts.new ≡ length texts.old + 1) }
    ensures unchanged { F.folder files.new ≡ F.folder files.old }
    ensures counted { F.faults files.old ≤ F.faults files.new }
    ensures failed { result ≡ Err GatherError.FilesFault → HasRisen (F.faults files.old) (F.faults files.new) }
{
    let absent = GatherError::MissingFile {
        name: name.copied(),
    };
    texts.load(alloc, files, name, absent)
}

// Reads the file that a text lacks, where that is the rule that is broken. Any other one is told.
fn mend<F: Files>(
    alloc: Global,
    files: &mut F,
    texts: &mut Texts,
    rule: LexError,
) -> Result<(), GatherError>
    ensures told { IfSome (F.folder files.old) (λ held. MatchResult result
        (λ _. IsMended held texts.old rule texts.new)
        (λ error. Unless error (IsCause held texts.old rule error))) }
    ensures some { OnOk result ((held : Folder) × IsMended held texts.old rule texts.new) }
    ensures grows { OnOk result (length texts.new ≡ length texts.old + 1) }
    ensures unchanged { F.folder files.new ≡ F.folder files.old }
    ensures counted { F.faults files.old ≤ F.faults files.new }
    ensures failed { result ≡ Err GatherError.FilesFault → HasRisen (F.faults files.old) (F.faults files.new) }
{
    match rule {
        LexError::MissingInclude { place: _, name } => include(alloc, files, texts, &name),
        rule => Err(refusal_of(texts, rule)),
    }
}

/// The tokens of text `main`. The files that it includes are read as they are met.
pub fn tokens_of<F: Files>(
    alloc: Global,
    files: &mut F,
    texts: &mut Texts,
    main: u32,
) -> Result<TokenList, GatherError>
    requires main { main < length texts.old }
    ensures told { IfSome (F.folder files.old) (λ held. MatchResult result
        (λ list. ComesTo held main texts.old texts.new list)
        (λ error. Unless error (FailsBy held main texts.old error))) }
    ensures some { IfOk result (λ list. (held : Folder) × ComesTo held main texts.old texts.new list) }
    ensures unchanged { F.folder files.new ≡ F.folder files.old }
    ensures counted { F.faults files.old ≤ F.faults files.new }
    ensures failed { result ≡ Err GatherError.FilesFault → HasRisen (F.faults files.old) (F.faults files.new) }
{
    let defined = defined();
    'includes: loop {
        match tokens(alloc, texts.as_slice(), main, &defined) {
            Ok(list) => return Ok(list),
            Err(rule) => mend(alloc, files, texts, rule)?,
        }
    }
}
