//! The sources of a program.

ghost use Rattle.std.specs.Prelude.{◌≡◌, ◌≢◌, ◌≤◌, ◌<◌, ◌+◌, ◌^◌, ◌++◌, ◌∷◌, [], ◌⊎◌, IfOk, IfErr, IfSome, OnOk, List, MatchOption, MatchResult, Err, length, map};
ghost use Rattle.std.specs.List.{list_any};
ghost use Rattle.type_layout.specs.Words.{same_bytes};
ghost use Rattle.tp_outside.specs.Faults.{HasRisen};
ghost use Rattle.tp_outside.specs.Folder.{Folder};
ghost use Rattle.tp_lexer.specs.declared.token.Text.{Text};
ghost use Rattle.source_graph.specs.declared.error.GatherError.{GatherError};
ghost use Rattle.source_graph.specs.declared.sources.Source.{Source};
ghost use Rattle.source_graph.specs.Sources.{IsRead, IsUnreadable, IsMisspelled, SpellsNothing, AreAlike, fault_refusal};
ghost use Rattle.source_graph.specs.Whole.{IsWholeLaw};
ghost use Rattle.source_graph.specs.Walk.{wanted_at, names_of, is_passed, due, IsMet, Gathers, Meets, IsRefused, Unless};

use crate::error::GatherError;
use crate::lexing::{open, tokens_of};
use crate::sources::Source;
use crate::texts::{Texts, place_in};
use crate::wanted::Wanted;
use std::alloc::{AllocError, Global};
use std::collections::VecDeque;
use syntax_tree::Identifier;
use tp_lexer::source_directives::directives_of;
use tp_lexer::{Text, Token};
use tp_outside::Files;
use tp_parser::{ParseError, parse, uses_of};
use type_layout::Name;

// The most sources, so that their numbers have 32 bits.
const MOST: usize = 0xffff_ffff;

/// The sources of a program, in the order in which they were met, the program first; and all texts that were read for them.
#[derive(Drop)]
pub struct Gathered {
    pub texts: Vec<Text>,
    pub sources: Vec<Source>,
}

// What is said of a fault of the tokens of text `main`.
fn fault_refusal(texts: &Texts, main: u32, tokens: &[Token], fault: ParseError) -> GatherError
    ensures exact { result ≡ fault_refusal texts.now main tokens.now fault }
    ensures cause { result ≢ GatherError.FilesFault }
{
    match fault {
        ParseError::NoMemory => GatherError::NoMemory,
        ParseError::Syntax { place } => GatherError::Syntax {
            at: texts.at(place_in(main, tokens, place)),
        },
        ParseError::NotInProfile { place, feature } => GatherError::NotInProfile {
            at: texts.at(place_in(main, tokens, place)),
            feature,
        },
        ParseError::TooDeep { place } => GatherError::TooDeep {
            at: texts.at(place_in(main, tokens, place)),
        },
    }
}

// The wanted source with its tree. The files that it needs are read where they are not among the texts.
fn read<F: Files>(
    alloc: Global,
    files: &mut F,
    texts: &mut Texts,
    wanted: &Wanted,
) -> Result<Source, GatherError>
    ensures told { IfSome (F.folder files.old) (λ held. MatchResult result
        (λ source. IsRead held texts.old wanted.now texts.new source)
        (λ error. Unless error (IsUnreadable held error texts.old wanted.now ⊎ IsMisspelled held error texts.old wanted.now))) }
    ensures some { IfOk result (λ source. (held : Folder) × IsRead held texts.old wanted.now texts.new source) }
    ensures unchanged { F.folder files.new ≡ F.folder files.old }
    ensures counted { F.faults files.old ≤ F.faults files.new }
    ensures failed { result ≡ Err GatherError.FilesFault → HasRisen (F.faults files.old) (F.faults files.new) }
{
    let text = open(alloc, files, texts, wanted)?;
    let tokens = tokens_of(alloc, files, texts, text)?;
    let list = tokens.as_slice();
    let says = directives_of(alloc, list)?;
    match parse(alloc, list) {
        Ok(tree) => Ok(Source {
            name: wanted.name.copied(),
            text,
            says,
            tree,
        }),
        Err(fault) => Err(fault_refusal(texts, text, list, fault)),
    }
}

// Whether a source of this name was met.
fn is_met(sources: &[Source], name: &Name) -> bool
    ensures { result ≡ list_any (λ source. same_bytes name.now source.name) sources.now }
{
    sources.iter().any(|source| *name == source.name)
}

// Whether a source was met, or is always there.
fn is_passed(sources: &[Source], wanted: &Wanted) -> bool
    ensures { result ≡ is_passed (names_of sources.now) wanted.now }
{
    is_met(sources, &wanted.name) || wanted.is_predeclared()
}

// The first that is wanted and not passed over, and nothing more where all is. What is wanted before it is let go.
fn next_due(sources: &[Source], wanted: &mut VecDeque<Wanted>) -> Option<Wanted>
    ensures { MatchOption result
        (due (names_of sources.now) wanted.old.items ≡ [])
        (λ next. due (names_of sources.now) wanted.old.items ≡ next ∷ wanted.new.items) }
{
    while let Some(next) = wanted.pop_front() {
        if !is_passed(sources, &next) {
            return Some(next);
        }
    }
    None
}

// Puts the units of uses clauses in front of what is wanted.
fn want(uses: &[Identifier], wanted: &mut VecDeque<Wanted>) -> Result<(), AllocError>
    ensures { OnOk result (wanted.new.items ≡ map wanted_at uses.now ++ wanted.old.items) }
{
    let mut number = uses.len();
    while number > 0 {
        number -= 1;
        wanted.push_front(Wanted::at(&uses[number]))?;
    }
    Ok(())
}

// Reads the source that is wanted next. Then the units that it uses are wanted before the others.
fn meet<F: Files>(
    alloc: Global,
    files: &mut F,
    texts: &mut Texts,
    sources: &mut Vec<Source>,
    next: &Wanted,
    wanted: &mut VecDeque<Wanted>,
) -> Result<(), GatherError>
    ensures told { IfSome (F.folder files.old) (λ held. MatchResult result
        (λ _. IsMet held texts.old next.now sources.old.items wanted.old.items texts.new sources.new.items wanted.new.items)
        (λ error. Unless error (IsUnreadable held error texts.old next.now ⊎ IsMisspelled held error texts.old next.now))) }
    ensures some { OnOk result ((held : Folder) × IsMet held texts.old next.now sources.old.items wanted.old.items texts.new sources.new.items wanted.new.items) }
    ensures grows { OnOk result (length sources.new.items ≡ length sources.old.items + 1) }
    ensures few { OnOk result (length sources.new.items < 2 ^ 32) }
    ensures unchanged { F.folder files.new ≡ F.folder files.old }
    ensures counted { F.faults files.old ≤ F.faults files.new }
    ensures failed { result ≡ Err GatherError.FilesFault → HasRisen (F.faults files.old) (F.faults files.new) }
{
    if sources.len() >= MOST {
        return Err(GatherError::NoMemory);
    }
    let source = read(alloc, files, texts, next)?;
    want(uses_of(&source.tree), wanted)?;
    sources.push(source)?;
    Ok(())
}

// The sources that the walk from the program of this name meets.
fn walk<F: Files>(alloc: Global, name: &Name, files: &mut F) -> Result<Gathered, GatherError>
    ensures told { IfSome (F.folder files.old) (λ held. MatchResult result
        (λ found. Gathers held name.now found.texts.items found.sources.items)
        (λ error. Unless error (IsRefused held name.now error))) }
    ensures some { IfOk result (λ found. (held : Folder) × Gathers held name.now found.texts.items found.sources.items) }
    ensures unchanged { F.folder files.new ≡ F.folder files.old }
    ensures counted { F.faults files.old ≤ F.faults files.new }
    ensures failed { result ≡ Err GatherError.FilesFault → HasRisen (F.faults files.old) (F.faults files.new) }
{
    let mut texts = Texts::new(alloc);
    let mut sources = Vec::new(alloc);
    let mut wanted = VecDeque::new(alloc);
    wanted.push_front(Wanted::start(name))?;
    while let Some(next) = next_due(sources.as_slice(), &mut wanted) {
        meet(alloc, files, &mut texts, &mut sources, &next, &mut wanted)?;
    }
    Ok(Gathered {
        texts: texts.into_vec(),
        sources,
    })
}

/// The sources of the program of this name: its own, and those of all units that it uses, depth first in order of the uses
/// clauses. The first source that can't be read, and its first fault, are the error.
pub fn gather<F: Files>(alloc: Global, name: &Name, files: &mut F) -> Result<Gathered, GatherError>
    ensures gathered { IfSome (F.folder files.old) (λ held.
        IfOk result (λ found. Gathers held name.now found.texts.items found.sources.items)) }
    ensures refused { IfSome (F.folder files.old) (λ held.
        IfErr result (λ error. Unless error (IsRefused held name.now error))) }

    // Also where the files don't tell what they hold, what was read for the program is what some folder holds.
    ensures some { IfOk result (λ found. (held : Folder) × Gathers held name.now found.texts.items found.sources.items) }

    // Where the sources are in order they are what is answered, and where one is not, that is told: but for a fault of the files or
    // out of memory.
    ensures accepts { IfSome (F.folder files.old) (λ held.
        (texts : List Text) (sources : List Source) → Gathers held name.now texts sources → IfErr result (λ error. Unless error ⊥)) }
    ensures refuses { IfSome (F.folder files.old) (λ held.
        (cause : GatherError) → Meets held name.now (IsUnreadable held cause) → MatchResult result (λ _. ⊥) (λ error. Unless error (error ≡ cause))) }
    ensures nothing { IfSome (F.folder files.old) (λ held. Meets held name.now (SpellsNothing held)
        → MatchResult result (λ _. ⊥) (λ error. Unless error (Meets held name.now (IsMisspelled held error)))) }
    ensures misspelled { IfSome (F.folder files.old) (λ held.
        (cause : GatherError) → Meets held name.now (IsMisspelled held cause) → MatchResult result (λ _. ⊥) (λ error. AreAlike error cause)) }

    ensures unchanged { F.folder files.new ≡ F.folder files.old }
    ensures counted { F.faults files.old ≤ F.faults files.new }
    ensures failed { result ≡ Err GatherError.FilesFault → HasRisen (F.faults files.old) (F.faults files.new) }
{
    walk(alloc, name, files)
}

/// What holds of the sources of a program; it does nothing.
pub fn whole()
    ensures { IsWholeLaw }
{}
