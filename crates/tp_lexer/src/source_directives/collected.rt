//! Directives on memory, overlays and the whole of a source.

ghost use Rattle.std.specs.Prelude.{◌≡◌, ◌++◌, IfOk, OnOk, codes, false};
ghost use Rattle.type_layout.specs.Words.{same_bytes};
ghost use Rattle.tp_lexer.specs.source_directives.Directives.{usual_memory, memory_behind, memory_of, begins_unit, first_place, overlaid_by, overlaid_in, opens_overlayable, directives_of};

use crate::{Token, TokenKind};
use std::alloc::{AllocError, Global};
use type_layout::{Name, Place, Sequence};

/// The bytes of the stack where no directive says otherwise.
const USUAL_STACK: u32 = 16_384;

/// The bytes of the largest heap, which a source has where no directive says otherwise.
const LARGEST_HEAP: u32 = 196_608;

/// A unit that a program overlays, and where the directive stands that says so.
#[derive(Debug, Drop)]
pub struct Overlaid {
    pub name: Name,
    pub place: Place,
}

/// Units that a program overlays, in order.
pub type OverlaidUnits = Sequence<Overlaid>;

/// What the directives of a source say for the whole of it, and where it begins behind those in front of it. A unit has the usual stack and heap and overlays no unit, a program
/// is not overlayable.
#[derive(Debug, Drop)]
pub struct Directives {
    /// The place of the first token that is no directive, if there is any.
    pub first: Option<Place>,
    /// The bytes of the stack.
    pub stack: u32,
    /// The most bytes of the heap.
    pub heap: u32,
    /// The units that the program overlays.
    pub overlaid: OverlaidUnits,
    /// Whether the unit may be overlaid.
    pub overlayable: bool,
}

/// The stack and the heap of a program.
#[derive(Clone, Copy, Debug, PartialEq, Eq)]
pub(crate) struct Memory {
    pub stack: u32,
    pub heap: u32,
}

// The sizes behind a token.
fn memory_behind(now: Memory, kind: &TokenKind) -> Memory
    ensures { result ≡ memory_behind now kind.now }
{
    match kind {
        TokenKind::Memory { stack, max } => Memory {
            stack: *stack,
            heap: (*max).min(LARGEST_HEAP),
        },
        _ => now,
    }
}

// The sizes that the last directive on memory says.
fn memory_of(tokens: &[Token]) -> Memory
    ensures { result ≡ memory_of usual_memory tokens.now }
{
    let mut memory = Memory {
        stack: USUAL_STACK,
        heap: LARGEST_HEAP,
    };
    for token in tokens {
        memory = memory_behind(memory, &token.kind);
    }
    memory
}

fn is_unit(name: &Name) -> bool
    ensures { result ≡ same_bytes name.now (codes "UNIT") }
{
    name.as_bytes() == b"UNIT".as_slice()
}

fn is_interface(name: &Name) -> bool
    ensures { result ≡ same_bytes name.now (codes "INTERFACE") }
{
    name.as_bytes() == b"INTERFACE".as_slice()
}

// Whether the first token that is no directive is the word that begins a unit.
fn begins_unit(tokens: &[Token]) -> bool
    ensures { result ≡ begins_unit tokens.now }
{
    for token in tokens {
        match &token.kind {
            TokenKind::Switch(_) | TokenKind::Memory { .. } | TokenKind::Overlaid(_) => {}
            TokenKind::Reserved(name) => return is_unit(name),
            _ => return false,
        }
    }
    false
}

fn first_place(tokens: &[Token]) -> Option<Place>
    ensures { result ≡ first_place tokens.now }
{
    for token in tokens {
        match &token.kind {
            TokenKind::Switch(_) | TokenKind::Memory { .. } | TokenKind::Overlaid(_) => {}
            _ => return Some(token.place),
        }
    }
    None
}

// Whether overlays are allowed at the first word that begins an interface part.
fn opens_overlayable(tokens: &[Token]) -> bool
    ensures { result ≡ opens_overlayable false tokens.now }
{
    let mut allowed = false;
    for token in tokens {
        match &token.kind {
            TokenKind::Switch(next) => allowed = next.o,
            TokenKind::Reserved(name) if is_interface(name) => return allowed,
            _ => {}
        }
    }
    false
}

fn add(all: &mut OverlaidUnits, token: &Token) -> Result<(), AllocError>
    ensures { OnOk result (all.new ≡ all.old ++ overlaid_by token.now.place token.now.kind) }
{
    match &token.kind {
        TokenKind::Overlaid(name) => all.push(Overlaid {
            name: name.copied(),
            place: token.place,
        }),
        _ => Ok(()),
    }
}

fn overlaid_in(alloc: Global, tokens: &[Token]) -> Result<OverlaidUnits, AllocError>
    ensures { IfOk result (λ all. all ≡ overlaid_in tokens.now) }
{
    let mut all = OverlaidUnits::new(alloc);
    for token in tokens {
        add(&mut all, token)?;
    }
    Ok(all)
}

#[tactic(auto, unfolding(crate::specs::source_directives::Directives::directives_of))]
/// What the directives among the tokens of a program or unit say for the whole of it, where each stands where it may.
pub fn directives_of(alloc: Global, tokens: &[Token]) -> Result<Directives, AllocError>
    ensures { IfOk result (λ found. found ≡ directives_of tokens.now) }
{
    if begins_unit(tokens) {
        return Ok(Directives {
            first: first_place(tokens),
            stack: USUAL_STACK,
            heap: LARGEST_HEAP,
            overlaid: OverlaidUnits::new(alloc),
            overlayable: opens_overlayable(tokens),
        });
    }
    let memory = memory_of(tokens);
    Ok(Directives {
        first: first_place(tokens),
        stack: memory.stack,
        heap: memory.heap,
        overlaid: overlaid_in(alloc, tokens)?,
        overlayable: false,
    })
}
