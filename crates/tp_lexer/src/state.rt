//! What is read so far, and what holds.

ghost use Rattle.std.specs.Prelude.{◌≡◌, ◌++◌, ◌∷◌, [], true, false, OnOk};
ghost use Rattle.tp_lexer.specs.Effects.{token, switches_after, state_of, same, holds, set_defined};
ghost use Rattle.tp_lexer.specs.Acting.{has_name, settings_of};

use crate::directive::{Changes, Letter, Test};
use crate::token::{Switches, Token, TokenKind};
use std::alloc::AllocError;
use std::collections::HashSet;
use type_layout::{Name, Place};

/// The switches that hold, the names that are defined, and the tokens so far.
#[derive(Debug, Drop)]
pub struct State {
    pub switches: Switches,
    pub defined: HashSet<Name>,
    pub tokens: Vec<Token>,
}

/// Adds a token.
pub fn emit(tokens: &mut Vec<Token>, place: Place, kind: TokenKind) -> Result<(), AllocError>
    ensures { OnOk result (tokens.new.items ≡ tokens.old.items ++ token place kind ∷ []) }
{
    match tokens.push(Token { kind, place }) {
        Ok(()) => Ok(()),
        Err(_) => Err(AllocError),
    }
}

/// Defines a name.
pub fn define(defined: &mut HashSet<Name>, name: Name) -> Result<(), AllocError>
    ensures { OnOk result (has_name defined.new ≡ set_defined name true (has_name defined.old)) }
{
    match defined.insert(name) {
        Ok(_) => Ok(()),
        Err(_) => Err(AllocError),
    }
}

/// Makes a name one that is not defined.
pub fn undefine(defined: &mut HashSet<Name>, name: &Name)
    ensures { has_name defined.new ≡ set_defined name.now false (has_name defined.old) }
{
    defined.remove(name);
}

/// The switches behind a list of changes.
pub fn switches_after(changes: Changes, now: Switches) -> Switches
    ensures { result ≡ switches_after changes now }
{
    Switches {
        r: changes.r.unwrap_or(now.r),
        b: changes.b.unwrap_or(now.b),
        f: changes.f.unwrap_or(now.f),
        o: changes.o.unwrap_or(now.o),
    }
}

fn state_of(letter: Letter, now: Switches) -> bool
    ensures { result ≡ state_of letter now }
{
    match letter {
        Letter::R => now.r,
        Letter::B => now.b,
        Letter::F => now.f,
        Letter::O => now.o,
        Letter::N => false,
        _ => true,
    }
}

fn is_defined(name: &Name, defined: &HashSet<Name>) -> bool
    ensures { result ≡ has_name defined.now name.now }
{
    defined.contains(name)
}

fn same(state: bool, on: bool) -> bool
    ensures { result ≡ same state on }
{
    if state { on } else { !on }
}

/// Whether what a condition asks holds.
pub fn holds(test: &Test, state: &State) -> bool
    ensures { result ≡ holds test.now (settings_of state.now) }
{
    match test {
        Test::Defined(name) => is_defined(name, &state.defined),
        Test::Undefined(name) => !is_defined(name, &state.defined),
        Test::Switched(letter, on) => same(state_of(*letter, state.switches), *on),
    }
}
