//! What pieces do.

ghost use Rattle.std.specs.Prelude.{◌≡◌, ◌++◌, ◌∷◌, [], OnOk};
ghost use Rattle.tp_lexer.specs.Effects.{error_of, directed, effect_of, passed_effect};
ghost use Rattle.tp_lexer.specs.Acting.{context_of, Acts};

use crate::condition::{Condition, asked, close, turn, unasked};
use crate::directive::Directive;
use crate::piece::{Fault, Passed, Piece};
use crate::state::{State, define, emit, holds, switches_after, undefine};
use crate::token::{Feature, LexError, TokenKind};
use std::alloc::AllocError;
use type_layout::{FileName, Place};

fn error_of(fault: Fault, place: Place) -> LexError
    ensures { result ≡ error_of fault place }
{
    match fault {
        Fault::BadCharacter => LexError::BadCharacter { place },
        Fault::OpenComment => LexError::OpenComment { place },
        Fault::OpenString => LexError::OpenString { place },
        Fault::BadNumber => LexError::BadNumber { place },
        Fault::BadDirective => LexError::BadDirective { place },
        Fault::LeftOut => LexError::NotInProfile {
            place,
            feature: Feature::Directives,
        },
    }
}

// Opens a condition.
fn open(conditions: &mut Vec<Condition>, condition: Condition) -> Result<(), AllocError>
    ensures { OnOk result (conditions.new.items ≡ conditions.old.items ++ condition ∷ []) }
{
    match conditions.push(condition) {
        Ok(()) => Ok(()),
        Err(_) => Err(AllocError),
    }
}

fn direct(
    directive: Directive,
    place: Place,
    state: &mut State,
    conditions: &mut Vec<Condition>,
) -> Result<Option<FileName>, LexError>
    ensures { Acts (directed place (context_of state.old conditions.old.items) directive) state.old state.new conditions.old.items conditions.new.items result }
{
    match directive {
        Directive::Switches(changes) => {
            state.switches = switches_after(changes, state.switches);
            emit(&mut state.tokens, place, TokenKind::Switch(state.switches))?;
        }
        Directive::Memory { stack, max } => emit(
            &mut state.tokens,
            place,
            TokenKind::Memory { stack, max },
        )?,
        Directive::Overlaid(name) => emit(&mut state.tokens, place, TokenKind::Overlaid(name))?,
        Directive::Include(name) => return Ok(Some(name)),
        Directive::Define(name) => define(&mut state.defined, name)?,
        Directive::Undefine(name) => undefine(&mut state.defined, &name),
        Directive::If(test) => {
            let is_met = holds(&test, state);
            open(conditions, asked(place, is_met))?;
        }
        Directive::Else => {
            if !turn(conditions) {
                return Err(LexError::BadDirective { place });
            }
        }
        Directive::EndIf => {
            if !close(conditions) {
                return Err(LexError::BadDirective { place });
            }
        }
    }
    Ok(None)
}

/// Does what a piece does where text is read: gives its tokens and changes what holds, or names the file to include.
pub fn act(
    piece: Piece,
    place: Place,
    state: &mut State,
    conditions: &mut Vec<Condition>,
) -> Result<Option<FileName>, LexError>
    ensures { Acts (effect_of place (context_of state.old conditions.old.items) piece) state.old state.new conditions.old.items conditions.new.items result }
{
    match piece {
        Piece::Gap => Ok(None),
        Piece::Token(kind) => {
            emit(&mut state.tokens, place, kind)?;
            Ok(None)
        }
        Piece::Directive(directive) => direct(directive, place, state, conditions),
        Piece::Fault(fault) => Err(error_of(fault, place)),
    }
}

/// Does what a piece does where text is skipped.
pub fn pass(
    passed: Passed,
    place: Place,
    state: &mut State,
    conditions: &mut Vec<Condition>,
) -> Result<Option<FileName>, LexError>
    ensures { Acts (passed_effect place (context_of state.old conditions.old.items) passed) state.old state.new conditions.old.items conditions.new.items result }
{
    match passed {
        Passed::Nothing => {}
        Passed::Opens => open(conditions, unasked(place))?,
        Passed::Else => {
            if !turn(conditions) {
                return Err(LexError::BadDirective { place });
            }
        }
        Passed::EndIf => {
            if !close(conditions) {
                return Err(LexError::BadDirective { place });
            }
        }
        Passed::OpenComment => return Err(LexError::OpenComment { place }),
    }
    Ok(None)
}
