//! The tokens of a source.

ghost use Rattle.std.specs.Prelude.{◌≡◌, ◌<◌, length, nat_eq, IfOk, IfErr, IsErr, MatchResult, List};
ghost use Rattle.tp_lexer.specs.declared.token.Token.{Token};
ghost use Rattle.tp_lexer.specs.declared.token.LexError.{LexError};
ghost use Rattle.tp_lexer.specs.declared.token.LexError.TheVariants.{NoMemory};
ghost use Rattle.tp_lexer.specs.Tokens.{Tokens, Breaks, AreOneList, AreOneFault};
ghost use Rattle.tp_lexer.specs.Acting.{Unless, has_name};
ghost use Rattle.std.specs.List.{list_any};
ghost use Rattle.std.specs.Cmp.Lexicographic.{pointwise};

use crate::numbers::numbers_of;
use crate::reader::read_text;
use crate::state::{State, define};
use crate::token::{LexError, Switches, Text, TokenList};
use std::alloc::{AllocError, Global};
use std::collections::HashSet;
use type_layout::{Name, Sequence};

/// How deep includes nest.
const INCLUDE_DEPTH: u32 = 8;

// The set of some names.
fn set_of(alloc: Global, names: &[Name]) -> Result<HashSet<Name>, AllocError>
    ensures { IfOk result (λ set. has_name set ≡ (λ name. list_any (λ other. pointwise nat_eq other name) names.now)) }
{
    let mut set = HashSet::new(alloc);
    for name in names {
        define(&mut set, name.copied())?;
    }
    Ok(set)
}

/// The tokens of text `main`, after includes and conditions are put in place, where these names are defined at its front.
///
/// An error is the first rule that the text breaks, at its place. A text counts up to its first byte 26.
pub fn tokens(
    alloc: Global,
    texts: &[Text],
    main: u32,
    defined: &[Name],
) -> Result<TokenList, LexError>
    requires main { main < length texts.now }

    ensures found { IfOk result (λ list. Tokens texts.now main defined.now list) }
    ensures fault { IfErr result (λ error. Unless error (Breaks texts.now main defined.now error)) }

    // Where a list stands in the relation to the text, it is what is answered, unless memory runs out; and so with a fault.
    ensures only { (list : List Token) → Tokens texts.now main defined.now list → MatchResult result (λ answer. answer ≡ list) (λ error. error ≡ NoMemory) }
    ensures only_fault { (broken : LexError) → Breaks texts.now main defined.now broken → IfErr result (λ error. Unless error (error ≡ broken)) }
    ensures no_list { (broken : LexError) → Breaks texts.now main defined.now broken → IsErr result }
{
    let switches = Switches {
        r: false,
        b: false,
        f: false,
        o: false,
    };
    let mut state = State {
        switches,
        defined: set_of(alloc, defined)?,
        tokens: Vec::new(alloc),
    };
    let numbers = numbers_of(alloc, texts)?;
    match read_text(
        alloc,
        texts,
        &numbers,
        INCLUDE_DEPTH,
        main as usize,
        &mut state,
    ) {
        Ok(()) => {
            let State { tokens, .. } = state;
            Ok(Sequence::from_vec(tokens))
        }
        Err(error) => Err(error),
    }
}

/// At most one list stands in the relation to a text, and none where the text breaks a rule.
pub fn one_list()
    ensures list { AreOneList }
    ensures fault { AreOneFault }
{}
