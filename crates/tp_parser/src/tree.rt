//! From tokens to the tree of a source.

ghost use Rattle.std.specs.Prelude.{◌≡◌, IfErr, IfOk, List};
ghost use Rattle.pascal_grammar.specs.Parts.{source};
ghost use Rattle.pascal_grammar.specs.Rules.{grammar};
ghost use Rattle.ll1_grammar.specs.Sources.{Spells};
ghost use Rattle.tp_lexer.specs.declared.token.Token.{Token};
ghost use Rattle.pascal_grammar.specs.lexeme_list.Lexemes.{lexemes_of};
ghost use Rattle.syntax_tree.specs.Expressions.{Parsed};
ghost use Rattle.syntax_tree.specs.source_tree.Sources.{of_tree};
ghost use Rattle.expression_parser.specs.Gives.{Gives};
ghost use Rattle.tp_parser.specs.Parsing.{IsSource, IsReadAs, IsFault, AreAlike};
ghost use Rattle.tp_parser.specs.declared.error.ParseError.{ParseError};
ghost use Rattle.tp_parser.specs.declared.error.ParseError.TheVariants.{NoMemory};
ghost use Rattle.tp_parser.specs.Whole.{whole_at};

use crate::error::ParseError;
use crate::source::next_source;
use expression_parser::ReadError;
use pascal_grammar::lexeme_list::lexemes_of;
use pascal_grammar::{Lexeme, grammar_laws};
use std::alloc::Global;
use syntax_tree::source_tree::Tree;
use tp_lexer::Token;

/// The most constructs that may be open at once.
pub const OPEN_LIMIT: u32 = 200;

/// The tree of the program or unit that the tokens spell.
pub fn parse(alloc: Global, tokens: &[Token]) -> Result<Tree, ParseError>
    // What is read is spelled so.
    ensures found { IfOk result (λ tree. IsSource tokens.now (of_tree tree)) }
    // What is spelled so is read, or memory runs out.
    ensures only { (t : Parsed) → IsSource tokens.now t → IsReadAs result t }
    // A fault is the first one, and stands at its place.
    ensures fault { IfErr result (λ e. IsFault tokens.now e) }
{
    let lexemes = lexemes_of(alloc, tokens)?;
    match whole_source(alloc, lexemes.as_slice()) {
        Ok(tree) => Ok(tree),
        Err(error) => Err(ParseError::placed(tokens, lexemes.as_slice(), error)),
    }
}

// The source that all of the lexemes spell.
fn whole_source(alloc: Global, lexemes: &[Lexeme]) -> Result<Tree, ReadError>
    ensures { Gives (λ tree. of_tree tree) result (whole_at OPEN_LIMIT lexemes.now) }
{
    let (tree, rest) = next_source(alloc, OPEN_LIMIT, lexemes)?;
    match rest {
        [] => Ok(tree),
        [_, ..] => Err(ReadError::Syntax(rest.len())),
    }
}

/// Tokens spell one tree at most, however many constructs are open; it does nothing.
pub fn one_tree()
    ensures { (tokens : List Token) (t u : Parsed) → Spells grammar source t (lexemes_of tokens) → Spells grammar source u (lexemes_of tokens) → t ≡ u }
{
    grammar_laws();
}

/// Tokens have one fault at most, and none where they spell a source; it does nothing.
pub fn one_fault()
    // Two faults are of one kind and at one place, where neither is out of memory.
    ensures alike { (tokens : List Token) (x y : ParseError) → IsFault tokens x → IsFault tokens y → AreAlike x y }
    // Where a source is spelled, nothing but out of memory is a fault.
    ensures none { (tokens : List Token) (t : Parsed) (x : ParseError) → IsSource tokens t → IsFault tokens x → x ≡ NoMemory }
{}
