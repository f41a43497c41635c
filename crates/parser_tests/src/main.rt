//! Texts as tokens, and texts that the readers take or refuse, with places worked out by hand from the grammar.
//!
//! `data/rows.txt` has texts with what they are answered. Each that is answered something else is written with its answer, and then
//! how many there are.
#![tactic(auto)]

mod declarations;
mod expressions;
mod lexemes;
mod outcome;
mod sources;
mod statements;
mod texts;
mod tokens;
mod types;
mod values;

use crate::texts::{tokens_of, written_out};
use pascal_grammar::lexeme_list::lexemes_of;
use std::alloc::{AllocError, Global};
use std::io;
use test_rows::{Line, Rows, check_rows, empty_line};

/// Writes what a text is answered where this is asked of it: of the text, of its tokens, or of its lexemes.
fn put_answer(alloc: Global, out: &mut Line, asked: &str, source: &str) -> Result<(), AllocError> {
    if tokens::put_answer(alloc, out, asked, source)? {
        return Ok(());
    }
    let tokens = tokens_of(alloc, source)?;
    if sources::put_answer(alloc, out, asked, tokens.as_slice()) {
        return Ok(());
    }
    let lexemes = lexemes_of(alloc, tokens.as_slice())?;
    lexemes::put_answer(alloc, out, asked, lexemes.as_slice());
    Ok(())
}

/// Texts, of which their heading says what is asked.
#[derive(Drop)]
struct TextRows;

impl Rows for TextRows {
    fn answered(&self, alloc: Global, heading: &str, row: &str) -> Result<Line, AllocError> {
        let source = written_out(alloc, row)?;
        let mut answer = empty_line(alloc);
        put_answer(alloc, &mut answer, heading, source.as_str())?;
        Ok(answer)
    }
}

fn main(rt: HostRuntime) -> io::Result<()> {
    let rows = check_rows(&rt, &["rows.txt"], &mut TextRows)?;
    println!(rt; "{rows} rows")
}
