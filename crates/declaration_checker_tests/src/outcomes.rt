//! Texts of declarations through the lexer, the readers and the checker, as those of a program without used units. Each step has a
//! function of its own, since the proof of a function grows with what it holds at each of its exits.

use crate::shown::show;
use declaration_checker::declarations::Home;
use pascal_grammar::Lexeme;
use scopes::{BlockKind, Scope};
use std::alloc::{AllocError, Global};
use syntax_tree::source_tree::Declaration;
use tp_check_decl::routines::{Draft, Site, all_judged};
use tp_parser::declaration_parser::read_declarations;
use type_layout::Name;
use typed_tree::{Globals, Locals};
use typing_rules::Refusal;
use typing_samples::{Line, empty_line, lexemes};

// The block of the program itself.
const OUTERMOST: Site = Site {
    home: Home::Unit,
    outer: None,
};

// The declarations that these lexemes are, all of them.
fn read(alloc: Global, lexemes: &[Lexeme]) -> Result<Vec<Declaration>, AllocError> {
    match read_declarations(alloc, 200, lexemes) {
        Ok((all, [])) => Ok(all),
        _ => Err(AllocError),
    }
}

fn parsed(alloc: Global, source: &str) -> Result<Vec<Declaration>, AllocError> {
    let list = lexemes(alloc, source)?;
    read(alloc, list.as_slice())
}

fn program() -> Result<Name, AllocError> {
    match Name::new(b"P") {
        Some(name) => Ok(name),
        None => Err(AllocError),
    }
}

fn scope(alloc: Global, unit: &Name) -> Result<Scope, AllocError> {
    let mut scope = Scope::new(alloc, unit.copied())?;
    scope.begin(BlockKind::Part)?;
    Ok(scope)
}

fn empty_draft(alloc: Global) -> Draft {
    Draft {
        globals: Globals::new(alloc),
        slots: Vec::new(alloc),
    }
}

fn judged(
    alloc: Global,
    all: &[Declaration],
    scope: &mut Scope,
    draft: &mut Draft,
    unit: &Name,
) -> Result<(), Refusal> {
    let mut locals = Locals::new(alloc);
    all_judged(alloc, all, scope, draft, &mut locals, unit, OUTERMOST)
}

fn shown(alloc: Global, all: &[Declaration], scope: &mut Scope, unit: &Name) -> Line {
    let mut out = empty_line(alloc);
    let mut draft = empty_draft(alloc);
    let answer = judged(alloc, all, scope, &mut draft, unit);
    show(&mut out, answer, &draft);
    out
}

fn answer_of(alloc: Global, all: &[Declaration]) -> Result<Line, AllocError> {
    let unit = program()?;
    let mut scope = scope(alloc, &unit)?;
    Ok(shown(alloc, all, &mut scope, &unit))
}

/// What declarations are answered.
pub(crate) fn answered(alloc: Global, source: &str) -> Result<Line, AllocError> {
    let all = parsed(alloc, source)?;
    answer_of(alloc, all.as_slice())
}
