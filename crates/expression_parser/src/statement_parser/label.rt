//! Labels of a `case`.

ghost use Rattle.std.specs.Prelude.{◌≡◌, IfOk, List, []};
ghost use Rattle.pascal_grammar.specs.Productions.{no_labels};
ghost use Rattle.syntax_tree.specs.Expressions.{of};
ghost use Rattle.syntax_tree.specs.Statements.{of_label, first_label, other_labels};
ghost use Rattle.expression_parser.specs.Gives.{Gives};
ghost use Rattle.expression_parser.specs.statement_parser.Chains.{chain_at};
ghost use Rattle.expression_parser.specs.statement_parser.Reading.{label_at, labels};

use crate::statement_parser::list::Labels;
use crate::{ReadError, begins, read_simple, skip, tail};
use pascal_grammar::{Kind, Lexeme};
use std::alloc::Global;
use syntax_tree::CaseLabel;

/// The labels of an arm, of which the first was read, and what stands behind them.
pub fn next_labels(
    alloc: Global,
    depth: u32,
    first: CaseLabel,
    lexemes: &[Lexeme],
) -> Result<(Labels, &[Lexeme]), ReadError>
    ensures first { IfOk result (λ x. first_label x.0.items.items ≡ of_label first) }
    ensures gives { Gives (λ x. (other_labels x.0.items.items (of no_labels []), x.1.now)) result (chain_at (labels depth) lexemes.now) }
{
    let mut all = Labels::new(alloc);
    all.push(first)?;
    let mut rest = lexemes;
    'commas: while begins(rest, Kind::Comma) {
        let (next, after) = next_label(alloc, depth, tail(rest))?;
        all.push(next)?;
        rest = after;
    }
    Ok((all, rest))
}

/// A label, and what stands behind it.
#[tactic(auto, unfolding(crate::specs::statement_parser::Reading::label_at, crate::specs::statement_parser::Reading::label_end_by))]
pub fn next_label(
    alloc: Global,
    depth: u32,
    lexemes: &[Lexeme],
) -> Result<(CaseLabel, &[Lexeme]), ReadError>
    ensures gives { Gives (λ x. (of_label x.0, x.1.now)) result (label_at depth lexemes.now) }
{
    let (low, rest) = read_simple(alloc, depth, lexemes)?;
    if !begins(rest, Kind::Dots) {
        return Ok((CaseLabel::Single(low), rest));
    }
    let rest = skip(rest, Kind::Dots)?;
    let (high, rest) = read_simple(alloc, depth, rest)?;
    Ok((CaseLabel::Range(low, high), rest))
}
