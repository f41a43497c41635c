//! Names, parameters, results and methods, for the readers of what holds them.

ghost use Rattle.std.specs.Prelude.{◌≡◌, ◌≤◌, IfOk, List, length, Ok, true};
ghost use Rattle.pascal_grammar.specs.Follows.{follows};
ghost use Rattle.pascal_grammar.specs.Lexemes.{front_kind};
ghost use Rattle.pascal_grammar.specs.Parts.{identifiers, parameters, result_type, result as optional_result, methods};
ghost use Rattle.pascal_grammar.specs.declared.lexeme.Lexeme.{Lexeme};
ghost use Rattle.syntax_tree.specs.Expressions.{Parsed};
ghost use Rattle.expression_parser.specs.Gives.{Gives};
ghost use Rattle.expression_parser.specs.Reading.{inside};
ghost use Rattle.expression_parser.specs.Spelled.{Spelled};
ghost use Rattle.type_parser.specs.parameter_parser.Reading.{identifiers_at, parameters_at, result_type_at, result_at, methods_at};
ghost use Rattle.syntax_tree.specs.type_tree.Parameters.{identifiers_of, parameters_of, result_type_of, result_of, methods_of};

use crate::parameter_parser::method::next_methods;
use crate::parameter_parser::names::next_identifiers;
use crate::parameter_parser::parameter::{next_parameters, next_result, next_result_type};
use expression_parser::ReadError;
use pascal_grammar::Lexeme;
use std::alloc::Global;
use syntax_tree::Identifier;
use syntax_tree::type_tree::{Method, NamedType, ParameterGroup};

/// The names behind commas that the first lexemes spell, at least one, and what stands behind them. An error is out of
/// memory, or the first lexeme at fault.
pub fn read_identifiers(
    alloc: Global,
    lexemes: &[Lexeme],
) -> Result<(Vec<Identifier>, &[Lexeme]), ReadError>
    // Which fault it is.
    ensures gives { Gives (λ x. (identifiers_of x.0.items, x.1.now)) result (identifiers_at lexemes.now) }
    ensures shorter { IfOk result (λ x. length x.1.now ≤ length lexemes.now) }
    // What is read is spelled so; names open no construct.
    ensures spelled { IfOk result (λ x. Spelled identifiers 0 lexemes.now (identifiers_of x.0.items) x.1.now) }
    // What is spelled so is read, where it is followed by what may follow names.
    ensures only { (limit : _) (t : Parsed) (rest : List Lexeme) → Spelled identifiers limit lexemes.now t rest → follows identifiers (front_kind rest) ≡ true → Gives {Y = Parsed × List Lexeme} (λ x. (identifiers_of x.0.items, x.1.now)) result (Ok (t, rest)) }
{
    next_identifiers(alloc, lexemes)
}

/// The parameters in parentheses that the first lexemes spell, or none where no parenthesis stands, and what stands behind
/// them, where at most `depth` constructs may be open at once.
pub fn read_parameters(
    alloc: Global,
    depth: u32,
    lexemes: &[Lexeme],
) -> Result<(Vec<ParameterGroup>, &[Lexeme]), ReadError>
    ensures gives { Gives (λ x. (parameters_of x.0.items, x.1.now)) result (parameters_at (inside depth) lexemes.now) }
    ensures shorter { IfOk result (λ x. length x.1.now ≤ length lexemes.now) }
    ensures spelled { IfOk result (λ x. Spelled parameters depth lexemes.now (parameters_of x.0.items) x.1.now) }
    ensures only { (t : Parsed) (rest : List Lexeme) → Spelled parameters depth lexemes.now t rest → follows parameters (front_kind rest) ≡ true → Gives {Y = Parsed × List Lexeme} (λ x. (parameters_of x.0.items, x.1.now)) result (Ok (t, rest)) }
{
    next_parameters(alloc, depth, lexemes)
}

/// The type of a result that the first lexemes spell, and what stands behind it.
pub fn read_result_type(lexemes: &[Lexeme]) -> Result<(NamedType, &[Lexeme]), ReadError>
    ensures gives { Gives (λ x. (result_type_of x.0, x.1.now)) result (result_type_at lexemes.now) }
    ensures shorter { IfOk result (λ x. length x.1.now ≤ length lexemes.now) }
    ensures spelled { IfOk result (λ x. Spelled result_type 0 lexemes.now (result_type_of x.0) x.1.now) }
    ensures only { (limit : _) (t : Parsed) (rest : List Lexeme) → Spelled result_type limit lexemes.now t rest → follows result_type (front_kind rest) ≡ true → Gives {Y = Parsed × List Lexeme} (λ x. (result_type_of x.0, x.1.now)) result (Ok (t, rest)) }
{
    next_result_type(lexemes)
}

/// The colon and the type of a result that the first lexemes spell, or none where no colon stands, and what stands behind them.
pub fn read_result(lexemes: &[Lexeme]) -> Result<(Option<NamedType>, &[Lexeme]), ReadError>
    ensures gives { Gives (λ x. (result_of x.0, x.1.now)) result (result_at lexemes.now) }
    ensures shorter { IfOk result (λ x. length x.1.now ≤ length lexemes.now) }
    ensures spelled { IfOk result (λ x. Spelled optional_result 0 lexemes.now (result_of x.0) x.1.now) }
    ensures only { (limit : _) (t : Parsed) (rest : List Lexeme) → Spelled optional_result limit lexemes.now t rest → follows optional_result (front_kind rest) ≡ true → Gives {Y = Parsed × List Lexeme} (λ x. (result_of x.0, x.1.now)) result (Ok (t, rest)) }
{
    next_result(lexemes)
}

/// The methods that the first lexemes spell, each with its semicolon, and what stands behind them, where at most `depth`
/// constructs may be open at once.
pub fn read_methods(
    alloc: Global,
    depth: u32,
    lexemes: &[Lexeme],
) -> Result<(Vec<Method>, &[Lexeme]), ReadError>
    ensures gives { Gives (λ x. (methods_of x.0.items, x.1.now)) result (methods_at (inside depth) lexemes.now) }
    ensures shorter { IfOk result (λ x. length x.1.now ≤ length lexemes.now) }
    ensures spelled { IfOk result (λ x. Spelled methods depth lexemes.now (methods_of x.0.items) x.1.now) }
    ensures only { (t : Parsed) (rest : List Lexeme) → Spelled methods depth lexemes.now t rest → follows methods (front_kind rest) ≡ true → Gives {Y = Parsed × List Lexeme} (λ x. (methods_of x.0.items, x.1.now)) result (Ok (t, rest)) }
{
    next_methods(alloc, depth, lexemes)
}
