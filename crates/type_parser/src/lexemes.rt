//! Names of more than one letter.

ghost use Rattle.std.specs.Prelude.{◌≡◌, ◌≤◌, IfOk, suc, length};
ghost use Rattle.expression_parser.specs.Gives.{Gives, ask};
ghost use Rattle.pascal_grammar.specs.Asked.{long_name};
ghost use Rattle.syntax_tree.specs.Expressions.{name_of};

use expression_parser::ReadError;
use pascal_grammar::{Lexeme, NameClass, Terminal};
use syntax_tree::Identifier;

/// The name of more than one letter that stands there, and what stands behind it.
pub fn long_identifier(lexemes: &[Lexeme]) -> Result<(Identifier, &[Lexeme]), ReadError>
    ensures gives { Gives (λ x. (name_of x.0, x.1.now)) result (ask long_name lexemes.now) }
    ensures shorter { IfOk result (λ x. suc (length x.1.now) ≤ length lexemes.now) }
{
    match lexemes {
        [
            Lexeme {
                terminal: Terminal::Name(
                    NameClass::Absolute
                    | NameClass::External
                    | NameClass::Forward
                    | NameClass::Interrupt
                    | NameClass::Other,
                    name,
                ),
                position,
            },
            rest @ ..,
        ] => {
            let found = Identifier {
                name: name.copied(),
                position: *position,
            };
            Ok((found, rest))
        }
        _ => Err(ReadError::Syntax(lexemes.len())),
    }
}
