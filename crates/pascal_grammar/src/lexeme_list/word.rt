//! Reserved words, symbols and names.

ghost use Rattle.std.specs.Prelude.{◌≡◌};
ghost use Rattle.pascal_grammar.specs.lexeme_list.Words.{reserved_kind, symbol_kind, class_of};

use crate::{Kind, NameClass};
use tp_lexer::{Symbol, reserved_place};

// The kinds of the reserved words, in the order in which the lexer has them.
const KINDS: [Kind; 48] = [
    Kind::And,
    Kind::Array,
    Kind::Begin,
    Kind::Case,
    Kind::Const,
    Kind::Constructor,
    Kind::Destructor,
    Kind::Div,
    Kind::Do,
    Kind::Downto,
    Kind::Else,
    Kind::End,
    Kind::File,
    Kind::For,
    Kind::Function,
    Kind::Goto,
    Kind::If,
    Kind::Implementation,
    Kind::In,
    Kind::Inline,
    Kind::Interface,
    Kind::Label,
    Kind::Mod,
    Kind::Nil,
    Kind::Not,
    Kind::Object,
    Kind::Of,
    Kind::Or,
    Kind::Packed,
    Kind::Procedure,
    Kind::Program,
    Kind::Record,
    Kind::Repeat,
    Kind::Set,
    Kind::Shl,
    Kind::Shr,
    Kind::String,
    Kind::Then,
    Kind::To,
    Kind::Type,
    Kind::Unit,
    Kind::Until,
    Kind::Uses,
    Kind::Var,
    Kind::Virtual,
    Kind::While,
    Kind::With,
    Kind::Xor,
];

/// The kind of a reserved word; of another name it is that of a token that can stand nowhere.
pub fn reserved_kind(name: &[u8]) -> Kind
    ensures { result ≡ reserved_kind name.now }
{
    match reserved_place(name) {
        Some(place) => KINDS[place],
        None => Kind::Stray,
    }
}

/// The kind of a symbol.
pub fn symbol_kind(symbol: Symbol) -> Kind
    ensures { result ≡ symbol_kind symbol }
{
    match symbol {
        Symbol::Plus => Kind::Plus,
        Symbol::Minus => Kind::Minus,
        Symbol::Times => Kind::Times,
        Symbol::Divide => Kind::Slash,
        Symbol::Equal => Kind::Equal,
        Symbol::Less => Kind::Less,
        Symbol::Greater => Kind::Greater,
        Symbol::LessEqual => Kind::AtMost,
        Symbol::GreaterEqual => Kind::AtLeast,
        Symbol::NotEqual => Kind::Unequal,
        Symbol::OpenParenthesis => Kind::Open,
        Symbol::CloseParenthesis => Kind::Close,
        Symbol::OpenBracket => Kind::OpenBracket,
        Symbol::CloseBracket => Kind::CloseBracket,
        Symbol::Dot => Kind::Dot,
        Symbol::Comma => Kind::Comma,
        Symbol::Semicolon => Kind::Semicolon,
        Symbol::Colon => Kind::Colon,
        Symbol::Becomes => Kind::Becomes,
        Symbol::Range => Kind::Dots,
        Symbol::Caret => Kind::Caret,
        Symbol::At => Kind::Address,
    }
}

/// What a name may mean to the grammar.
pub fn class_of(name: &[u8]) -> NameClass
    ensures { result ≡ class_of name.now }
{
    if name.len() == 1 {
        NameClass::Letter
    } else if name == b"ABSOLUTE".as_slice() {
        NameClass::Absolute
    } else if name == b"EXTERNAL".as_slice() {
        NameClass::External
    } else if name == b"FORWARD".as_slice() {
        NameClass::Forward
    } else if name == b"INTERRUPT".as_slice() {
        NameClass::Interrupt
    } else {
        NameClass::Other
    }
}
