//! Symbols.

ghost use Rattle.std.specs.Prelude.{◌≡◌};
ghost use Rattle.tp_lexer.specs.Symbols.{symbol_of};

/// A token that is no word, number or constant.
#[derive(Clone, Copy, Debug, PartialEq, Eq)]
pub enum Symbol {
    Plus,
    Minus,
    Times,
    Divide,
    Equal,
    Less,
    Greater,
    LessEqual,
    GreaterEqual,
    NotEqual,
    OpenParenthesis,
    CloseParenthesis,
    OpenBracket,
    CloseBracket,
    Dot,
    Comma,
    Semicolon,
    Colon,
    Becomes,
    Range,
    Caret,
    At,
}

/// The symbol that these bytes spell.
pub fn symbol_of(spelling: &[u8]) -> Option<Symbol>
    ensures { result ≡ symbol_of spelling.now }
{
    match spelling {
        b"+" => Some(Symbol::Plus),
        b"-" => Some(Symbol::Minus),
        b"*" => Some(Symbol::Times),
        b"/" => Some(Symbol::Divide),
        b"=" => Some(Symbol::Equal),
        b"<" => Some(Symbol::Less),
        b">" => Some(Symbol::Greater),
        b"<=" => Some(Symbol::LessEqual),
        b">=" => Some(Symbol::GreaterEqual),
        b"<>" => Some(Symbol::NotEqual),
        b"(" => Some(Symbol::OpenParenthesis),
        b")" => Some(Symbol::CloseParenthesis),
        b"[" | b"(." => Some(Symbol::OpenBracket),
        b"]" | b".)" => Some(Symbol::CloseBracket),
        b"." => Some(Symbol::Dot),
        b"," => Some(Symbol::Comma),
        b";" => Some(Symbol::Semicolon),
        b":" => Some(Symbol::Colon),
        b":=" => Some(Symbol::Becomes),
        b".." => Some(Symbol::Range),
        b"^" => Some(Symbol::Caret),
        b"@" => Some(Symbol::At),
        _ => None,
    }
}
