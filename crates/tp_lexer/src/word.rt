//! Words.

ghost use Rattle.std.specs.Prelude.{◌≡◌, ◌<◌, IfSome, length, nat_eq, position};
ghost use Rattle.std.specs.List.{list_any};
ghost use Rattle.std.specs.Cmp.Lexicographic.{pointwise};
ghost use Rattle.tp_lexer.specs.Words.{name_of, reserved, is_reserved, word_of};

use crate::token::TokenKind;
use type_layout::Name;

// The words that no source may declare.
const RESERVED: [&[u8]; 48] = [
    b"AND",
    b"ARRAY",
    b"BEGIN",
    b"CASE",
    b"CONST",
    b"CONSTRUCTOR",
    b"DESTRUCTOR",
    b"DIV",
    b"DO",
    b"DOWNTO",
    b"ELSE",
    b"END",
    b"FILE",
    b"FOR",
    b"FUNCTION",
    b"GOTO",
    b"IF",
    b"IMPLEMENTATION",
    b"IN",
    b"INLINE",
    b"INTERFACE",
    b"LABEL",
    b"MOD",
    b"NIL",
    b"NOT",
    b"OBJECT",
    b"OF",
    b"OR",
    b"PACKED",
    b"PROCEDURE",
    b"PROGRAM",
    b"RECORD",
    b"REPEAT",
    b"SET",
    b"SHL",
    b"SHR",
    b"STRING",
    b"THEN",
    b"TO",
    b"TYPE",
    b"UNIT",
    b"UNTIL",
    b"USES",
    b"VAR",
    b"VIRTUAL",
    b"WHILE",
    b"WITH",
    b"XOR",
];

fn place_among(name: &[u8], words: &[&[u8]]) -> Option<usize>
    ensures value { result ≡ position (λ word. pointwise nat_eq name.now word.now) words.now }
    ensures within { IfSome result (λ place. place < length words.now) }
{
    words.iter().position(|word| name == *word)
}

fn is_one_of(name: &[u8], words: &[&[u8]]) -> bool
    ensures { result ≡ list_any (λ word. pointwise nat_eq name.now word.now) words.now }
{
    words.iter().any(|word| name == *word)
}

/// The place of a name among the reserved words, which stand in the order of the alphabet.
pub fn reserved_place(name: &[u8]) -> Option<usize>
    ensures value { result ≡ position (λ word. pointwise nat_eq name.now word) reserved }
    ensures within { IfSome result (λ place. place < 48) }
{
    place_among(name, &RESERVED)
}

fn is_reserved(name: &[u8]) -> bool
    ensures { result ≡ is_reserved name.now }
{
    is_one_of(name, &RESERVED)
}

/// The token of a word with this name.
pub fn word_of(name: Name) -> TokenKind
    ensures { result ≡ word_of name }
{
    if is_reserved(name.as_bytes()) {
        TokenKind::Reserved(name)
    } else {
        TokenKind::Word(name)
    }
}

/// The name that bytes spell, where they spell one.
pub fn name_of(bytes: &[u8]) -> Option<Name>
    ensures { result ≡ name_of bytes.now }
{
    Name::from_word(bytes)
}
