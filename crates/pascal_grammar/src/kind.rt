//! The kinds of lexemes.

ghost use Rattle.std.specs.Prelude.{◌≡◌};
ghost use Rattle.pascal_grammar.specs.Asked.{is_name};

/// What a lexeme is: a reserved word, a symbol, a name, a constant. A name of one letter, and four names that mean something
/// of their own behind a header or a variable, have kinds of their own.
#[derive(Clone, Copy, Debug, PartialEq, Eq)]
pub enum Kind {
    And,
    Array,
    Begin,
    Case,
    Const,
    Constructor,
    Destructor,
    Div,
    Do,
    Downto,
    Else,
    End,
    File,
    For,
    Function,
    Goto,
    If,
    Implementation,
    In,
    Inline,
    Interface,
    Label,
    Mod,
    Nil,
    Not,
    Object,
    Of,
    Or,
    Packed,
    Procedure,
    Program,
    Record,
    Repeat,
    Set,
    Shl,
    Shr,
    String,
    Then,
    To,
    Type,
    Unit,
    Until,
    Uses,
    Var,
    Virtual,
    While,
    With,
    Xor,
    Plus,
    Minus,
    Times,
    Slash,
    Equal,
    Less,
    Greater,
    AtMost,
    AtLeast,
    Unequal,
    Open,
    Close,
    OpenBracket,
    CloseBracket,
    Dot,
    Comma,
    Semicolon,
    Colon,
    Becomes,
    Dots,
    Caret,
    Address,
    Letter,
    Absolute,
    External,
    Forward,
    Interrupt,
    Name,
    Number,
    Text,
    Real,
    /// A token that can stand nowhere.
    Stray,
}

impl Kind {
    /// Whether it is a name of any kind.
    pub fn is_name(self) -> bool
        ensures { result ≡ is_name self }
    {
        matches!(
            self,
            Kind::Letter
                | Kind::Absolute
                | Kind::External
                | Kind::Forward
                | Kind::Interrupt
                | Kind::Name
        )
    }
}
