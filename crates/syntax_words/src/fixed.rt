// Keywords and marks that have a place in a form.
ghost use Rattle.std.specs.Prelude.{◌≡◌};
ghost use Rattle.syntax_reading.specs.Words as reading;
ghost use Rattle.syntax_words.specs.FixedView.{view_fixed};

/// A keyword or a mark that has a place in a form.
#[derive(Clone, Copy, Debug, PartialEq, Eq)]
pub enum Fixed {
    /// `if`
    If,
    /// `else`
    Else,
    /// `or`
    Or,
    /// `and`
    And,
    /// `not`
    Not,
    /// `in`
    In,
    /// `is`
    Is,
    /// `for`
    For,
    /// `elif`
    Elif,
    /// `while`
    While,
    /// `def`
    Def,
    /// `return`
    Return,
    /// `pass`
    Pass,
    /// `break`
    Break,
    /// `continue`
    Continue,
    /// `import`
    Import,
    /// `as`
    As,
    /// `with`
    With,
    /// `+`
    Plus,
    /// `-`
    Minus,
    /// `*`
    Star,
    /// `**`
    Stars,
    /// `//`
    Slashes,
    /// `%`
    Percent,
    /// `==`
    Equal,
    /// `!=`
    Unequal,
    /// `<`
    Less,
    /// `<=`
    AtMost,
    /// `>`
    Greater,
    /// `>=`
    AtLeast,
    /// `=`
    Assign,
    /// `+=`
    AddTo,
    /// `-=`
    SubtractFrom,
    /// `*=`
    MultiplyBy,
    /// `//=`
    FloorBy,
    /// `%=`
    RemainderBy,
    /// `(`
    RoundOpen,
    /// `)`
    RoundClose,
    /// `[`
    SquareOpen,
    /// `]`
    SquareClose,
    /// `{`
    BraceOpen,
    /// `}`
    BraceClose,
    /// `,`
    Comma,
    /// `:`
    Colon,
    /// `.`
    Dot,
    /// `@`
    AtSign,
}

impl Fixed {
    // Its place in the list above, by which it is told from the others.
    fn code(self) -> u8
        ensures { result ≡ reading.code (view_fixed self) }
    {
        self as u8
    }

    /// Whether it is this one.
    pub fn is(self, other: Fixed) -> bool
        ensures { result ≡ reading.same (view_fixed self) (view_fixed other) }
    {
        self.code() == other.code()
    }
}
