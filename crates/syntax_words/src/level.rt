// The levels of operands.
ghost use Rattle.std.specs.Prelude.{◌≡◌};
ghost use Rattle.syntax_reading.specs.Tables as table;
ghost use Rattle.syntax_words.specs.TableView.{view_level};

/// The levels at which operands are read, by their numbers: the higher, the tighter they bind (Python language reference, section 6.17).
#[derive(Clone, Copy, Debug, PartialEq, Eq)]
pub enum Level {
    /// `A if B else C`
    E1,
    /// `or`
    E2,
    /// `and`
    E3,
    /// `not`
    E4,
    /// `+` and `-` between operands
    E6,
    /// `*`, `//` and `%`
    E7,
    /// `-` and `+` before an operand
    E8,
}

impl Level {
    /// The level of a right operand.
    pub fn deeper(self) -> Level
        ensures { view_level result ≡ table.deeper (view_level self) }
    {
        match self {
            Level::E1 => Level::E2,
            Level::E2 => Level::E3,
            Level::E3 => Level::E4,
            Level::E4 => Level::E6,
            Level::E6 => Level::E7,
            Level::E7 => Level::E8,
            Level::E8 => Level::E8,
        }
    }
}
