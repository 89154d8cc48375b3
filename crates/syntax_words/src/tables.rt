// What single words say: operators of each level, comparisons, what goes on behind an operand, brackets.
ghost use Rattle.std.specs.Prelude.{◌≡◌, option_map};
ghost use Rattle.py_tree.specs.ExprView.{view_comparison};
ghost use Rattle.syntax_reading.specs.Tables as table;
ghost use Rattle.syntax_words.specs.FixedView.{view_fixed};
ghost use Rattle.syntax_words.specs.TableView.{view_level, view_operator, view_prefix, view_tail, view_bracket};

use crate::fixed::Fixed;
use crate::level::Level;
use py_tree::Comparison;

/// An operator that stands between two operands and groups to the left.
#[derive(Clone, Copy, Debug, PartialEq, Eq)]
pub enum Operator {
    Or,
    And,
    Add,
    Subtract,
    Multiply,
    Floor,
    Remainder,
}

/// An operator that stands before its operand.
#[derive(Clone, Copy, Debug, PartialEq, Eq)]
pub enum Prefix {
    Not,
    Minus,
    Plus,
}

/// What goes on behind an operand.
#[derive(Clone, Copy, Debug, PartialEq, Eq)]
pub enum Tail {
    /// `(`
    Call,
    /// `[`
    Index,
    /// `.`
    Attribute,
}

/// What a bracket opens.
#[derive(Clone, Copy, Debug, PartialEq, Eq)]
pub enum Bracket {
    Round,
    Square,
    Brace,
}

/// The operator of this level that the word is, between operands.
pub fn operator_at(level: Level, fixed: Fixed) -> Option<Operator>
    ensures { option_map view_operator result ≡ table.operator_at (view_level level) (view_fixed fixed) }
{
    match (level, fixed) {
        (Level::E2, Fixed::Or) => Some(Operator::Or),
        (Level::E3, Fixed::And) => Some(Operator::And),
        (Level::E6, Fixed::Plus) => Some(Operator::Add),
        (Level::E6, Fixed::Minus) => Some(Operator::Subtract),
        (Level::E7, Fixed::Star) => Some(Operator::Multiply),
        (Level::E7, Fixed::Slashes) => Some(Operator::Floor),
        (Level::E7, Fixed::Percent) => Some(Operator::Remainder),
        _ => None,
    }
}

/// The operator of this level that the word is, before its operand.
pub fn prefix_at(level: Level, fixed: Fixed) -> Option<Prefix>
    ensures { option_map view_prefix result ≡ table.prefix_at (view_level level) (view_fixed fixed) }
{
    match (level, fixed) {
        (Level::E4, Fixed::Not) => Some(Prefix::Not),
        (Level::E8, Fixed::Minus) => Some(Prefix::Minus),
        (Level::E8, Fixed::Plus) => Some(Prefix::Plus),
        _ => None,
    }
}

/// The comparison that the word is.
pub fn comparison_of(fixed: Fixed) -> Option<Comparison>
    ensures { option_map view_comparison result ≡ table.comparison_of (view_fixed fixed) }
{
    match fixed {
        Fixed::Equal => Some(Comparison::Equal),
        Fixed::Unequal => Some(Comparison::Unequal),
        Fixed::Less => Some(Comparison::Less),
        Fixed::AtMost => Some(Comparison::AtMost),
        Fixed::Greater => Some(Comparison::Greater),
        Fixed::AtLeast => Some(Comparison::AtLeast),
        Fixed::In => Some(Comparison::In),
        _ => None,
    }
}

/// What the word begins behind an operand.
pub fn tail_of(fixed: Fixed) -> Option<Tail>
    ensures { option_map view_tail result ≡ table.tail_of (view_fixed fixed) }
{
    match fixed {
        Fixed::RoundOpen => Some(Tail::Call),
        Fixed::SquareOpen => Some(Tail::Index),
        Fixed::Dot => Some(Tail::Attribute),
        _ => None,
    }
}

/// What the word opens as a bracket.
pub fn bracket_of(fixed: Fixed) -> Option<Bracket>
    ensures { option_map view_bracket result ≡ table.bracket_of (view_fixed fixed) }
{
    match fixed {
        Fixed::RoundOpen => Some(Bracket::Round),
        Fixed::SquareOpen => Some(Bracket::Square),
        Fixed::BraceOpen => Some(Bracket::Brace),
        _ => None,
    }
}
