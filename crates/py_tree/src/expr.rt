// Expressions.
use crate::row::Row;
use crate::spec::{Convert, Spec};
use crate::spellings::{Spelling, Spellings};
use crate::token::Token;
// A `Box` over the global allocator that is seen as its value: a type that leads back to itself needs one.
use sqlite_items::Boxed;

/// An expression (Python language reference, section 6). What the tokens show stands in it: round brackets, and a last comma.
///
/// It is held, passed and given as a `Boxed<Expr>`: each field of each variant is a place to the prover, so a function with branches that has
/// an `Expr` of its own takes it minutes.
#[cycle(expr)]
#[derive(Debug, Drop)]
pub enum Expr {
    /// `VALUE if TEST else OTHER`
    Conditional {
        value: Boxed<Expr>,
        test: Boxed<Expr>,
        other: Boxed<Expr>,
    },
    /// `LEFT or RIGHT`
    Or(Boxed<Expr>, Boxed<Expr>),
    /// `LEFT and RIGHT`
    And(Boxed<Expr>, Boxed<Expr>),
    /// `not OPERAND`
    Not(Boxed<Expr>),
    /// Two or more operands with comparisons between them: the first, the first comparison, the second, and what follows.
    Chain(Boxed<Expr>, Comparison, Boxed<Expr>, Row<Link>),
    /// `OPERAND is None`
    IsNone(Boxed<Expr>),
    /// `OPERAND is not None`
    IsNotNone(Boxed<Expr>),
    /// `LEFT + RIGHT`
    Add(Boxed<Expr>, Boxed<Expr>),
    /// `LEFT - RIGHT`
    Subtract(Boxed<Expr>, Boxed<Expr>),
    /// `LEFT * RIGHT`
    Multiply(Boxed<Expr>, Boxed<Expr>),
    /// `LEFT // RIGHT`
    Floor(Boxed<Expr>, Boxed<Expr>),
    /// `LEFT % RIGHT`
    Remainder(Boxed<Expr>, Boxed<Expr>),
    /// `- OPERAND`
    Minus(Boxed<Expr>),
    /// `+ OPERAND`
    Plus(Boxed<Expr>),
    /// `BASE ** EXPONENT`
    Power(Boxed<Expr>, Boxed<Expr>),
    /// `CALLEE(ARGUMENTS)`
    Call {
        callee: Boxed<Expr>,
        arguments: Row<Argument>,
        comma: bool,
    },
    /// `BASE[POSITION]`
    Index(Boxed<Expr>, Boxed<Expr>),
    /// `BASE[FROM:UNTIL]`
    Slice {
        base: Boxed<Expr>,
        from: Option<Boxed<Expr>>,
        until: Option<Boxed<Expr>>,
    },
    /// `BASE.NAME`
    Attribute(Boxed<Expr>, Spelling),
    /// `None`, `True`, `False`, a whole number or a text.
    Literal(Token),
    /// A text with fields: its spelling, and what stands between its quotes.
    FText(Spelling, Row<TextPiece>),
    /// A name.
    Name(Spelling),
    /// `(INNER)`
    Paren(Boxed<Expr>),
    /// `(ITEMS)`: none, or at least one comma.
    Tuple {
        items: Row<Boxed<Expr>>,
        comma: bool,
    },
    /// `[ITEMS]`
    List {
        items: Row<Boxed<Expr>>,
        comma: bool,
    },
    /// `{KEY: ITEM, ..}`
    Dict {
        pairs: Row<Pair>,
        comma: bool,
    },
    /// `[ITEM for TARGETS in FROM if TEST ..]`
    ListOf {
        item: Boxed<Expr>,
        targets: Spellings,
        from: Boxed<Expr>,
        tests: Row<Boxed<Expr>>,
    },
    /// `{KEY: ITEM for TARGETS in FROM if TEST ..}`
    DictOf {
        key: Boxed<Expr>,
        item: Boxed<Expr>,
        targets: Spellings,
        from: Boxed<Expr>,
        tests: Row<Boxed<Expr>>,
    },
    /// A tuple without brackets.
    Bare {
        items: Row<Boxed<Expr>>,
        comma: bool,
    },
}

/// A comparison.
#[derive(Clone, Copy, Debug, PartialEq, Eq)]
pub enum Comparison {
    /// `==`
    Equal,
    /// `!=`
    Unequal,
    /// `<`
    Less,
    /// `<=`
    AtMost,
    /// `>`
    Greater,
    /// `>=`
    AtLeast,
    /// `in`
    In,
    /// `not in`
    NotIn,
}

/// A comparison of a chain with the operand behind it.
#[cycle(expr)]
#[derive(Debug, Drop)]
pub struct Link {
    pub comparison: Comparison,
    pub operand: Boxed<Expr>,
}

/// An argument of a call.
#[cycle(expr)]
#[derive(Debug, Drop)]
pub enum Argument {
    /// `VALUE`
    Positional(Boxed<Expr>),
    /// `NAME=VALUE`
    Keyword(Spelling, Boxed<Expr>),
}

/// `KEY: ITEM` of a dictionary display.
#[cycle(expr)]
#[derive(Debug, Drop)]
pub struct Pair {
    pub key: Boxed<Expr>,
    pub item: Boxed<Expr>,
}

/// A piece of an f-text.
#[cycle(expr)]
#[derive(Debug, Drop)]
pub enum TextPiece {
    /// Characters, as what they say.
    Chars(Spelling),
    /// A field: its expression, and how its value becomes a text.
    Field {
        value: Boxed<Expr>,
        convert: Convert,
        spec: Option<Spec>,
    },
}
