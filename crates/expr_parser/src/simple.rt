// Expressions of what they are made of, where that is of a fixed number of parts.
ghost use Rattle.std.specs.Prelude.{◌≡◌, ◌+◌, ◌<◌, ◌^◌, max, IfOk};
ghost use Rattle.py_tree.specs.ExprView.{view};
ghost use Rattle.py_tree.specs.Expressions as form;
ghost use Rattle.syntax_reading.specs.Words.{literal_of};
ghost use Rattle.syntax_words.specs.TableView.{view_operator, view_prefix};
ghost use Rattle.expr_parser.specs.BoundView.{bound};

use crate::bound::Bound;
use crate::part::Part;
use py_tree::{Expr, Spelling, Token, TokenKind};
use sqlite_items::Boxed;
use std::alloc::{AllocError, Global};
use syntax_words::{Operator, Prefix};

/// A spelling of its own, with what is kept beside it.
pub fn copy(alloc: Global, spelling: &Spelling) -> Result<Spelling, AllocError>
    ensures { IfOk result (λ copied. copied ≡ spelling.now) }
{
    let text = String::from_str(alloc, spelling.items())?;
    Ok(match spelling.number() {
        Some(number) => Spelling::of_number(text, number),
        None => Spelling::of_name(text, spelling.place()),
    })
}

/// A name.
pub fn name(alloc: Global, spelling: &Spelling) -> Result<Part, AllocError>
    ensures tree { IfOk result (λ p. view p.expr ≡ form.name spelling.now) }
    ensures depth { IfOk result (λ p. p.depth ≡ 1) }
{
    Ok(Part {
        expr: Boxed::new(alloc, Expr::Name(copy(alloc, spelling)?))?,
        depth: 1,
    })
}

/// A constant, a number or a text.
pub fn literal(alloc: Global, kind: TokenKind, spelling: &Spelling) -> Result<Part, AllocError>
    ensures tree { IfOk result (λ p. view p.expr ≡ form.literal (literal_of kind spelling.now)) }
    ensures depth { IfOk result (λ p. p.depth ≡ 1) }
{
    let spelling = copy(alloc, spelling)?;
    Ok(Part {
        expr: Boxed::new(alloc, Expr::Literal(Token { kind, spelling }))?,
        depth: 1,
    })
}

/// `VALUE if TEST else OTHER`
pub fn conditional(alloc: Global, value: Part, test: Part, other: Part) -> Result<Part, AllocError>
    requires { max value.depth (max test.depth other.depth) + 1 < 2 ^ 32 }
    ensures tree { IfOk result (λ p. view p.expr ≡ form.conditional (view value.expr) (view test.expr) (view other.expr)) }
    ensures depth { IfOk result (λ p. p.depth ≡ max value.depth (max test.depth other.depth) + 1) }
{
    let depth = value.depth.max(test.depth.max(other.depth)) + 1;
    let expr = Expr::Conditional {
        value: value.expr,
        test: test.expr,
        other: other.expr,
    };
    Ok(Part {
        expr: Boxed::new(alloc, expr)?,
        depth,
    })
}

fn binary_expr(operator: Operator, left: Boxed<Expr>, right: Boxed<Expr>) -> Expr
    ensures { view result ≡ form.binary (view_operator operator) (view left) (view right) }
{
    match operator {
        Operator::Or => Expr::Or(left, right),
        Operator::And => Expr::And(left, right),
        Operator::Add => Expr::Add(left, right),
        Operator::Subtract => Expr::Subtract(left, right),
        Operator::Multiply => Expr::Multiply(left, right),
        Operator::Floor => Expr::Floor(left, right),
        Operator::Remainder => Expr::Remainder(left, right),
    }
}

/// `LEFT OP RIGHT`
pub fn binary(
    alloc: Global,
    operator: Operator,
    left: Part,
    right: Part,
) -> Result<Part, AllocError>
    requires { max left.depth right.depth + 1 < 2 ^ 32 }
    ensures tree { IfOk result (λ p. view p.expr ≡ form.binary (view_operator operator) (view left.expr) (view right.expr)) }
    ensures depth { IfOk result (λ p. p.depth ≡ max left.depth right.depth + 1) }
{
    let depth = left.depth.max(right.depth) + 1;
    Ok(Part {
        expr: Boxed::new(alloc, binary_expr(operator, left.expr, right.expr))?,
        depth,
    })
}

fn prefixed_expr(prefix: Prefix, operand: Boxed<Expr>) -> Expr
    ensures { view result ≡ form.prefixed (view_prefix prefix) (view operand) }
{
    match prefix {
        Prefix::Not => Expr::Not(operand),
        Prefix::Minus => Expr::Minus(operand),
        Prefix::Plus => Expr::Plus(operand),
    }
}

/// `not OPERAND`, `- OPERAND`, `+ OPERAND`
pub fn prefixed(alloc: Global, prefix: Prefix, operand: Part) -> Result<Part, AllocError>
    requires { operand.depth + 1 < 2 ^ 32 }
    ensures tree { IfOk result (λ p. view p.expr ≡ form.prefixed (view_prefix prefix) (view operand.expr)) }
    ensures depth { IfOk result (λ p. p.depth ≡ operand.depth + 1) }
{
    let depth = operand.depth + 1;
    Ok(Part {
        expr: Boxed::new(alloc, prefixed_expr(prefix, operand.expr))?,
        depth,
    })
}

fn is_none_expr(negated: bool, operand: Boxed<Expr>) -> Expr
    ensures { view result ≡ form.is_none negated (view operand) }
{
    if negated {
        Expr::IsNotNone(operand)
    } else {
        Expr::IsNone(operand)
    }
}

/// `OPERAND is None`, and where it is negated `OPERAND is not None`
pub fn is_none(alloc: Global, negated: bool, operand: Part) -> Result<Part, AllocError>
    requires { operand.depth + 1 < 2 ^ 32 }
    ensures tree { IfOk result (λ p. view p.expr ≡ form.is_none negated (view operand.expr)) }
    ensures depth { IfOk result (λ p. p.depth ≡ operand.depth + 1) }
{
    let depth = operand.depth + 1;
    Ok(Part {
        expr: Boxed::new(alloc, is_none_expr(negated, operand.expr))?,
        depth,
    })
}

/// `BASE ** EXPONENT`
pub fn power(alloc: Global, base: Part, exponent: Part) -> Result<Part, AllocError>
    requires { max base.depth exponent.depth + 1 < 2 ^ 32 }
    ensures tree { IfOk result (λ p. view p.expr ≡ form.power (view base.expr) (view exponent.expr)) }
    ensures depth { IfOk result (λ p. p.depth ≡ max base.depth exponent.depth + 1) }
{
    let depth = base.depth.max(exponent.depth) + 1;
    Ok(Part {
        expr: Boxed::new(alloc, Expr::Power(base.expr, exponent.expr))?,
        depth,
    })
}

/// `BASE[POSITION]`
pub fn index(alloc: Global, base: Part, position: Part) -> Result<Part, AllocError>
    requires { max base.depth position.depth + 1 < 2 ^ 32 }
    ensures tree { IfOk result (λ p. view p.expr ≡ form.index (view base.expr) (view position.expr)) }
    ensures depth { IfOk result (λ p. p.depth ≡ max base.depth position.depth + 1) }
{
    let depth = base.depth.max(position.depth) + 1;
    Ok(Part {
        expr: Boxed::new(alloc, Expr::Index(base.expr, position.expr))?,
        depth,
    })
}

/// `BASE[FROM:UNTIL]`
pub fn slice(alloc: Global, base: Part, from: Bound, until: Bound) -> Result<Part, AllocError>
    requires { max base.depth (max from.depth until.depth) + 1 < 2 ^ 32 }
    ensures tree { IfOk result (λ p. view p.expr ≡ form.slice (view base.expr) (bound from.expr) (bound until.expr)) }
    ensures depth { IfOk result (λ p. p.depth ≡ max base.depth (max from.depth until.depth) + 1) }
{
    let depth = base.depth.max(from.depth.max(until.depth)) + 1;
    let expr = Expr::Slice {
        base: base.expr,
        from: from.expr,
        until: until.expr,
    };
    Ok(Part {
        expr: Boxed::new(alloc, expr)?,
        depth,
    })
}

/// `BASE.NAME`
pub fn attribute(alloc: Global, base: Part, name: &Spelling) -> Result<Part, AllocError>
    requires { base.depth + 1 < 2 ^ 32 }
    ensures tree { IfOk result (λ p. view p.expr ≡ form.attribute (view base.expr) name.now) }
    ensures depth { IfOk result (λ p. p.depth ≡ base.depth + 1) }
{
    let depth = base.depth + 1;
    let name = copy(alloc, name)?;
    Ok(Part {
        expr: Boxed::new(alloc, Expr::Attribute(base.expr, name))?,
        depth,
    })
}

/// `(INSIDE)`
pub fn paren(alloc: Global, inside: Part) -> Result<Part, AllocError>
    requires { inside.depth + 1 < 2 ^ 32 }
    ensures tree { IfOk result (λ p. view p.expr ≡ form.paren (view inside.expr)) }
    ensures depth { IfOk result (λ p. p.depth ≡ inside.depth + 1) }
{
    let depth = inside.depth + 1;
    Ok(Part {
        expr: Boxed::new(alloc, Expr::Paren(inside.expr))?,
        depth,
    })
}
