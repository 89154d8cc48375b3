// How deep an expression is.
ghost use Rattle.std.specs.Prelude.{◌≡◌, ◌-◌, max, option_map};
ghost use Rattle.py_tree.specs.ExprView.{bound_of, view, view_argument, view_arguments, view_links, view_pairs, view_piece, view_pieces, views};
ghost use Rattle.py_tree.specs.Expressions.{Arguments, Pieces};
ghost use Rattle.syntax_form.specs.Depth.{argument_depth, bound_depth, link_depth, list_depth, pair_depth, piece_depth};
ghost use Rattle.syntax_form.specs.Depth as pure;
ghost use Rattle.expr_tokens.specs.Capped.{capped};

use py_tree::{Argument, Expr, Link, Pair, TextPiece};
use sqlite_items::Boxed;

/// How deep an expression is: 1 for a leaf, and otherwise one more than its deepest part. It stays at 2^32 - 1 where it would be more.
#[cycle(depth)]
pub fn depth(expr: &Expr) -> u32
    ensures { result ≡ capped (pure.depth (view expr.now)) }
{
    below(expr).saturating_add(1)
}

// The depth of the deepest part, 0 where there is none.
#[cycle(depth)]
fn below(expr: &Expr) -> u32
    ensures { result ≡ capped (pure.depth (view expr.now) - 1) }
{
    match expr {
        Expr::Conditional { value, test, other } => depth(value.get())
            .max(depth(test.get()))
            .max(depth(other.get())),
        Expr::Or(left, right)
        | Expr::And(left, right)
        | Expr::Add(left, right)
        | Expr::Subtract(left, right)
        | Expr::Multiply(left, right)
        | Expr::Floor(left, right)
        | Expr::Remainder(left, right)
        | Expr::Power(left, right)
        | Expr::Index(left, right) => depth(left.get()).max(depth(right.get())),
        Expr::Not(operand)
        | Expr::Minus(operand)
        | Expr::Plus(operand)
        | Expr::IsNone(operand)
        | Expr::IsNotNone(operand)
        | Expr::Attribute(operand, _)
        | Expr::Paren(operand) => depth(operand.get()),
        Expr::Chain(first, _, second, links) => link_depth(links.items())
            .max(depth(first.get()))
            .max(depth(second.get())),
        Expr::Call {
            callee,
            arguments,
            ..
        } => argument_depth(arguments.items()).max(depth(callee.get())),
        Expr::Slice { base, from, until } => depth(base.get())
            .max(bound_depth(from))
            .max(bound_depth(until)),
        Expr::Literal(_) | Expr::Name(_) => 0,
        Expr::FText(_, pieces) => piece_depth(pieces.items()),
        Expr::Tuple { items, .. } | Expr::List { items, .. } | Expr::Bare { items, .. } =>
            list_depth(items.items()),
        Expr::Dict { pairs, .. } => pair_depth(pairs.items()),
        Expr::ListOf {
            item,
            from,
            tests,
            ..
        } => list_depth(tests.items())
            .max(depth(item.get()))
            .max(depth(from.get())),
        Expr::DictOf {
            key,
            item,
            from,
            tests,
            ..
        } => list_depth(tests.items())
            .max(depth(key.get()))
            .max(depth(item.get()))
            .max(depth(from.get())),
    }
}

#[cycle(depth)]
fn list_depth(items: &[Boxed<Expr>]) -> u32
    ensures { result ≡ capped (pure.list_depth (views items.now)) }
{
    let mut deepest = 0;
    for item in items {
        deepest = deepest.max(depth(item.get()));
    }
    deepest
}

#[cycle(depth)]
fn link_depth(links: &[Link]) -> u32
    ensures { result ≡ capped (pure.link_depth (view_links links.now)) }
{
    let mut deepest = 0;
    for link in links {
        deepest = deepest.max(depth(link.operand.get()));
    }
    deepest
}

#[cycle(depth)]
fn argument_depth(arguments: &[Argument]) -> u32
    ensures { result ≡ capped (pure.argument_depth (view_arguments arguments.now)) }
{
    let mut deepest = 0;
    for argument in arguments {
        deepest = deepest.max(value_depth(argument));
    }
    deepest
}

// Of the value of an argument.
#[cycle(depth)]
fn value_depth(argument: &Argument) -> u32
    ensures { (rest : Arguments) → capped (pure.argument_depth (view_argument argument.now rest))
        ≡ max result (capped (pure.argument_depth rest)) }
{
    match argument {
        Argument::Positional(value) => depth(value.get()),
        Argument::Keyword(_, value) => depth(value.get()),
    }
}

#[cycle(depth)]
fn pair_depth(pairs: &[Pair]) -> u32
    ensures { result ≡ capped (pure.pair_depth (view_pairs pairs.now)) }
{
    let mut deepest = 0;
    for pair in pairs {
        deepest = deepest
            .max(depth(pair.key.get()))
            .max(depth(pair.item.get()));
    }
    deepest
}

#[cycle(depth)]
fn bound_depth(bound: &Option<Boxed<Expr>>) -> u32
    ensures { result ≡ capped (pure.bound_depth (bound_of (option_map view bound.now))) }
{
    match bound {
        Some(end) => depth(end.get()),
        None => 0,
    }
}

// Of the deepest field.
#[cycle(depth)]
fn piece_depth(pieces: &[TextPiece]) -> u32
    ensures { result ≡ capped (pure.piece_depth (view_pieces pieces.now)) }
{
    let mut deepest = 0;
    for piece in pieces {
        deepest = deepest.max(field_depth(piece));
    }
    deepest
}

// Of the expression of a field.
#[cycle(depth)]
fn field_depth(piece: &TextPiece) -> u32
    ensures { (rest : Pieces) → capped (pure.piece_depth (view_piece piece.now rest)) ≡ max result (capped (pure.piece_depth rest)) }
{
    match piece {
        TextPiece::Chars(_) => 0,
        TextPiece::Field { value, .. } => depth(value.get()),
    }
}
