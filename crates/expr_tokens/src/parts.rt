// The parts of an expression.
ghost use Rattle.std.specs.Prelude.{IfOk};
ghost use Rattle.py_tree.specs.ExprView.{view};
ghost use Rattle.expr_tokens.specs.Parts.{Spell};

use crate::forms;
use crate::part::Part;
use py_tree::Expr;
use std::alloc::{AllocError, Global};

/// The parts of an expression, in order.
pub fn parts<'a>(alloc: Global, expr: &'a Expr) -> Result<Vec<Part<'a>>, AllocError>
    ensures { IfOk result (λ ps. Spell ps.items (view expr.now)) }
{
    match expr {
        Expr::Conditional { value, test, other } => forms::conditional(
            alloc,
            value.get(),
            test.get(),
            other.get(),
        ),
        Expr::Or(left, right) => forms::infix(alloc, left.get(), Part::Word("or"), right.get()),
        Expr::And(left, right) => forms::infix(alloc, left.get(), Part::Word("and"), right.get()),
        Expr::Not(operand) => forms::prefixed(alloc, Part::Word("not"), operand.get()),
        Expr::Chain(first, comparison, second, links) => forms::chain(
            alloc,
            first.get(),
            *comparison,
            second.get(),
            links.items(),
        ),
        Expr::IsNone(operand) => Ok(vec![in alloc;
            Part::Inner(operand.get()),
            Part::Word("is"),
            Part::Word("None"),
        ]?),
        Expr::IsNotNone(operand) => forms::is_not_none(alloc, operand.get()),
        Expr::Add(left, right) => forms::infix(alloc, left.get(), Part::Mark("+"), right.get()),
        Expr::Subtract(left, right) => forms::infix(
            alloc,
            left.get(),
            Part::Mark("-"),
            right.get(),
        ),
        Expr::Multiply(left, right) => forms::infix(
            alloc,
            left.get(),
            Part::Mark("*"),
            right.get(),
        ),
        Expr::Floor(left, right) => forms::infix(alloc, left.get(), Part::Mark("//"), right.get()),
        Expr::Remainder(left, right) => forms::infix(
            alloc,
            left.get(),
            Part::Mark("%"),
            right.get(),
        ),
        Expr::Minus(operand) => forms::prefixed(alloc, Part::Mark("-"), operand.get()),
        Expr::Plus(operand) => forms::prefixed(alloc, Part::Mark("+"), operand.get()),
        Expr::Power(base, exponent) => forms::infix(
            alloc,
            base.get(),
            Part::Mark("**"),
            exponent.get(),
        ),
        Expr::Call {
            callee,
            arguments,
            comma,
        } => forms::call(alloc, callee.get(), arguments.items(), *comma),
        Expr::Index(base, position) => forms::index(alloc, base.get(), position.get()),
        Expr::Slice { base, from, until } => forms::slice(alloc, base.get(), from, until),
        Expr::Attribute(base, name) => Ok(vec![in alloc;
            Part::Inner(base.get()),
            Part::Mark("."),
            Part::Name(name),
        ]?),
        Expr::Literal(token) => Ok(vec![in alloc; Part::Literal(token)]?),
        Expr::FText(spelling, pieces) => Ok(vec![in alloc; Part::FText(spelling, pieces.items())]?),
        Expr::Name(name) => Ok(vec![in alloc; Part::Name(name)]?),
        Expr::Paren(inner) => Ok(vec![in alloc;
            Part::Mark("("),
            Part::Inner(inner.get()),
            Part::Mark(")"),
        ]?),
        Expr::Tuple { items, comma } => forms::tuple(alloc, items.items(), *comma),
        Expr::List { items, comma } => forms::list(alloc, items.items(), *comma),
        Expr::Dict { pairs, comma } => forms::dict(alloc, pairs.items(), *comma),
        Expr::ListOf {
            item,
            targets,
            from,
            tests,
        } => forms::list_of(
            alloc,
            item.get(),
            targets.items(),
            from.get(),
            tests.items(),
        ),
        Expr::DictOf {
            key,
            item,
            targets,
            from,
            tests,
        } => forms::dict_of(
            alloc,
            key.get(),
            item.get(),
            targets.items(),
            from.get(),
            tests.items(),
        ),
        Expr::Bare { items, comma } => forms::bare(alloc, items.items(), *comma),
    }
}
