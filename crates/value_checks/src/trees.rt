// Trees of expressions.
ghost use Rattle.std.specs.Prelude.{◌≡◌, IfOk};
ghost use Rattle.py_tree.specs.Trees.{literal, name, binary, Add};
ghost use Rattle.py_tree.specs.View.{view};
ghost use Rattle.py_tree.specs.declared.token.TokenKind.TheVariants as kind;

use py_tree::{Expr, Spelling, Token, TokenKind};
use py_value::Memory;
use sqlite_items::Boxed;
use std::alloc::Global;

pub fn spelled(alloc: Global, text: &str) -> Result<Spelling, Memory>
    ensures { IfOk result (λ s. s ≡ text.now) }
{
    Ok(Spelling::of(String::from_str(alloc, text)?))
}

pub fn number(alloc: Global, digits: &str) -> Result<Boxed<Expr>, Memory>
    ensures { IfOk result
        (λ e. view e ≡ literal (record { kind = kind.Number; spelling = digits.now })) }
{
    let token = Token {
        kind: TokenKind::Number,
        spelling: spelled(alloc, digits)?,
    };
    boxed(alloc, Expr::Literal(token))
}

pub fn boxed(alloc: Global, tree: Expr) -> Result<Boxed<Expr>, Memory>
    ensures { IfOk result (λ b. b ≡ tree) }
{
    Ok(Boxed::new(alloc, tree)?)
}

pub fn named(alloc: Global, text: &str) -> Result<Boxed<Expr>, Memory>
    ensures { IfOk result (λ e. view e ≡ name text.now) }
{
    boxed(alloc, Expr::Name(spelled(alloc, text)?))
}

pub fn added(alloc: Global, left: Boxed<Expr>, right: Boxed<Expr>) -> Result<Boxed<Expr>, Memory>
    ensures { IfOk result (λ e. view e ≡ binary Add (view left) (view right)) }
{
    boxed(alloc, Expr::Add(left, right))
}
