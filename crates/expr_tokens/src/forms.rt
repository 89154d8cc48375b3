// The parts of each form.
ghost use Rattle.std.specs.Prelude.{◌≡◌, true, IfOk, OnOk, max, ◌++◌, ◌∷◌, [], option_map};
ghost use Rattle.py_tree.specs.ExprView.{view, views, view_comparison, view_links, view_arguments, view_pairs, bound_of};
ghost use Rattle.py_tree.specs.Expressions as pure;
ghost use Rattle.syntax_form.specs.Depth.{depth, list_depth};
ghost use Rattle.syntax_form.specs.Printing.{word, names_tokens, tokens, test_tokens};
ghost use Rattle.expr_tokens.specs.Adding.{Add};
ghost use Rattle.expr_tokens.specs.Parts.{Spell};
ghost use Rattle.expr_tokens.specs.declared.part.Part.TheVariants as part;

use crate::lists::{
    push, push_arguments, push_bound, push_comma, push_comparison, push_items, push_links,
    push_names, push_pairs, push_tests,
};
use crate::part::Part;
use py_tree::{Argument, Comparison, Expr, Link, Pair, Spelling};
use sqlite_items::Boxed;
use std::alloc::{AllocError, Global};

/// `VALUE if TEST else OTHER`
pub fn conditional<'a>(
    alloc: Global,
    value: &'a Expr,
    test: &'a Expr,
    other: &'a Expr,
) -> Result<Vec<Part<'a>>, AllocError>
    ensures { IfOk result (λ ps. Spell ps.items (pure.conditional (view value.now) (view test.now) (view other.now))) }
{
    Ok(vec![in alloc;
        Part::Inner(value),
        Part::Word("if"),
        Part::Inner(test),
        Part::Word("else"),
        Part::Inner(other),
    ]?)
}

/// Two operands with an operator between them.
pub fn infix<'a>(
    alloc: Global,
    left: &'a Expr,
    operator: Part<'a>,
    right: &'a Expr,
) -> Result<Vec<Part<'a>>, AllocError>
    ensures { IfOk result (λ ps. ps.items ≡ part.Inner left.entry ∷ operator.entry ∷ part.Inner right.entry ∷ []) }
{
    Ok(vec![in alloc; Part::Inner(left), operator, Part::Inner(right)]?)
}

/// An operand with an operator before it.
pub fn prefixed<'a>(
    alloc: Global,
    operator: Part<'a>,
    operand: &'a Expr,
) -> Result<Vec<Part<'a>>, AllocError>
    ensures { IfOk result (λ ps. ps.items ≡ operator.entry ∷ part.Inner operand.entry ∷ []) }
{
    Ok(vec![in alloc; operator, Part::Inner(operand)]?)
}

/// `OPERAND is not None`
pub fn is_not_none<'a>(alloc: Global, operand: &'a Expr) -> Result<Vec<Part<'a>>, AllocError>
    ensures { IfOk result (λ ps. Spell ps.items (pure.is_none true (view operand.now))) }
{
    Ok(vec![in alloc;
        Part::Inner(operand),
        Part::Word("is"),
        Part::Word("not"),
        Part::Word("None"),
    ]?)
}

/// `FIRST COMPARISON SECOND ..`
pub fn chain<'a>(
    alloc: Global,
    first: &'a Expr,
    comparison: Comparison,
    second: &'a Expr,
    links: &'a [Link],
) -> Result<Vec<Part<'a>>, AllocError>
    ensures { IfOk result (λ ps. Spell ps.items
        (pure.chain (view first.now) (view_comparison comparison) (view second.now) (view_links links.now))) }
{
    let mut parts = vec![in alloc; Part::Inner(first)]?;
    push_comparison(&mut parts, comparison)?;
    push(&mut parts, Part::Inner(second))?;
    push_links(&mut parts, links)?;
    Ok(parts)
}

/// `CALLEE(ARGUMENTS)`
pub fn call<'a>(
    alloc: Global,
    callee: &'a Expr,
    arguments: &'a [Argument],
    comma: bool,
) -> Result<Vec<Part<'a>>, AllocError>
    ensures { IfOk result (λ ps. Spell ps.items (pure.call (view callee.now) (view_arguments arguments.now) comma)) }
{
    let mut parts = vec![in alloc; Part::Inner(callee), Part::Mark("(")]?;
    push_arguments(&mut parts, arguments)?;
    push_comma(&mut parts, comma)?;
    push(&mut parts, Part::Mark(")"))?;
    Ok(parts)
}

/// `BASE[FROM:UNTIL]`
pub fn slice<'a>(
    alloc: Global,
    base: &'a Expr,
    from: &'a Option<Boxed<Expr>>,
    until: &'a Option<Boxed<Expr>>,
) -> Result<Vec<Part<'a>>, AllocError>
    ensures { IfOk result (λ ps. Spell ps.items
        (pure.slice (view base.now) (bound_of (option_map view from.now)) (bound_of (option_map view until.now)))) }
{
    let mut parts = vec![in alloc; Part::Inner(base), Part::Mark("[")]?;
    push_bound(&mut parts, from)?;
    push(&mut parts, Part::Mark(":"))?;
    push_bound(&mut parts, until)?;
    push(&mut parts, Part::Mark("]"))?;
    Ok(parts)
}

/// `(ITEMS)`
pub fn tuple<'a>(
    alloc: Global,
    items: &'a [Boxed<Expr>],
    comma: bool,
) -> Result<Vec<Part<'a>>, AllocError>
    ensures { IfOk result (λ ps. Spell ps.items (pure.tuple (views items.now) comma)) }
{
    let mut parts = vec![in alloc; Part::Mark("(")]?;
    push_items(&mut parts, items)?;
    push_comma(&mut parts, comma)?;
    push(&mut parts, Part::Mark(")"))?;
    Ok(parts)
}

/// `[ITEMS]`
pub fn list<'a>(
    alloc: Global,
    items: &'a [Boxed<Expr>],
    comma: bool,
) -> Result<Vec<Part<'a>>, AllocError>
    ensures { IfOk result (λ ps. Spell ps.items (pure.list (views items.now) comma)) }
{
    let mut parts = vec![in alloc; Part::Mark("[")]?;
    push_items(&mut parts, items)?;
    push_comma(&mut parts, comma)?;
    push(&mut parts, Part::Mark("]"))?;
    Ok(parts)
}

/// `{PAIRS}`
pub fn dict<'a>(alloc: Global, pairs: &'a [Pair], comma: bool) -> Result<Vec<Part<'a>>, AllocError>
    ensures { IfOk result (λ ps. Spell ps.items (pure.dict (view_pairs pairs.now) comma)) }
{
    let mut parts = vec![in alloc; Part::Mark("{")]?;
    push_pairs(&mut parts, pairs)?;
    push_comma(&mut parts, comma)?;
    push(&mut parts, Part::Mark("}"))?;
    Ok(parts)
}

/// A tuple without brackets.
pub fn bare<'a>(
    alloc: Global,
    items: &'a [Boxed<Expr>],
    comma: bool,
) -> Result<Vec<Part<'a>>, AllocError>
    ensures { IfOk result (λ ps. Spell ps.items (pure.bare (views items.now) comma)) }
{
    let mut parts = Vec::new(alloc);
    push_items(&mut parts, items)?;
    push_comma(&mut parts, comma)?;
    Ok(parts)
}

// `for TARGETS in FROM if TEST ..`
fn push_clause<'a>(
    parts: &mut Vec<Part<'a>>,
    targets: &'a [Spelling],
    from: &'a Expr,
    tests: &'a [Boxed<Expr>],
) -> Result<(), AllocError>
    ensures { OnOk result (Add parts.old.items parts.new.items
        (word "for" ∷ (names_tokens targets.now ++ word "in" ∷ (tokens (view from.now) ++ test_tokens (views tests.now))))
        (max (depth (view from.now)) (list_depth (views tests.now)))) }
{
    push(parts, Part::Word("for"))?;
    push_names(parts, targets)?;
    push(parts, Part::Word("in"))?;
    push(parts, Part::Inner(from))?;
    push_tests(parts, tests)
}

/// `BASE[POSITION]`
pub fn index<'a>(
    alloc: Global,
    base: &'a Expr,
    position: &'a Expr,
) -> Result<Vec<Part<'a>>, AllocError>
    ensures { IfOk result (λ ps. Spell ps.items (pure.index (view base.now) (view position.now))) }
{
    Ok(vec![in alloc;
        Part::Inner(base),
        Part::Mark("["),
        Part::Inner(position),
        Part::Mark("]"),
    ]?)
}

/// `[ITEM for TARGETS in FROM if TEST ..]`
pub fn list_of<'a>(
    alloc: Global,
    item: &'a Expr,
    targets: &'a [Spelling],
    from: &'a Expr,
    tests: &'a [Boxed<Expr>],
) -> Result<Vec<Part<'a>>, AllocError>
    ensures { IfOk result (λ ps. Spell ps.items (pure.list_of (view item.now) targets.now (view from.now) (views tests.now))) }
{
    let mut parts = vec![in alloc; Part::Mark("["), Part::Inner(item)]?;
    push_clause(&mut parts, targets, from, tests)?;
    push(&mut parts, Part::Mark("]"))?;
    Ok(parts)
}

/// `{KEY: ITEM for TARGETS in FROM if TEST ..}`
pub fn dict_of<'a>(
    alloc: Global,
    key: &'a Expr,
    item: &'a Expr,
    targets: &'a [Spelling],
    from: &'a Expr,
    tests: &'a [Boxed<Expr>],
) -> Result<Vec<Part<'a>>, AllocError>
    ensures { IfOk result (λ ps. Spell ps.items (pure.dict_of (view key.now) (view item.now) targets.now (view from.now) (views tests.now))) }
{
    let mut parts = vec![in alloc;
        Part::Mark("{"),
        Part::Inner(key),
        Part::Mark(":"),
        Part::Inner(item),
    ]?;
    push_clause(&mut parts, targets, from, tests)?;
    push(&mut parts, Part::Mark("}"))?;
    Ok(parts)
}
