// The parts of what is listed in an expression.
ghost use Rattle.std.specs.Prelude.{OnOk, option_map};
ghost use Rattle.py_tree.specs.ExprView.{view, views, view_comparison, view_links, view_argument, view_arguments, view_pair, view_pairs, bound_of};
ghost use Rattle.py_tree.specs.Expressions.{Arguments, Pairs};
ghost use Rattle.syntax_form.specs.Depth.{list_depth, link_depth, argument_depth, pair_depth, bound_depth};
ghost use Rattle.syntax_form.specs.Printing.{comparison_tokens, if_comma, names_tokens, list_tokens, link_tokens, test_tokens, bound_tokens};
ghost use Rattle.syntax_form.specs.Printing.{argument_tokens, later_argument_tokens, pair_tokens, later_pair_tokens};
ghost use Rattle.expr_tokens.specs.Adding.{Add, AddBefore};
ghost use Rattle.expr_tokens.specs.Parts.{part_tokens, part_depth};

use crate::part::Part;
use py_tree::{Argument, Comparison, Expr, Link, Pair, Spelling};
use sqlite_items::Boxed;
use std::alloc::AllocError;

/// A part behind the others.
#[tactic(auto, using(crate::proofs::Pushing::pushed))]
pub fn push<'a>(parts: &mut Vec<Part<'a>>, part: Part<'a>) -> Result<(), AllocError>
    ensures { OnOk result (Add parts.old.items parts.new.items (part_tokens part.entry) (part_depth part.entry)) }
{
    parts.push(part)?;
    Ok(())
}

/// A comma, where there is one.
pub fn push_comma<'a>(parts: &mut Vec<Part<'a>>, comma: bool) -> Result<(), AllocError>
    ensures { OnOk result (Add parts.old.items parts.new.items (if_comma comma) 0) }
{
    if comma {
        push(parts, Part::Mark(","))
    } else {
        Ok(())
    }
}

/// A comparison.
pub fn push_comparison<'a>(
    parts: &mut Vec<Part<'a>>,
    comparison: Comparison,
) -> Result<(), AllocError>
    ensures { OnOk result (Add parts.old.items parts.new.items (comparison_tokens (view_comparison comparison)) 0) }
{
    match comparison {
        Comparison::Equal => push(parts, Part::Mark("==")),
        Comparison::Unequal => push(parts, Part::Mark("!=")),
        Comparison::Less => push(parts, Part::Mark("<")),
        Comparison::AtMost => push(parts, Part::Mark("<=")),
        Comparison::Greater => push(parts, Part::Mark(">")),
        Comparison::AtLeast => push(parts, Part::Mark(">=")),
        Comparison::In => push(parts, Part::Word("in")),
        Comparison::NotIn => {
            push(parts, Part::Word("not"))?;
            push(parts, Part::Word("in"))
        }
    }
}

/// An end of a slice, where it isn't left out.
pub fn push_bound<'a>(
    parts: &mut Vec<Part<'a>>,
    bound: &'a Option<Boxed<Expr>>,
) -> Result<(), AllocError>
    ensures { OnOk result (Add parts.old.items parts.new.items
        (bound_tokens (bound_of (option_map view bound.now))) (bound_depth (bound_of (option_map view bound.now)))) }
{
    match bound {
        Some(end) => push(parts, Part::Inner(end.get())),
        None => Ok(()),
    }
}

/// Names, with commas between them.
pub fn push_names<'a>(parts: &mut Vec<Part<'a>>, names: &'a [Spelling]) -> Result<(), AllocError>
    ensures { OnOk result (Add parts.old.items parts.new.items (names_tokens names.now) 0) }
{
    let Some((first, later)) = names.split_first() else {
        return Ok(());
    };
    push(parts, Part::Name(first))?;
    for name in later {
        push(parts, Part::Mark(","))?;
        push(parts, Part::Name(name))?;
    }
    Ok(())
}

/// Expressions, with commas between them.
pub fn push_items<'a>(parts: &mut Vec<Part<'a>>, items: &'a [Boxed<Expr>]) -> Result<(), AllocError>
    ensures { OnOk result (Add parts.old.items parts.new.items (list_tokens (views items.now)) (list_depth (views items.now))) }
{
    let Some((first, later)) = items.split_first() else {
        return Ok(());
    };
    push(parts, Part::Inner(first.get()))?;
    for item in later {
        push(parts, Part::Mark(","))?;
        push(parts, Part::Inner(item.get()))?;
    }
    Ok(())
}

/// Expressions, with `if` before each.
pub fn push_tests<'a>(parts: &mut Vec<Part<'a>>, tests: &'a [Boxed<Expr>]) -> Result<(), AllocError>
    ensures { OnOk result (Add parts.old.items parts.new.items (test_tokens (views tests.now)) (list_depth (views tests.now))) }
{
    for test in tests {
        push(parts, Part::Word("if"))?;
        push(parts, Part::Inner(test.get()))?;
    }
    Ok(())
}

/// Comparisons, each with the operand behind it.
pub fn push_links<'a>(parts: &mut Vec<Part<'a>>, links: &'a [Link]) -> Result<(), AllocError>
    ensures { OnOk result (Add parts.old.items parts.new.items (link_tokens (view_links links.now)) (link_depth (view_links links.now))) }
{
    for link in links {
        push_comparison(parts, link.comparison)?;
        push(parts, Part::Inner(link.operand.get()))?;
    }
    Ok(())
}

/// Keys with their items, with commas between them.
pub fn push_pairs<'a>(parts: &mut Vec<Part<'a>>, pairs: &'a [Pair]) -> Result<(), AllocError>
    ensures { OnOk result (Add parts.old.items parts.new.items (pair_tokens (view_pairs pairs.now)) (pair_depth (view_pairs pairs.now))) }
{
    let Some((first, later)) = pairs.split_first() else {
        return Ok(());
    };
    push_pair(parts, first)?;
    for pair in later {
        push(parts, Part::Mark(","))?;
        push_pair(parts, pair)?;
    }
    Ok(())
}

fn push_pair<'a>(parts: &mut Vec<Part<'a>>, pair: &'a Pair) -> Result<(), AllocError>
    ensures { OnOk result ((rest : Pairs) → AddBefore parts.old.items parts.new.items
        (pair_tokens (view_pair pair.now rest)) (later_pair_tokens rest) (pair_depth (view_pair pair.now rest)) (pair_depth rest)) }
{
    push(parts, Part::Inner(pair.key.get()))?;
    push(parts, Part::Mark(":"))?;
    push(parts, Part::Inner(pair.item.get()))
}

/// Arguments, with commas between them.
pub fn push_arguments<'a>(
    parts: &mut Vec<Part<'a>>,
    arguments: &'a [Argument],
) -> Result<(), AllocError>
    ensures { OnOk result (Add parts.old.items parts.new.items
        (argument_tokens (view_arguments arguments.now)) (argument_depth (view_arguments arguments.now))) }
{
    let Some((first, later)) = arguments.split_first() else {
        return Ok(());
    };
    push_argument(parts, first)?;
    for argument in later {
        push(parts, Part::Mark(","))?;
        push_argument(parts, argument)?;
    }
    Ok(())
}

fn push_argument<'a>(parts: &mut Vec<Part<'a>>, argument: &'a Argument) -> Result<(), AllocError>
    ensures { OnOk result ((rest : Arguments) → AddBefore parts.old.items parts.new.items
        (argument_tokens (view_argument argument.now rest)) (later_argument_tokens rest)
        (argument_depth (view_argument argument.now rest)) (argument_depth rest)) }
{
    match argument {
        Argument::Positional(value) => push(parts, Part::Inner(value.get())),
        Argument::Keyword(name, value) => {
            push(parts, Part::Name(name))?;
            push(parts, Part::Mark("="))?;
            push(parts, Part::Inner(value.get()))
        }
    }
}
