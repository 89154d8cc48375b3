// Body lines.
ghost use Rattle.std.specs.Prelude.{◌≡◌, IfOk, IfSome, IsTrue, Some, option_map};
ghost use Rattle.thin_form.specs.SliderNames.{as_elements};
ghost use Rattle.thin_form.specs.Lines as reading;
ghost use Rattle.thin_form.specs.Words.{words};
ghost use Rattle.form_meaning.specs.Thin.{is_line, head_text};
ghost use Rattle.form_meaning.specs.Thin as thin;
ghost use Rattle.py_tree.specs.Trees.{Head};
ghost use Rattle.py_tree.specs.View.{view, view_head};

use crate::slider_names::SliderNames;
use crate::sliders::read_bounds;
use crate::sums::read_sum;
use crate::trees::{assignment, import, slider, spelling, value_line};
use crate::words::target;
use py_tree::{Expr, Line, is_name};
use py_value::Memory;
use sqlite_items::Boxed;
use std::alloc::Global;
use std::str;

/// The line that the text of a body line spells, without its indent and its `\n`; none where it spells no line of the form in a
/// file with these elements.
pub fn read_body_line(
    alloc: Global,
    text: &[u8],
    elements: &SliderNames,
) -> Result<Option<Boxed<Line>>, Memory>
    ensures found { IfOk result
        (λ o. IfSome o
        (λ l. IsTrue (is_line (as_elements elements.now) (view_head l))
        × (text.now ≡ head_text (view_head l)))) }
    ensures only { (h : Head) → IsTrue (is_line (as_elements elements.now) h)
        → text.now ≡ head_text h → IfOk result (λ o. option_map view_head o ≡ Some h) }
{
    match str::from_utf8(text) {
        Ok(text) => read_line(alloc, text, elements),
        Err(_) => Ok(None),
    }
}

/// Whether a line of the form is the whole body of its cell.
pub fn stands_alone(line: &Line) -> bool
    ensures { (es : thin.Elements) → IsTrue (is_line es (view_head line.now))
        → result ≡ thin.stands_alone (view_head line.now) }
{
    match line {
        Line::Assign(_, tree) => is_call(tree.get()),
        Line::ImportMo => true,
        _ => false,
    }
}

fn read_line(
    alloc: Global,
    text: &str,
    elements: &SliderNames,
) -> Result<Option<Boxed<Line>>, Memory>
    ensures { IfOk result
        (λ o. option_map view_head o ≡ reading.read_line (as_elements elements.now) text.now) }
{
    if let Some((name, value)) = target(text) {
        return read_assignment(alloc, name, value, elements);
    }
    match read_sum(alloc, text, elements)? {
        Some(tree) => Ok(Some(value_line(alloc, tree)?)),
        None => read_import(alloc, text, elements),
    }
}

fn read_assignment(
    alloc: Global,
    name: &str,
    value: &str,
    elements: &SliderNames,
) -> Result<Option<Boxed<Line>>, Memory>
    ensures { IfOk result
        (λ o. option_map view_head o
        ≡ reading.read_assignment (as_elements elements.now) name.now (words value.now)) }
{
    if !is_name(name) {
        return Ok(None);
    }
    let Some(value) = read_assigned(alloc, name, value, elements)? else {
        return Ok(None);
    };
    let target = spelling(alloc, name)?;
    Ok(Some(assignment(alloc, target, value)?))
}

// What the name is assigned: a slider where the name is that of one, else a sum.
fn read_assigned(
    alloc: Global,
    name: &str,
    value: &str,
    elements: &SliderNames,
) -> Result<Option<Boxed<Expr>>, Memory>
    ensures { IfOk result
        (λ o. option_map view o
        ≡ reading.read_assigned (as_elements elements.now) name.now (words value.now)) }
{
    if !elements.is_slider(name) {
        return read_sum(alloc, value, elements);
    }
    if !elements.imported() {
        return Ok(None);
    }
    match read_bounds(value) {
        Some((low, high)) => Ok(Some(slider(alloc, low, high)?)),
        None => Ok(None),
    }
}

// The import of `mo`, in a file that imports it.
fn read_import(
    alloc: Global,
    text: &str,
    elements: &SliderNames,
) -> Result<Option<Boxed<Line>>, Memory>
    ensures { IfOk result
        (λ o. option_map view_head o ≡ reading.read_import (as_elements elements.now) text.now) }
{
    if text == "import marimo as mo" && elements.imported() {
        Ok(Some(import(alloc)?))
    } else {
        Ok(None)
    }
}

fn is_call(tree: &Expr) -> bool
    ensures { result ≡ reading.is_call (view tree.now) }
{
    matches!(tree, Expr::Call { .. })
}
