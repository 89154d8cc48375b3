// The elements that a cell creates.
ghost use Rattle.std.specs.Prelude.{◌≡◌, IfOk, option_map, option_to_list};
ghost use Rattle.py_tree.specs.Elements as created;
ghost use Rattle.py_tree.specs.View.{view_cell, view_head};

use py_tree::{CellCode, Expr, Line, ui_kind};
use py_value::{Lines, Memory, Text};
use std::alloc::Global;

/// The names of the elements that a cell creates, in the order of the lines `NAME = mo.ui.KIND(ARGUMENTS)` that create them
/// (marimo's documentation, "Interactive elements").
pub fn elements(alloc: Global, cell: &CellCode) -> Result<Lines, Memory>
    ensures { IfOk result (λ names. names ≡ created.elements (view_cell cell.now)) }
{
    let mut names = Vec::new(alloc);
    for stmt in cell.body.items() {
        if let Some(name) = element_name(stmt.line.get()) {
            names.push(Text::of(String::from_str(alloc, name)?))?;
        }
    }
    Ok(Lines::of(names))
}

// The name of the element that a line creates.
fn element_name(line: &Line) -> Option<&str>
    ensures { option_to_list (option_map (λ name. name.now) result)
        ≡ created.head_elements (view_head line.now) }
{
    match line {
        Line::Assign(targets, value) => match (targets.items(), value.get()) {
            ([name], Expr::Call { callee, .. }) => {
                ui_kind(callee.get())?;
                Some(name.items())
            }
            _ => None,
        },
        _ => None,
    }
}
