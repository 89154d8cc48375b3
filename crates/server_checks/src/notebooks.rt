// The notebook that is served.
ghost use Rattle.std.specs.Prelude.{IfSome};
ghost use Rattle.py_tree.specs.View.{view_cells};
ghost use Rattle.visit_meaning.specs.Runnable.{Runnable};

use cell_graph::{Notebook, notebook};
use std::alloc::Global;
use thin_form::thin;

// A slider from 0 to 10, and a cell that adds 1 to its value.
const SLIDER: &[u8] = b"import marimo
app = marimo.App()
@app.cell
def _():
    import marimo as mo
@app.cell
def _():
    s = mo.ui.slider(0, 10)
@app.cell
def _():
    s.value + 1
if __name__ == \"__main__\":
    app.run()
";

// How many steps a run of a cell may take.
pub(crate) const BUDGET: u64 = 200_000;

pub(crate) fn slider(alloc: Global) -> Option<Notebook>
    ensures { IfSome result (λ nb. Runnable (view_cells nb)) }
{
    let Ok(cells) = thin(alloc, SLIDER) else {
        return None;
    };
    match notebook(alloc, cells) {
        Ok(notebook) => Some(notebook),
        Err(_) => None,
    }
}
