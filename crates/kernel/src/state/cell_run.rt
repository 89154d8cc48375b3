// The run of one cell for a visitor.
ghost use Rattle.std.specs.Prelude.{◌≡◌, ◌+◌, ◌<◌, ◌≤◌, All, IfOk, OnOk, IsTrue, length, not, slice_get, Some};
ghost use Rattle.std.specs.List.{list_all};
ghost use Rattle.kernel.specs.KernelState.{IsPlain, outcome_at, run_of};
ghost use Rattle.kernel.specs.CellRun.{settled};
ghost use Rattle.kernel.specs.Visit.{newest_in};
ghost use Rattle.visit_meaning.specs.Runnable.{Runnable};
ghost use Rattle.run_meaning.specs.Spending.{cost_of};
ghost use Rattle.visit_meaning.specs.Underway.{ended};
ghost use Rattle.visit_meaning.specs.Whole as whole;
ghost use Rattle.py_tree.specs.Elements.{elements};
ghost use Rattle.py_tree.specs.Meant.{have_meaning};
ghost use Rattle.py_tree.specs.Names.{is_among, is_local};
ghost use Rattle.py_tree.specs.Scope as scope;
ghost use Rattle.py_tree.specs.Trees.{Cell};
ghost use Rattle.py_tree.specs.View.{view_block, view_cell, view_cells};
ghost use Rattle.py_value.specs.Maps.{where_name};

use crate::cell_frame::{cancelled_frame, ran_frame};
use crate::state::KernelState;
use frames::{CellFrame, Status};
use py_eval::{End, Env, Scene, Steps, run_block};
use py_tree::CellCode;
use py_value::{Lines, Memory};
use std::alloc::Global;
use std::sync::ledger::Ledger;

// Takes these names out of the bindings.
fn forget(env: &mut Env, names: &Lines)
    ensures { env.new ≡ where_name (λ x. not (is_among x names.now)) env.old }
{
    for name in names.items() {
        let _gone = env.remove(name.items());
    }
}

// Unbinds what a cell defines, unless it ended ok.
fn settle(env: &mut Env, defs: &Lines, end: End)
    ensures { env.new ≡ settled end defs.now env.old }
{
    match end {
        End::Done => {}
        _ => forget(env, defs),
    }
}

// Whether the newest frame of a cell says that it has ended ok.
fn has_ended_ok(newest: &[Option<CellFrame>], cell: u32) -> bool
    requires { cell < length newest.now }
    ensures { result ≡ ended (newest_in newest.now cell) }
{
    match &newest[cell as usize] {
        Some(frame) => frame.status == Status::Ok,
        None => false,
    }
}

// Whether all these cells have ended ok.
fn all_ok(cells: &[u32], newest: &[Option<CellFrame>]) -> bool
    requires { All (λ c. c < length newest.now) cells.now }
    ensures { result ≡ list_all (λ c. ended (newest_in newest.now c)) cells.now }
{
    cells.iter().all(|cell| has_ended_ok(newest, *cell))
}

impl<'n> KernelState<'n> {
    // Runs a cell whose definitions aren't bound.
    fn run_code<L: Ledger>(
        &mut self,
        alloc: Global,
        code: &CellCode,
        cell: u32,
        defs: &Lines,
        own: &Lines,
        steps: &mut Steps<L>,
    ) -> Result<CellFrame, Memory>
        requires meant { IsTrue (have_meaning (view_block code.now.body)) }
        requires plain_code { IsTrue
            (list_all (λ x. not (is_local x)) (scope.bound (view_block code.now.body))) }
        requires plain { IsPlain self.old.env }
        requires defs { defs.now ≡ scope.defs (view_cell code.now) }
        requires own { own.now ≡ elements (view_cell code.now) }
        requires removed { whole.without_defs (view_cell code.now) self.old.env ≡ self.old.env }
        ensures frame { IfOk result
            (λ frame. frame ≡ whole.ran_frame cell (run_of self.old (view_cell code.now))) }
        ensures env { OnOk result
            (self.new.env ≡ whole.env_after self.old.env (run_of self.old (view_cell code.now))) }
        ensures steps { OnOk result
            (steps.new ≡ steps.old + cost_of self.old.budget
            (run_of self.old (view_cell code.now))) }
        ensures least { steps.old ≤ steps.new }
        ensures most { steps.new ≤ steps.old + cost_of self.old.budget
            (run_of self.old (view_cell code.now)) }
        ensures others { self.new ≡ record self.old { env = self.new.env } }
    {
        let scene = Scene {
            own,
            present: &self.present,
        };
        let ran = run_block(alloc, &mut self.env, &code.body, &scene, self.budget, steps)?;
        settle(&mut self.env, defs, ran.end);
        ran_frame(alloc, cell, ran)
    }

    /// Runs a cell where all its parents have ended ok, and else cancels it. What it defines is unbound first, and bound where it ends ok. Its
    /// frame isn't kept yet.
    pub fn run_cell<L: Ledger>(
        &mut self,
        alloc: Global,
        cell: u32,
        steps: &mut Steps<L>,
    ) -> Result<CellFrame, Memory>
        requires there { cell < length self.old.notebook.now }
        requires runnable { Runnable (view_cells self.old.notebook.now) }
        requires count { length self.old.newest.items ≡ length self.old.notebook.now }
        requires plain { IsPlain self.old.env }
        ensures frame { IfOk result
            (λ frame. (code : Cell) → slice_get (view_cells self.old.notebook.now) cell ≡ Some code
            → frame ≡ (outcome_at self.old cell code).frame) }
        ensures env { OnOk result
            ((code : Cell) → slice_get (view_cells self.old.notebook.now) cell ≡ Some code
            → self.new.env ≡ (outcome_at self.old cell code).env) }
        ensures steps { OnOk result
            ((code : Cell) → slice_get (view_cells self.old.notebook.now) cell ≡ Some code
            → steps.new ≡ steps.old + (outcome_at self.old cell code).cost) }
        ensures plain { OnOk result (IsPlain self.new.env) }
        ensures least { steps.old ≤ steps.new }
        ensures most { (code : Cell) → slice_get (view_cells self.old.notebook.now) cell ≡ Some code
            → steps.new ≤ steps.old + (outcome_at self.old cell code).cost }
        ensures others { self.new ≡ record self.old { env = self.new.env } }
    {
        let notebook = self.notebook;
        let defs = notebook.defs_of(cell);
        forget(&mut self.env, defs);
        if !all_ok(notebook.parents(cell), self.newest.as_slice()) {
            return Ok(cancelled_frame(alloc, cell));
        }
        let own = notebook.elements_of(cell);
        self.run_code(
            alloc,
            &notebook.cells()[cell as usize],
            cell,
            defs,
            own,
            steps,
        )
    }
}
