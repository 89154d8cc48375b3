// What a kernel keeps of its visitor.
ghost use Rattle.std.specs.Prelude.{IfOk};
ghost use Rattle.kernel.specs.KernelState.{IsKept, IsNew};
ghost use Rattle.visit_meaning.specs.Runnable.{Runnable};
ghost use Rattle.py_tree.specs.View.{view_cells};

mod cell_run;
mod deliver;
mod setting;
mod step;

use crate::pending::Pending;
use cell_graph::Notebook;
use frames::CellFrame;
use py_eval::Env;
use py_value::Memory;
use std::alloc::Global;
use ui_elements::Present;

/// How far a visit is.
#[derive(Clone, Copy)]
pub enum Phase {
    /// The notebook isn't open yet.
    Before,
    /// The notebook is open.
    On,
    /// A close message ended the visit.
    Ended,
}

/// What a kernel keeps of its visitor: how far the visit is, the present values that were set, what names are bound to, the
/// newest frame of each cell, and what is still to come of the answer to the last message.
#[derive(Drop)]
pub struct KernelState<'n> {
    pub notebook: &'n Notebook,
    pub budget: u64,
    pub phase: Phase,
    pub present: Present,
    pub env: Env,
    pub newest: Vec<Option<CellFrame>>,
    pub pending: Pending<'n>,
}

impl<'n> KernelState<'n> {
    /// What is kept before the opening.
    pub fn new(
        alloc: Global,
        notebook: &'n Notebook,
        budget: u64,
    ) -> Result<KernelState<'n>, Memory>
        requires { Runnable (view_cells notebook.now) }
        ensures kept { IfOk result (λ state. IsKept state) }
        ensures new { IfOk result (λ state. IsNew notebook.now budget state) }
    {
        let mut newest = Vec::new(alloc);
        for _ in notebook.cells() {
            newest.push(None)?;
        }
        Ok(KernelState {
            notebook,
            budget,
            phase: Phase::Before,
            present: Present::new(alloc),
            env: Env::new(alloc),
            newest,
            pending: Pending::Nothing,
        })
    }
}
