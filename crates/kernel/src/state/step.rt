// The frames of an answer, one after the other.
ghost use Rattle.std.specs.Prelude.{◌≡◌, IfOk, IsOk, OnErr, OnOk, false};
ghost use Rattle.kernel.specs.KernelState.{IsKept, visit_of};
ghost use Rattle.kernel.specs.Visit.{AtMostFirst, Gives, IsStep};
ghost use Rattle.kernel.specs.declared.pending.Pending.TheVariants as pending;

use crate::answers::Stepped;
use crate::cell_frame::copy_frame;
use crate::pending::{Cells, Pending};
use crate::state::KernelState;
use frames::Frame;
use py_eval::Steps;
use py_value::Memory;
use std::alloc::Global;
use std::mem;
use std::sync::ledger::Ledger;

impl<'n> KernelState<'n> {
    /// Gives the next frame of the answer, where one is to come. For the frame of a cell the cell runs or is cancelled.
    pub fn next_frame<L: Ledger>(
        &mut self,
        alloc: Global,
        steps: &mut Steps<L>,
    ) -> Result<Stepped, Memory>
        requires { IsKept self.old }
        ensures kept { OnOk result (IsKept self.new) }
        ensures steps { IfOk result
            (λ stepped. IsStep (visit_of false self.old)
            (visit_of false self.new) steps.old steps.new stepped) }
        ensures idle { self.old.pending ≡ pending.Nothing → IsOk result }
        ensures newest { OnErr result (self.new.newest ≡ self.old.newest) }
        ensures most { AtMostFirst (visit_of false self.old).pending steps.old steps.new }
    {
        match mem::replace(&mut self.pending, Pending::Nothing) {
            Pending::Nothing => Ok(Stepped::Idle),
            Pending::Refusal(why) => {
                self.pending = Pending::Results {
                    cells: Cells::Lent(&[]),
                    taken: 0,
                };
                Ok(Stepped::Frame(why))
            }
            Pending::Results { cells, taken } => {
                Ok(Stepped::Frame(self.next_of(alloc, cells, taken, steps)?))
            }
        }
    }

    // The next frame of an answer with results: that of the next of these cells, or their number.
    fn next_of<L: Ledger>(
        &mut self,
        alloc: Global,
        cells: Cells<'n>,
        taken: usize,
        steps: &mut Steps<L>,
    ) -> Result<Frame, Memory>
        requires free { self.old.pending ≡ pending.Nothing }
        requires kept { IsKept (record self.old { pending = pending.Results cells taken }) }
        ensures kept { OnOk result (IsKept self.new) }
        ensures gives { IfOk result (λ frame.
            Gives frame (visit_of false
            (record self.old { pending = pending.Results cells.entry taken }))
            (visit_of false self.new) steps.old steps.new) }
        ensures newest { OnErr result (self.new.newest ≡ self.old.newest) }
        ensures most { AtMostFirst
            (visit_of false (record self.old { pending = pending.Results cells.entry taken })).pending
            steps.old steps.new }
    {
        let Some(cell) = cells.items().get(taken) else {
            return Ok(Frame::Done(cells.items().len() as u32));
        };
        let cell = *cell;
        let frame = self.run_cell(alloc, cell, steps)?;
        let given = copy_frame(alloc, &frame)?;
        self.newest[cell as usize] = Some(frame);
        self.pending = Pending::Results {
            cells,
            taken: taken + 1,
        };
        Ok(Frame::Cell(given))
    }
}
