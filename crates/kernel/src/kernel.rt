// The kernel of one visitor.
ghost use Rattle.std.specs.Prelude.{◌≡◌, ◌<◌, [], true, false, IfOk, OnOk, OnErr, IsErr, IsOk, length, option_copied};
ghost use Rattle.kernel.specs.KernelState.{IsKept, visit_of};
ghost use Rattle.kernel.specs.Visit.{begun, AtMostFirst, newest_in, present_in, IsDelivery, IsStep, Stands};
ghost use Rattle.visit_meaning.specs.Runnable.{Runnable};
ghost use Rattle.py_tree.specs.View.{view_cells};

use crate::answers::{Delivered, Stepped};
use crate::state::KernelState;
use cell_graph::Notebook;
use frames::CellFrame;
use py_eval::Steps;
use py_value::Memory;
use std::alloc::Global;
use std::marker::Model;
use std::sync::ledger::Ledger;
use ui_elements::Present;

/// The session of one visitor of a notebook: it takes the visitor's messages and gives the frames of the answers, one a step. Only the
/// steps of what depends on a change are counted. Contracts see it as a `Visit`. Once memory was wanting it is spoiled, and both calls say so
/// ever after.
#[derive(Drop)]
pub struct Kernel<'n> {
    state: KernelState<'n>,
    spoiled: bool,
}

impl<'n> Model for Kernel<'n> {
    ghost use Rattle.kernel.specs.Visit.{Visit};

    ghost Value = { Visit };

    ghost use Rattle.std.specs.Coded.{codes};
    ghost use Rattle.py_tree.specs.contracts.tree.Block as block;
    ghost use Rattle.py_value.specs.contracts.types.Value as value;

    ghost coded = { Prim.hlevel (codes, block.the_row.coded, value.the_row.coded) };

    ghost use Rattle.std.specs.Prelude.{◌≡◌, false};
    ghost use Rattle.kernel.specs.KernelState.{IsKept, visit_of};

    ghost view = { λ k. visit_of k.spoiled k.state };

    ghost invariant = { λ k. k.spoiled ≡ false → IsKept k.state };
}

impl<'n> Kernel<'n> {
    /// A session of a notebook that isn't open yet. Each run of a cell has this budget of steps.
    pub fn open(alloc: Global, notebook: &'n Notebook, budget: u64) -> Result<Kernel<'n>, Memory>
        requires { Runnable (view_cells notebook.now) }
        ensures { IfOk result (λ kernel. kernel ≡ begun notebook.now budget) }
    {
        Ok(Kernel {
            state: KernelState::new(alloc, notebook, budget)?,
            spoiled: false,
        })
    }

    /// Takes a message of the visitor, whose answer is then to come; of bytes that are no message it is that refusal. It is `Busy` while frames of an
    /// earlier answer are to come, and else `Closed` where the bytes are a close message, and for all bytes behind one.
    pub fn deliver(&mut self, alloc: Global, bytes: &[u8]) -> Result<Delivered, Memory>
        ensures delivers { IfOk result
            (λ delivered. IsDelivery bytes.now self.old self.new delivered) }
        ensures busy { self.old.spoiled ≡ false → 0 < length self.old.pending → IsOk result }
        ensures stands { OnOk result (Stands self.new) }
        ensures spoiled { self.old.spoiled ≡ true → IsErr result }
        ensures spoils { OnErr result (self.new.spoiled ≡ true) }
        ensures newest { OnErr result (self.new.newest ≡ self.old.newest) }
    {
        if self.spoiled {
            return Err(Memory);
        }
        let pending = self.state.pending.count();
        if pending > 0 {
            return Ok(Delivered::Busy { pending });
        }
        self.spoiled = true;
        let delivered = self.state.take(alloc, bytes)?;
        self.spoiled = false;
        Ok(delivered)
    }

    /// Gives the next frame of the answer, where one is to come. For the frame of a cell the cell runs, or is cancelled; the steps that
    /// it costs are counted, and no more where memory is wanting. `Idle` where none is to come.
    pub fn step<L: Ledger>(
        &mut self,
        alloc: Global,
        steps: &mut Steps<L>,
    ) -> Result<Stepped, Memory>
        ensures steps { IfOk result
            (λ stepped. IsStep self.old self.new steps.old steps.new stepped) }
        ensures stands { OnOk result (Stands self.new) }
        ensures idle { self.old.spoiled ≡ false → self.old.pending ≡ [] → IsOk result }
        ensures spoiled { self.old.spoiled ≡ true → IsErr result }
        ensures spoils { OnErr result (self.new.spoiled ≡ true) }
        ensures newest { OnErr result (self.new.newest ≡ self.old.newest) }
        ensures most { AtMostFirst self.old.pending steps.old steps.new }
    {
        if self.spoiled {
            return Err(Memory);
        }
        self.spoiled = true;
        let stepped = self.state.next_frame(alloc, steps)?;
        self.spoiled = false;
        Ok(stepped)
    }

    /// The newest frame of a cell; none where it has had no frame.
    pub fn newest(&self, cell: u32) -> Option<&CellFrame>
        ensures newest { option_copied result ≡ newest_in self.now.newest cell }
        ensures stands { self.now.spoiled ≡ false → Stands self.now }
    {
        match self.state.newest.get(cell as usize) {
            Some(Some(frame)) => Some(frame),
            _ => None,
        }
    }

    /// The present values of elements that were set. Of a spoiled kernel nothing is said.
    pub fn present(&self) -> &Present
        ensures present { self.now.spoiled ≡ false → result.now ≡ present_in self.now.state }
        ensures stands { self.now.spoiled ≡ false → Stands self.now }
    {
        &self.state.present
    }

    /// How many frames are to come; none where memory was wanting.
    pub fn pending(&self) -> u32
        ensures count { self.now.spoiled ≡ false → result ≡ length self.now.pending }
        ensures spoiled { self.now.spoiled ≡ true → result ≡ 0 }
    {
        if self.spoiled {
            return 0;
        }
        self.state.pending.count()
    }
}
