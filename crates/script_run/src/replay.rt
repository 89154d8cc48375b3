// Scripts that are played.
ghost use Rattle.std.specs.Prelude.{◌≡◌, ◌+◌, ◌≤◌, ◌++◌, ◌∷◌, [], IfErr, OnErr, OnOk, flat_map, map};
ghost use Rattle.link_io.specs.Outside.{Rose, Took, TookLess};
ghost use Rattle.script_run.specs.Cut.{IsCut};
ghost use Rattle.script_run.specs.Prefix.{WrotePrefix};
ghost use Rattle.script_run.specs.Script.{AreSent};
ghost use Rattle.program_meaning.specs.Scripts.{Script, script_parts, script_work};
ghost use Rattle.visit_meaning.specs.Answer.{cost_of_parts, frames_in, solo};
ghost use Rattle.frame_meaning.specs.FrameText.{frame_text, labelled};
ghost use Rattle.visit_meaning.specs.Runnable.{Runnable};
ghost use Rattle.py_tree.specs.View.{view_cells};

use crate::frame_line::set_line;
use cell_graph::Notebook;
use frames::Frame;
use kernel::{Delivered, Kernel, Stepped};
use link_io::{Failed, Sink, write_all};
use py_eval::Steps;
use py_value::Memory;
use std::alloc::Global;
use std::sync::ledger::Ledger;

/// Why what is played isn't written to its end.
#[derive(Clone, Copy, Debug, PartialEq, Eq)]
pub enum PlayFault {
    /// The sink failed.
    WriteFault,
    /// Memory was wanting.
    Memory,
}

impl From<Memory> for PlayFault {
    ghost use Rattle.std.specs.Prelude.{◌≡◌};
    ghost use Rattle.script_run.specs.declared.replay.PlayFault.TheVariants as fault;

    ghost from_gives = { λ why f. f ≡ fault.Memory };

    fn from(_: Memory) -> PlayFault {
        PlayFault::Memory
    }
}

impl From<Failed> for PlayFault {
    ghost use Rattle.std.specs.Prelude.{◌≡◌};
    ghost use Rattle.script_run.specs.declared.replay.PlayFault.TheVariants as fault;

    ghost from_gives = { λ why f. f ≡ fault.WriteFault };

    fn from(_: Failed) -> PlayFault {
        PlayFault::WriteFault
    }
}

// Writes a frame on a line of its own, behind a label. The line is made in `line`.
fn write_frame<O: Sink>(
    alloc: Global,
    label: &[u8],
    frame: Frame,
    line: &mut Vec<u8>,
    out: &mut O,
) -> Result<(), PlayFault>
    ensures written { OnOk result
        (Took (O.taken out.old) (O.taken out.new) (label.now ++ frame_text frame ++ 10 ∷ [])) }
    ensures cut { IfErr result (λ fault. fault ≡ PlayFault.WriteFault
        → TookLess (O.taken out.old) (O.taken out.new) (label.now ++ frame_text frame ++ 10 ∷ [])) }
    ensures kept { IfErr result (λ fault. fault ≡ PlayFault.Memory → out.new ≡ out.old) }
    ensures later { O.faults out.old ≤ O.faults out.new }
    ensures failed { IfErr result
        (λ fault. fault ≡ PlayFault.WriteFault → Rose (O.faults out.old) (O.faults out.new)) }
{
    set_line(alloc, line, label, &frame)?;
    write_all(out, line.as_slice())?;
    Ok(())
}

// Writes the frames that are to come, each when its step gives it.
fn drain<'n, O: Sink, L: Ledger>(
    alloc: Global,
    kernel: &mut Kernel<'n>,
    label: &[u8],
    line: &mut Vec<u8>,
    out: &mut O,
    steps: &mut Steps<L>,
) -> Result<(), PlayFault>
    ensures written { OnOk result
        (Took (O.taken out.old) (O.taken out.new)
        (labelled label.now (frames_in kernel.old.pending))) }
    ensures later { O.faults out.old ≤ O.faults out.new }
    ensures cut { IfErr result (λ fault. fault ≡ PlayFault.WriteFault
        → IsCut label.now kernel.old.pending (O.taken out.old)
        (O.taken out.new) steps.old steps.new) }
    ensures prefix { IfErr result (λ fault. fault ≡ PlayFault.Memory
        → WrotePrefix label.now kernel.old.pending (O.taken out.old)
        (O.taken out.new) steps.old steps.new) }
    ensures failed { IfErr result
        (λ fault. fault ≡ PlayFault.WriteFault → Rose (O.faults out.old) (O.faults out.new)) }
    ensures steps { OnOk result (steps.new ≡ steps.old + cost_of_parts kernel.old.pending) }
    ensures over { OnOk result (kernel.new.pending ≡ []) }
    ensures state { OnOk result (kernel.new.state ≡ kernel.old.state) }
    ensures nb { OnOk result (kernel.new.nb ≡ kernel.old.nb) }
    ensures budget { OnOk result (kernel.new.budget ≡ kernel.old.budget) }
{
    while let Stepped::Frame(frame) = kernel.step(alloc, steps)? {
        write_frame(alloc, label, frame, line, out)?;
    }
    Ok(())
}

/// Plays what is sent by one visitor after the other, each from the beginning of a visit to a close message, or to the end of all. A frame goes
/// out as soon as a step has given it, on a line of its own behind `label`; all frames of an answer are written before the next text is taken.
/// Each run of a cell has this budget of steps; the steps of all runs are counted.
pub fn play<O: Sink, L: Ledger>(
    alloc: Global,
    notebook: &Notebook,
    budget: u64,
    label: &[u8],
    sent: &[&[u8]],
    out: &mut O,
    steps: &mut Steps<L>,
) -> Result<(), PlayFault>
    requires { Runnable (view_cells notebook.now) }

    // These are the frames of visitors, each alone, who send these texts.
    ensures written { OnOk result
        ((script : Script) → AreSent (map (λ text. text.now) sent.now) script
        → Took (O.taken out.old) (O.taken out.new)
        (labelled label.now (flat_map (solo (view_cells notebook.now) budget) script))) }
    ensures steps { OnOk result
        ((script : Script) → AreSent (map (λ text. text.now) sent.now) script
        → steps.new ≡ steps.old + script_work (view_cells notebook.now) budget script) }

    // A write that fails cuts the line of a frame: the lines of the frames before it were written, and of its own a beginning, but not all. The
    // steps up to this frame are counted, and no later ones.
    ensures cut { IfErr result
        (λ fault. fault ≡ PlayFault.WriteFault → (script : Script)
        → AreSent (map (λ text. text.now) sent.now) script
        → IsCut label.now (script_parts (view_cells notebook.now) budget script) (O.taken out.old)
        (O.taken out.new) steps.old steps.new) }

    // Where memory is wanting, whole lines were written, those of a prefix of the frames, and no more steps are counted than theirs and those
    // of one cell more.
    ensures prefix { IfErr result
        (λ fault. fault ≡ PlayFault.Memory → (script : Script)
        → AreSent (map (λ text. text.now) sent.now) script
        → WrotePrefix label.now (script_parts (view_cells notebook.now) budget script)
        (O.taken out.old) (O.taken out.new) steps.old steps.new) }
    ensures later { O.faults out.old ≤ O.faults out.new }
    ensures failed { IfErr result
        (λ fault. fault ≡ PlayFault.WriteFault → Rose (O.faults out.old) (O.faults out.new)) }
{
    let mut kernel = Kernel::open(alloc, notebook, budget)?;
    let mut line = Vec::new(alloc);
    for text in sent {
        match kernel.deliver(alloc, text)? {
            Delivered::Closed => kernel = Kernel::open(alloc, notebook, budget)?,
            _ => drain(alloc, &mut kernel, label, &mut line, out, steps)?,
        }
    }
    Ok(())
}
