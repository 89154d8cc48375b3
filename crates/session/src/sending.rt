// Frames that are sent.
ghost use Rattle.std.specs.Prelude.{◌≡◌, ◌≤◌, ◌∷◌, [], IfErr, OnOk, OnErr};
ghost use Rattle.frame_meaning.specs.FrameText.{frame_text};
ghost use Rattle.link_io.specs.Outside.{Rose};
ghost use Rattle.session.specs.Progress.{Breaks, Drains};
ghost use Rattle.session.specs.Talks.{Talked};

use crate::unsent::Unsent;
use frames::Frame;
use kernel::{Kernel, Stepped};
use link_io::{Link, Sent};
use nb_json::push_frame;
use py_eval::Steps;
use std::alloc::Global;
use std::sync::ledger::Ledger;

// Sends a frame as one text, which is made in `text`.
fn send_frame<K: Link>(
    alloc: Global,
    frame: Frame,
    text: &mut Vec<u8>,
    link: &mut K,
) -> Result<(), Unsent>
    ensures sent { OnOk result
        (Talked (K.told link.old) (K.told link.new) [] (frame_text frame ∷ [])) }
    ensures unsent { OnErr result (Talked (K.told link.old) (K.told link.new) [] []) }
    ensures later { K.faults link.old ≤ K.faults link.new }
    ensures failed { IfErr result
        (λ why. why ≡ Unsent.Failed → Rose (K.faults link.old) (K.faults link.new)) }
{
    text.clear();
    push_frame(alloc, text, &frame)?;
    match link.send(text.as_slice()) {
        Sent::Done => Ok(()),
        Sent::Failed => Err(Unsent::Failed),
        Sent::Memory => Err(Unsent::Memory),
    }
}

/// Sends the frames that are to come, each when its step gives it.
pub fn drain<'n, K: Link, L: Ledger>(
    alloc: Global,
    kernel: &mut Kernel<'n>,
    text: &mut Vec<u8>,
    link: &mut K,
    steps: &mut Steps<L>,
) -> Result<(), Unsent>
    ensures drained { OnOk result
        (Drains kernel.old steps.old (K.told link.old) [] kernel.new steps.new (K.told link.new)) }
    ensures broke { IfErr result
        (λ why. Breaks why kernel.old steps.old (K.told link.old) [] [] kernel.new steps.new (K.told link.new)) }
    ensures later { K.faults link.old ≤ K.faults link.new }
    ensures failed { IfErr result
        (λ why. why ≡ Unsent.Failed → Rose (K.faults link.old) (K.faults link.new)) }
{
    while let Stepped::Frame(frame) = kernel.step(alloc, steps)? {
        send_frame(alloc, frame, text, link)?;
    }
    Ok(())
}
