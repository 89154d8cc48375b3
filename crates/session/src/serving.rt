// The serving of one visitor.
ghost use Rattle.std.specs.Prelude.{◌≡◌, ◌≤◌, ◌∷◌, [], IfErr, IfOk};
ghost use Rattle.link_io.specs.Outside.{Rose};
ghost use Rattle.session.specs.Endings.{ended_for};
ghost use Rattle.session.specs.Progress.{Answers, Breaks};
ghost use Rattle.session.specs.Serving.{Counts, Serves};

use crate::answer::Answer;
use crate::ended::Ended;
use crate::heard::Heard;
use crate::hearing::hear;
use crate::sending::drain;
use crate::unsent::Unsent;
use kernel::{Delivered, Kernel};
use link_io::Link;
use py_eval::Steps;
use std::alloc::Global;
use std::sync::Wait;
use std::sync::ledger::Ledger;

// The most messages that one call answers.
const MESSAGE_COUNT_LIMIT: u32 = 1_000_000;

// How a session ends whose frames aren't sent to their end.
fn ended_of(why: Unsent) -> Ended
    ensures { result ≡ ended_for why }
{
    match why {
        Unsent::Failed => Ended::LinkFault,
        Unsent::Memory => Ended::Memory,
    }
}

// Answers a message, unless it closes the visit.
fn answer_message<'n, K: Link, L: Ledger>(
    alloc: Global,
    kernel: &mut Kernel<'n>,
    bytes: &[u8],
    text: &mut Vec<u8>,
    link: &mut K,
    steps: &mut Steps<L>,
) -> Result<Answer, Unsent>
    requires { kernel.old.pending ≡ [] }
    ensures answered { IfOk result
        (λ came. Answers came kernel.old steps.old (K.told link.old) bytes.now kernel.new steps.new (K.told link.new)) }
    ensures broke { IfErr result
        (λ why. Breaks why kernel.old steps.old (K.told link.old) (bytes.now ∷ []) [] kernel.new steps.new (K.told link.new)) }
    ensures later { K.faults link.old ≤ K.faults link.new }
    ensures failed { IfErr result
        (λ why. why ≡ Unsent.Failed → Rose (K.faults link.old) (K.faults link.new)) }
{
    if let Delivered::Closed = kernel.deliver(alloc, bytes)? {
        return Ok(Answer::Closed);
    }
    drain(alloc, kernel, text, link, steps)?;
    Ok(Answer::Sent)
}

/// Serves a visitor over a link. It sends the frames that are still to come, and then answers one message after the other, 1,000,000 at
/// most, each frame as one text. `Ended` says how it ends. It waits for the visitor wherever the link does.
pub fn serve_visitor<'n, R: Wait, K: Link, L: Ledger>(
    _rt: &R,
    alloc: Global,
    kernel: &mut Kernel<'n>,
    link: &mut K,
    steps: &mut Steps<L>,
) -> Ended
    // What was taken and sent, and what the kernel then is.
    ensures serves { Serves result kernel.old (K.told link.old) kernel.new (K.told link.new) }

    // The steps that were counted.
    ensures steps { Counts result kernel.old (K.told link.old) steps.old steps.new (K.told link.new) }
    ensures later { K.faults link.old ≤ K.faults link.new }
    ensures failed { result ≡ Ended.LinkFault → Rose (K.faults link.old) (K.faults link.new) }
{
    let mut text = Vec::new(alloc);
    if let Err(why) = drain(alloc, kernel, &mut text, link, steps) {
        return ended_of(why);
    }
    for _ in 0..MESSAGE_COUNT_LIMIT {
        match hear(alloc, link) {
            Heard::Message(bytes) => {
                match answer_message(alloc, kernel, bytes.as_slice(), &mut text, link, steps) {
                    Ok(Answer::Sent) => {}
                    Ok(Answer::Closed) => return Ended::Closed,
                    Err(why) => return ended_of(why),
                }
            }
            Heard::End => return Ended::Closed,
            Heard::Failed => return Ended::LinkFault,
            Heard::Memory => return Ended::Memory,
        }
    }
    Ended::TooMany
}
