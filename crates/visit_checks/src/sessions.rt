// Visitors who are served over links. The texts that are wanted are written by hand.
ghost use Rattle.std.specs.Prelude.{◌≡◌, ◌<◌, None};
ghost use Rattle.py_tree.specs.View.{view_cells};
ghost use Rattle.visit_meaning.specs.Runnable.{Runnable};

use crate::visits::slider;
use cell_graph::Notebook;
use kernel::Kernel;
use link_io::{Link, MemLink, Received, Sent};
use py_eval::Steps;
use py_value::Memory;
use session::{Ended, serve_visitor};
use std::alloc::{AllocError, Global};
use std::marker::Brand;
use std::sync::Wait;
use std::sync::ledger::{Blank, Ledger};
use std::test::Fail;

const BUDGET: u64 = 200_000;

fn serve<R: Wait, K: Link, L: Ledger>(
    rt: &R,
    alloc: Global,
    notebook: &Notebook,
    link: &mut K,
    blank: Blank,
) -> Result<Ended, Memory>
    requires runnable { Runnable (view_cells notebook.now) }
    requires new { (blank.name ≡ L.name) × (blank.parts ≡ L.parts) × (0 < blank.parts) }
{
    let mut kernel = Kernel::open(alloc, notebook, BUDGET)?;
    let mut steps = Steps::<L>::new(blank);
    Ok(serve_visitor(rt, alloc, &mut kernel, link, &mut steps))
}

// How the session of a visitor ends who comes over this link.
fn ended_over<R: Wait, K: Link>(
    rt: &R,
    alloc: Global,
    notebook: &Notebook,
    link: &mut K,
) -> Result<Ended, Memory>
    requires { Runnable (view_cells notebook.now) }
{
    serve::<R, K, Brand>(rt, alloc, notebook, link, Blank::new(1))
}

// A visitor who opens the notebook, sends what is no text and a value, and closes; another message stands behind.
fn messages(alloc: Global) -> Result<Vec<Option<Vec<u8>>>, AllocError> {
    Ok(Vec::from_array(
        alloc,
        [
            Some(Vec::from_slice(alloc, b"{\"open\":{}}")?),
            None,
            Some(Vec::from_slice(alloc, b"{\"set\":{\"s\":4}}")?),
            Some(Vec::from_slice(alloc, b"{\"close\":{}}")?),
            Some(Vec::from_slice(alloc, b"{\"open\":{}}")?),
        ],
    )?)
}

// The texts that this visitor is sent, in the order in which they are sent.
const TEXTS: [&[u8]; 8] = [
    b"{\"cell\":0,\"console\":[],\"error\":null,\"output\":null,\"status\":\"ok\"}",
    b"{\"cell\":1,\"console\":[],\"error\":null,\"output\":null,\"status\":\"ok\"}",
    b"{\"cell\":2,\"console\":[],\"error\":null,\"output\":{\"text\":\"1\",\"type\":\"plain\"},\"status\":\"ok\"}",
    b"{\"done\":3}",
    b"{\"refused\":\"message\"}",
    b"{\"done\":0}",
    b"{\"cell\":2,\"console\":[],\"error\":null,\"output\":{\"text\":\"5\",\"type\":\"plain\"},\"status\":\"ok\"}",
    b"{\"done\":1}",
];

// What is known of a session whose calls of these numbers fail: how it ended, how many texts were sent, whether they are the first ones that
// are wanted, how many messages were taken, and how often a call failed.
fn outcome<R: Wait>(
    rt: &R,
    alloc: Global,
    notebook: &Notebook,
    failing_recvs: &[u64],
    failing_sends: &[u64],
) -> Result<(Ended, usize, bool, usize, u64), Memory>
    requires { Runnable (view_cells notebook.now) }
{
    let mut link = MemLink::new(alloc, messages(alloc)?);
    link.failing_recvs = Vec::from_slice(alloc, failing_recvs)?;
    link.failing_sends = Vec::from_slice(alloc, failing_sends)?;
    let ended = ended_over(rt, alloc, notebook, &mut link)?;
    let mut as_wanted = true;
    for (sent, wanted) in link.sent.iter().zip(TEXTS.iter()) {
        as_wanted = as_wanted && sent.as_slice() == *wanted;
    }
    Ok((ended, link.sent.len(), as_wanted, link.taken, link.faults))
}

#[test]
fn serves_visitors(rt: HostRuntime) -> Result<(), Fail> {
    let alloc = rt.alloc();
    let notebook = slider(alloc).ok_or("refused")?;
    let whole = (Ended::Closed, 8, true, 4, 0);
    assert_eq!(rt; outcome(&rt, alloc, &notebook, &[], &[])?, whole);
    assert_eq!(rt; outcome(&rt, alloc, &notebook, &[5], &[9])?, whole);
    for (call, texts) in [(1, 0), (2, 4), (3, 6), (4, 8)] {
        let wanted = (Ended::LinkFault, texts, true, call as usize - 1, 1);
        assert_eq!(rt; outcome(&rt, alloc, &notebook, &[call], &[])?, wanted);
    }
    for (call, taken) in [
        (1, 1),
        (2, 1),
        (3, 1),
        (4, 1),
        (5, 2),
        (6, 2),
        (7, 3),
        (8, 3),
    ] {
        let wanted = (Ended::LinkFault, call as usize - 1, true, taken, 1);
        assert_eq!(rt; outcome(&rt, alloc, &notebook, &[], &[call])?, wanted);
    }
    Ok(())
}

// A visitor who opens the notebook and sends a close message, or goes without one.
fn opener(alloc: Global, closes: bool) -> Result<MemLink, AllocError> {
    let mut messages = Vec::new(alloc);
    messages.push(Some(Vec::from_slice(alloc, b"{\"open\":{}}")?))?;
    if closes {
        messages.push(Some(Vec::from_slice(alloc, b" {\"close\": {}}\n")?))?;
    }
    Ok(MemLink::new(alloc, messages))
}

#[test]
fn serves_to_the_end(rt: HostRuntime) -> Result<(), Fail> {
    let alloc = rt.alloc();
    let notebook = slider(alloc).ok_or("refused")?;
    for (closes, taken) in [(false, 1), (true, 2)] {
        let mut link = opener(alloc, closes)?;
        let ended = ended_over(&rt, alloc, &notebook, &mut link)?;
        assert_eq!(rt;
            (ended, link.sent.len(), link.taken, link.faults),
            (Ended::Closed, 4, taken, 0)
        );
    }
    Ok(())
}

// A visitor who sends what is no text, again and again, and to whom memory is wanting for the second text.
#[derive(Drop)]
struct Poor {
    taken: u64,
    sends: u64,
}

impl Link for Poor {
    ghost told = { λ link. None };

    ghost faults = { λ link. 0 };

    fn recv(&mut self) -> Received {
        self.taken = self.taken.saturating_add(1);
        Received::Other
    }

    fn send(&mut self, _text: &[u8]) -> Sent {
        self.sends = self.sends.saturating_add(1);
        if self.sends == 2 {
            Sent::Memory
        } else {
            Sent::Done
        }
    }
}

#[test]
fn sends_nothing_more(rt: HostRuntime) -> Result<(), Fail> {
    let notebook = slider(rt.alloc()).ok_or("refused")?;
    let mut link = Poor { taken: 0, sends: 0 };
    let ended = ended_over(&rt, rt.alloc(), &notebook, &mut link)?;
    assert_eq!(rt; (ended, link.taken, link.sends), (Ended::Memory, 1, 2));
    Ok(())
}
