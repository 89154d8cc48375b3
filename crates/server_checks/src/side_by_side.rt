// Visitors of two workers, who are served side by side. The gate and the links wait for what the other worker does, and give up after so many
// turns, so that workers which serve whole visitors in turn fail.
ghost use Rattle.std.specs.Prelude.{◌≡◌, None, false};
ghost use Rattle.py_tree.specs.View.{view_cells};
ghost use Rattle.visit_meaning.specs.Runnable.{Runnable};

use crate::notebooks::{BUDGET, slider};
use cell_graph::Notebook;
use link_io::{Accepted, Door, Gate, Link, Received, Sent};
use std::alloc::{AllocError, Global};
use std::sync::Wait;
use std::sync::atomic::{AtomicBool, Ordering};
use std::test::Fail;
use std::thread;
use std::thread::Threads;
use ws_server::{Report, serve_doors};

// How often one asks for what the other worker does.
const TURNS: u32 = 10_000_000;

// What a worker did so far.
#[derive(Drop)]
struct Side {
    // its visitor was sent a text
    was_sent: AtomicBool,
    // its visitor has left
    has_left: AtomicBool,
}

impl Side {
    fn new() -> Side {
        Side {
            was_sent: AtomicBool::new(false),
            has_left: AtomicBool::new(false),
        }
    }
}

// What both did, and whether one gave up waiting for the other, or passed the gate with another number than its door's.
#[derive(Drop)]
struct Board {
    first: Side,
    second: Side,
    gave_up: AtomicBool,
    left_unserved: AtomicBool,
}

impl Board {
    fn new() -> Board {
        Board {
            first: Side::new(),
            second: Side::new(),
            gave_up: AtomicBool::new(false),
            left_unserved: AtomicBool::new(false),
        }
    }

    fn own(&self, worker: u32) -> &Side {
        if worker == 0 {
            &self.first
        } else {
            &self.second
        }
    }

    fn other(&self, worker: u32) -> &Side {
        if worker == 0 {
            &self.second
        } else {
            &self.first
        }
    }

    fn wait_for(&self, sign: &AtomicBool) {
        for _ in 0..TURNS {
            if sign.load(Ordering::SeqCst) {
                return;
            }
            thread::yield_now();
        }
        self.gave_up.store(true, Ordering::SeqCst);
    }
}

// A gate at which the visitor of one worker, if one is named, waits until the other's has left.
#[derive(Drop)]
struct HoldingGate<'a> {
    board: &'a Board,
    held: Option<u32>,
}

impl Gate for HoldingGate<'_> {
    fn enter(&self, worker: u32, _turn: u32) {
        if self.held == Some(worker) {
            self.board.wait_for(&self.board.other(worker).has_left);
        }
    }

    fn leave(&self, worker: u32, _turn: u32) {
        let own = self.board.own(worker);
        if !own.was_sent.load(Ordering::SeqCst) {
            self.board.left_unserved.store(true, Ordering::SeqCst);
        }
        own.has_left.store(true, Ordering::SeqCst);
    }
}

// A visitor who opens the notebook and closes; where visitors meet, only once the other one was sent a text.
#[derive(Drop)]
struct Talker<'a> {
    alloc: Global,
    board: &'a Board,
    worker: u32,
    meets: bool,
    recvs: u32,
}

impl Link for Talker<'_> {
    ghost told = { λ link. None };

    ghost faults = { λ link. 0 };

    fn recv(&mut self) -> Received {
        self.recvs = self.recvs.saturating_add(1);
        if self.recvs == 1 {
            return match Vec::from_slice(self.alloc, b"{\"open\":{}}") {
                Ok(open) => Received::Text(open),
                Err(_) => Received::Memory,
            };
        }
        if self.meets {
            self.board.wait_for(&self.board.other(self.worker).was_sent);
        }
        Received::End
    }

    fn send(&mut self, _text: &[u8]) -> Sent {
        self.board
            .own(self.worker)
            .was_sent
            .store(true, Ordering::SeqCst);
        Sent::Done
    }
}

// A door to which one such visitor comes.
#[derive(Drop)]
struct Entrance<'a> {
    alloc: Global,
    board: &'a Board,
    worker: u32,
    meets: bool,
    has_come: bool,
    is_out: bool,
}

impl<'a> Door for Entrance<'a> {
    type Visitor = Talker<'a>;

    ghost queue = { λ door. None };

    ghost out = { λ door. door.is_out };

    ghost faults = { λ door. 0 };

    fn accept(&mut self) -> Accepted<Talker<'a>> {
        if self.has_come {
            return Accepted::NoMore;
        }
        self.has_come = true;
        self.is_out = true;
        Accepted::Visitor(Talker {
            alloc: self.alloc,
            board: self.board,
            worker: self.worker,
            meets: self.meets,
            recvs: 0,
        })
    }

    fn part(&mut self, _link: Talker<'a>) {
        self.is_out = false;
    }
}

impl<'a> Entrance<'a> {
    fn new(alloc: Global, board: &'a Board, worker: u32, meets: bool) -> Entrance<'a>
        ensures { result.is_out ≡ false }
    {
        Entrance {
            alloc,
            board,
            worker,
            meets,
            has_come: false,
            is_out: false,
        }
    }
}

// What comes of two workers with one such visitor each.
fn served<R: Threads + Wait + Sync>(
    rt: &R,
    alloc: Global,
    notebook: &Notebook,
    gate: &HoldingGate<'_>,
    meets: bool,
) -> Result<Report, AllocError>
    requires { Runnable (view_cells notebook.now) }
{
    let first = Entrance::new(alloc, gate.board, 0, meets);
    let second = Entrance::new(alloc, gate.board, 1, meets);
    let mut doors = Vec::from_array(alloc, [first, second])?;
    Ok(serve_doors(rt, alloc, notebook, BUDGET, &mut doors, gate, 2))
}

#[test]
fn serves_visitors_side_by_side(rt: HostRuntime) -> Result<(), Fail> {
    let notebook = slider(rt.alloc()).ok_or("refused")?;
    for (held, meets) in [(Some(0), false), (Some(1), false), (None, true)] {
        let board = Board::new();
        let gate = HoldingGate {
            board: &board,
            held,
        };
        let report = served(&rt, rt.alloc(), &notebook, &gate, meets)?;
        assert!(rt; !board.gave_up.load(Ordering::SeqCst));
        assert!(rt; !board.left_unserved.load(Ordering::SeqCst));
        assert_eq!(rt; (report.visitors, report.closed), (2, 2));
    }
    Ok(())
}
