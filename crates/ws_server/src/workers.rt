// Workers that serve.
ghost use Rattle.std.specs.Prelude.{◌≡◌, ◌<◌, ◌^◌, ℕ, false, All, List, Some, length, map, slice_index_or, vec_len};
ghost use Rattle.link_io.specs.Links.{Item, fresh};
ghost use Rattle.link_io.specs.Outside.{Rose};
ghost use Rattle.link_io.specs.Porches.{seen};
ghost use Rattle.py_tree.specs.View.{view_cells};
ghost use Rattle.visit_meaning.specs.Runnable.{Runnable};
ghost use Rattle.ws_server.specs.Reports.{IsBounded, IsNew};
ghost use Rattle.ws_server.specs.Shares.{AreReported, IsShare};
ghost use Rattle.ws_server.specs.Visitors.{IsEnded, alone_in};

use crate::report::Report;
use crate::worker::Worker;
use cell_graph::Notebook;
use kernel::Kernel;
use link_io::{Accepted, Door, Gate, Link};
use py_eval::Steps;
use session::{Ended, serve_visitor};
use std::alloc::Global;
use std::marker::Brand;
use std::sync::Wait;
use std::sync::ledger::{Blank, Ledger};
use std::thread::Threads;
use std::{mem, thread};

// Serves one visitor on a kernel of its own.
fn serve_one<R: Wait, K: Link, L: Ledger>(
    rt: &R,
    alloc: Global,
    notebook: &Notebook,
    budget: u64,
    link: &mut K,
    steps: &mut Steps<L>,
) -> Ended
    requires { Runnable (view_cells notebook.now) }
    ensures ends { (all : List Item) → K.told link.old ≡ Some (fresh all)
        → IsEnded (alone_in (view_cells notebook.now) budget) all result (K.told link.new) }
    ensures failed { result ≡ Ended.LinkFault → Rose (K.faults link.old) (K.faults link.new) }
{
    let Ok(mut kernel) = Kernel::open(alloc, notebook, budget) else {
        return Ended::Memory;
    };
    serve_visitor(rt, alloc, &mut kernel, link, steps)
}

// Accepts so often, and serves each visitor who comes. It ends where nobody comes any more, and goes on after a fault of the door.
fn serve_door<R: Wait, D: Door, G: Gate, L: Ledger>(
    rt: &R,
    alloc: Global,
    notebook: &Notebook,
    budget: u64,
    worker: &mut Worker<D>,
    gate: &G,
    quota: u32,
    blank: Blank,
)
    requires blank { (blank.name ≡ L.name) × (blank.parts ≡ L.parts) × (0 < blank.parts) }
    requires runnable { Runnable (view_cells notebook.now) }
    requires out { D.out worker.old.door ≡ false }
    requires new { IsNew worker.old.report }
    ensures out { D.out worker.new.door ≡ false }
    ensures share { IsShare (alone_in (view_cells notebook.now) budget) quota
        (seen (D.queue worker.old.door) (D.faults worker.old.door))
        (seen (D.queue worker.new.door) (D.faults worker.new.door)) worker.new.report }
    ensures bounded { IsBounded worker.new.report }
{
    let mut steps = Steps::<L>::new(blank);
    for turn in 0..quota {
        match worker.door.accept() {
            Accepted::Visitor(mut link) => {
                gate.enter(worker.number, turn);
                let ended = serve_one(rt, alloc, notebook, budget, &mut link, &mut steps);
                gate.leave(worker.number, turn);
                worker.door.part(link);
                worker.report.count(ended);
            }
            Accepted::NoMore => return,
            Accepted::Failed => worker.report.doors = worker.report.doors.saturating_add(1),
            Accepted::Memory => worker.report.memory = worker.report.memory.saturating_add(1),
        }
    }
}

// The same with a count of steps of the worker's own.
fn serve_alone<R: Wait, D: Door, G: Gate>(
    rt: &R,
    alloc: Global,
    notebook: &Notebook,
    budget: u64,
    worker: &mut Worker<D>,
    gate: &G,
    quota: u32,
)
    requires runnable { Runnable (view_cells notebook.now) }
    requires out { D.out worker.old.door ≡ false }
    requires new { IsNew worker.old.report }
    ensures out { D.out worker.new.door ≡ false }
    ensures share { IsShare (alone_in (view_cells notebook.now) budget) quota
        (seen (D.queue worker.old.door) (D.faults worker.old.door))
        (seen (D.queue worker.new.door) (D.faults worker.new.door)) worker.new.report }
    ensures bounded { IsBounded worker.new.report }
{
    serve_door::<R, D, G, Brand>(
        rt,
        alloc,
        notebook,
        budget,
        worker,
        gate,
        quota,
        Blank::new(1),
    );
}

// Lets all workers serve, each in a thread of its own; where a thread can't be made, workers serve one after the other.
fn serve_all<R: Threads + Wait + Sync, D: Door + Send, G: Gate>(
    rt: &R,
    alloc: Global,
    notebook: &Notebook,
    budget: u64,
    workers: &mut [Worker<D>],
    gate: &G,
    quota: u32,
)
    requires runnable { Runnable (view_cells notebook.now) }
    requires new { All (λ w. (D.out w.door ≡ false) × IsNew w.report) workers.old }
    ensures each { (i : ℕ) (d : _) → i < length workers.old
        → IsShare (alone_in (view_cells notebook.now) budget) quota
        (seen (D.queue (slice_index_or workers.old i d).door) (D.faults (slice_index_or workers.old i d).door))
        (seen (D.queue (slice_index_or workers.new i d).door) (D.faults (slice_index_or workers.new i d).door))
        (slice_index_or workers.new i d).report
        × IsBounded (slice_index_or workers.new i d).report }
    ensures len { length workers.new ≡ length workers.old }
    ensures out { All (λ w. D.out w.door ≡ false) workers.new }
{
    let count = workers.len();
    if count == 0 {
        return;
    }
    thread::for_each_mut(
        rt,
        workers,
        count,
        &|_: usize, worker: &mut Worker<D>|
            requires { (D.out worker.now.door ≡ false) × IsNew worker.now.report × Runnable (view_cells notebook.now) }
            ensures { (D.out worker.exit.now.door ≡ false)
                × IsShare (alone_in (view_cells notebook.entry.now) budget) quota
                (seen (D.queue worker.entry.now.door) (D.faults worker.entry.now.door))
                (seen (D.queue worker.exit.now.door) (D.faults worker.exit.now.door)) worker.exit.now.report
                × IsBounded worker.exit.now.report }
        {
            serve_alone(rt, alloc, notebook, budget, worker, gate, quota);
        },
    );
}

/// Serves the visitors of doors: each door has a worker, in a thread of its own where one can be made. A worker takes in up to `quota` visitors,
/// one after the other, each on a new kernel over the notebook, whose runs of cells have this budget of steps; it passes the gate before and
/// behind each. If there is no memory for the workers, nobody is let in, and the report has `memory` 1 and nothing else.
pub fn serve_doors<R: Threads + Wait + Sync, D: Door + Send, G: Gate>(
    rt: &R,
    alloc: Global,
    notebook: &Notebook,
    budget: u64,
    doors: &mut Vec<D>,
    gate: &G,
    quota: u32,
) -> Report
    requires runnable { Runnable (view_cells notebook.now) }
    requires out { All (λ d. D.out d ≡ false) doors.old.items }
    requires few { vec_len doors.old < 2 ^ 32 }
    ensures served { AreReported (alone_in (view_cells notebook.now) budget) quota
        (map (λ d. seen (D.queue d) (D.faults d)) doors.old.items)
        (map (λ d. seen (D.queue d) (D.faults d)) doors.new.items) result }
    ensures out { All (λ d. D.out d ≡ false) doors.new.items }
{
    let mut report = Report::new();
    let count = doors.len();
    let mut workers = Vec::new(alloc);
    let mut back = Vec::new(alloc);
    if workers.reserve(count).is_err() || back.reserve(count).is_err() {
        report.memory = 1;
        return report;
    }
    let all = mem::replace(doors, back);
    for door in all {
        let number = workers.len() as u32;
        workers.push_reserved(Worker {
            door,
            number,
            report: Report::new(),
        });
    }
    serve_all(
        rt,
        alloc,
        notebook,
        budget,
        workers.as_mut_slice(),
        gate,
        quota,
    );
    for worker in workers {
        report.add(&worker.report);
        doors.push_reserved(worker.door);
    }
    report
}
