// Notebooks that are served.
ghost use Rattle.std.specs.Prelude.{◌≡◌, ◌⊎◌, ◌≤◌, ℕ, List, IfOk, OnErr, string_bytes};
ghost use Rattle.cli_words.specs.Service.{asked};
ghost use Rattle.link_io.specs.Outside.{Rose};
ghost use Rattle.link_io.specs.Porches.{Stays};
ghost use Rattle.nbserve.specs.Output.{Ended};
ghost use Rattle.nbserve.specs.Service as service;
ghost use Rattle.nbserve.specs.Service.{IsServed, ServesTo, report_status};
ghost use Rattle.py_tree.specs.View.{view_cells};
ghost use Rattle.visit_meaning.specs.Runnable.{Runnable};

use crate::command_fault::{DONE, DOOR_FAULT, WANT_OF_MEMORY, end_stopped, end_with};
use crate::commands::{USUAL_BUDGET, notebook_in};
use cell_graph::Notebook;
use cli_words::Service;
use link_io::{Files, NoGate, Porch, PorchFault, Sink};
use std::alloc::{AllocError, Global};
use std::sync::Wait;
use std::thread::Threads;
use ws_server::{Report, serve_doors};

// The line of a report.
fn report_line(alloc: Global, report: &Report) -> Result<String, AllocError>
    ensures { IfOk result (λ text. string_bytes text ≡ service.report_line report.now) }
{
    let Report {
        visitors,
        closed,
        links,
        memory,
        many,
        doors,
    } = *report;
    let mut line = format!(in alloc; "visitors {visitors} closed {closed} links {links}")?;
    write!(line, " memory {memory} many {many} doors {doors}\n")?;
    Ok(line)
}

// Writes a report, and answers the status.
fn end_served<O: Sink>(alloc: Global, report: &Report, out: &mut O) -> u8
    ensures ended { Ended (report_status report.now) (service.report_line report.now) result
        (O.taken out.old) (O.taken out.new)
        (Rose (O.faults out.old) (O.faults out.new)) }
    ensures writes_later { O.faults out.old ≤ O.faults out.new }
{
    match report_line(alloc, report) {
        Ok(text) if report.doors > 0 => end_with(out, text.as_bytes(), DOOR_FAULT),
        Ok(text) => end_with(out, text.as_bytes(), DONE),
        Err(_) => WANT_OF_MEMORY,
    }
}

// Serves the visitors of the doors that the porch gives, and returns the doors.
fn serve_porch<R: Threads + Wait + Sync, P: Porch>(
    rt: &R,
    alloc: Global,
    notebook: &Notebook,
    service: Service<'_>,
    porch: &mut P,
) -> Result<Report, PorchFault>
    requires { Runnable (view_cells notebook.now) }
    ensures served { IfOk result (λ report. IsServed (view_cells notebook.now) (asked service.entry)
        (P.told porch.old) (P.told porch.new)
        (Rose (P.faults porch.old) (P.faults porch.new)) report) }
    ensures unmet { OnErr result (Stays (P.told porch.old) (P.told porch.new)) }
    ensures failed { result ≡ Err PorchFault.Failed → Rose (P.faults porch.old) (P.faults porch.new) }
    ensures later { P.faults porch.old ≤ P.faults porch.new }
{
    let mut doors = porch.doors(service.port, service.workers)?;
    let report = serve_doors(
        rt,
        alloc,
        notebook,
        USUAL_BUDGET,
        &mut doors,
        &NoGate,
        service.visitors,
    );
    porch.back(doors);
    Ok(report)
}

/// Serves the notebook of a file to the visitors who come to the doors of the porch, and answers the status: 0 and the report; 7 and the report
/// where a door failed, or `door fault` where the porch gave no doors; 1 for a refused notebook, 3 for a read fault, 4 for a write fault, 5 for
/// want of memory. It waits for visitors as long as their doors and links do.
pub fn serve<R: Threads + Wait + Sync, F: Files, O: Sink, P: Porch>(
    rt: &R,
    alloc: Global,
    service: Service<'_>,
    files: &mut F,
    out: &mut O,
    porch: &mut P,
) -> u8
    ensures serves { ServesTo (F.holds files.old) (Rose (F.faults files.old) (F.faults files.new))
        (Rose (P.faults porch.old) (P.faults porch.new))
        (Rose (O.faults out.old) (O.faults out.new)) (asked service.entry) result
        (O.taken out.old) (O.taken out.new) (P.told porch.old) (P.told porch.new) }
    ensures same { (other : List ℕ) → F.holds files.new other ≡ F.holds files.old other }
    ensures later { F.faults files.old ≤ F.faults files.new }
    ensures writes_later { O.faults out.old ≤ O.faults out.new }
    ensures doors_later { P.faults porch.old ≤ P.faults porch.new }
    // The porch isn't asked for doors where the notebook isn't loaded.
    ensures unasked { (result ≡ 1) ⊎ (result ≡ 3) → porch.new ≡ porch.old }
{
    let notebook = match notebook_in(alloc, files, service.file) {
        Ok(notebook) => notebook,
        Err(stop) => return end_stopped(alloc, &stop, out),
    };
    match serve_porch(rt, alloc, &notebook, service, porch) {
        Ok(report) => end_served(alloc, &report, out),
        Err(PorchFault::Failed) => end_with(out, b"door fault\n", DOOR_FAULT),
        Err(PorchFault::Memory) => WANT_OF_MEMORY,
    }
}
