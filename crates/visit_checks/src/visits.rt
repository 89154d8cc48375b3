// Calls of a kernel over a notebook with a slider. The texts that are wanted are written by hand.
ghost use Rattle.std.specs.Prelude.{◌≡◌, ◌<◌, IfSome};
ghost use Rattle.visit_meaning.specs.Runnable.{Runnable};
ghost use Rattle.py_tree.specs.View.{view_cells};

use cell_graph::{Notebook, notebook};
use frames::CellFrame;
use kernel::{Delivered, Kernel, Stepped};
use nb_json::push_frame;
use py_eval::Steps;
use py_value::{Memory, Value};
use std::alloc::{AllocError, Global};
use std::marker::Brand;
use std::sync::ledger::{Blank, Ledger};
use std::test::Fail;
use thin_form::thin;

const BUDGET: u64 = 200_000;

// A slider from 0 to 10, and a cell that adds 1 to its value.
const SLIDER: &[u8] = b"import marimo
app = marimo.App()
@app.cell
def _():
    import marimo as mo
@app.cell
def _():
    s = mo.ui.slider(0, 10)
@app.cell
def _():
    s.value + 1
if __name__ == \"__main__\":
    app.run()
";

const OPEN: &[u8] = b"{\"open\":{}}";

const CLOSE: &[u8] = b"{\"close\":{}}";

// A call of a kernel.
#[derive(Clone, Copy)]
enum Call<'a> {
    Deliver(&'a [u8]),
    Step,
    Pending,
    Newest(u32),
    Present(&'a str),
}

use Call::{Deliver, Newest, Pending, Present, Step};

// The notebook of this file.
pub(crate) fn slider(alloc: Global) -> Option<Notebook>
    ensures { IfSome result (λ nb. Runnable (view_cells nb)) }
{
    let Ok(cells) = thin(alloc, SLIDER) else {
        return None;
    };
    match notebook(alloc, cells) {
        Ok(notebook) => Some(notebook),
        Err(_) => None,
    }
}

// The line of what a delivery came to.
fn delivered_line(alloc: Global, delivered: Delivered) -> Result<String, AllocError> {
    match delivered {
        Delivered::Taken => String::from_str(alloc, "taken\n"),
        Delivered::Closed => String::from_str(alloc, "closed\n"),
        Delivered::Busy { pending } => format!(in alloc; "busy {pending}\n"),
    }
}

// The line of the output of a frame.
fn newest_line(alloc: Global, frame: Option<&CellFrame>) -> Result<String, AllocError> {
    match frame {
        Some(
            CellFrame {
                output: Some(output),
                ..
            },
        ) => {
            let text = output.text.items();
            format!(in alloc; "newest {text}\n")
        }
        _ => String::from_str(alloc, "newest none\n"),
    }
}

// The line of a present value.
fn present_line(alloc: Global, value: Option<&Value>) -> Result<String, AllocError> {
    match value {
        Some(Value::Int(number)) => format!(in alloc; "present {number}\n"),
        _ => String::from_str(alloc, "present none\n"),
    }
}

// Appends the line of the next frame.
fn push_step<L: Ledger>(
    alloc: Global,
    kernel: &mut Kernel<'_>,
    steps: &mut Steps<L>,
    lines: &mut Vec<u8>,
) -> Result<(), Memory> {
    match kernel.step(alloc, steps)? {
        Stepped::Frame(frame) => {
            push_frame(alloc, lines, &frame)?;
            lines.push(b'\n')?;
        }
        Stepped::Idle => lines.extend_from_slice(b"idle\n")?,
    }
    Ok(())
}

// Appends the line of what a call gives.
fn push_call<L: Ledger>(
    alloc: Global,
    kernel: &mut Kernel<'_>,
    call: Call<'_>,
    steps: &mut Steps<L>,
    lines: &mut Vec<u8>,
) -> Result<(), Memory> {
    let line = match call {
        Deliver(bytes) => delivered_line(alloc, kernel.deliver(alloc, bytes)?)?,
        Step => return push_step(alloc, kernel, steps, lines),
        Pending => {
            let pending = kernel.pending();
            format!(in alloc; "pending {pending}\n")?
        }
        Newest(cell) => newest_line(alloc, kernel.newest(cell))?,
        Present(name) => present_line(alloc, kernel.present().get(name))?,
    };
    lines.extend_from_slice(line.as_bytes())?;
    Ok(())
}

fn calls_lines<L: Ledger>(
    alloc: Global,
    notebook: &Notebook,
    calls: &[Call<'_>],
    blank: Blank,
) -> Result<Vec<u8>, Memory>
    requires runnable { Runnable (view_cells notebook.now) }
    requires new { (blank.name ≡ L.name) × (blank.parts ≡ L.parts) × (0 < blank.parts) }
{
    let mut kernel = Kernel::open(alloc, notebook, BUDGET)?;
    let mut steps = Steps::<L>::new(blank);
    let mut lines = Vec::new(alloc);
    for call in calls {
        push_call(alloc, &mut kernel, *call, &mut steps, &mut lines)?;
    }
    Ok(lines)
}

// What each of these calls gives, one a line.
fn lines_of(alloc: Global, notebook: &Notebook, calls: &[Call<'_>]) -> Result<Vec<u8>, Memory>
    requires { Runnable (view_cells notebook.now) }
{
    calls_lines::<Brand>(alloc, notebook, calls, Blank::new(1))
}

const CALLS: &[Call<'static>] = &[
    Pending,
    Newest(2),
    Deliver(b"{\"set\":{\"s\":4}}"),
    Pending,
    Step,
    Step,
    Step,
    Present("s"),
    Deliver(OPEN),
    Deliver(OPEN),
    Step,
    Step,
    Step,
    Step,
    Step,
    Newest(2),
    Present("s"),
    Deliver(b"{\"set\":{\"s\":4}}"),
    Step,
    Step,
    Deliver(b"{\"set\":{\"s\":11}}"),
    Step,
    Step,
    Deliver(b"{\"set\":{\"s\":7,\"t\":4}}"),
    Step,
    Deliver(CLOSE),
    Step,
    Deliver(b"{\"set\":{}}"),
    Step,
    Deliver(b"close"),
    Step,
    Step,
    Deliver(b"{\"open\": {}}\n"),
    Step,
    Step,
    Step,
    Present("s"),
    Newest(2),
    Newest(7),
    Deliver(CLOSE),
    Step,
    Present("s"),
    Newest(2),
    Deliver(OPEN),
    Deliver(b"close"),
    Step,
    Pending,
];

const GIVEN: &[u8] = b"pending 0
newest none
taken
pending 2
{\"refused\":\"order\"}
{\"done\":0}
idle
present none
taken
busy 4
{\"cell\":0,\"console\":[],\"error\":null,\"output\":null,\"status\":\"ok\"}
{\"cell\":1,\"console\":[],\"error\":null,\"output\":null,\"status\":\"ok\"}
{\"cell\":2,\"console\":[],\"error\":null,\"output\":{\"text\":\"1\",\"type\":\"plain\"},\"status\":\"ok\"}
{\"done\":3}
idle
newest 1
present none
taken
{\"cell\":2,\"console\":[],\"error\":null,\"output\":{\"text\":\"5\",\"type\":\"plain\"},\"status\":\"ok\"}
{\"done\":1}
taken
{\"name\":\"s\",\"refused\":\"value\"}
{\"done\":0}
taken
{\"name\":\"t\",\"refused\":\"element\"}
busy 1
{\"done\":0}
taken
{\"done\":0}
taken
{\"refused\":\"message\"}
{\"done\":0}
taken
{\"refused\":\"order\"}
{\"done\":0}
idle
present 4
newest 5
newest none
closed
idle
present none
newest 5
closed
closed
idle
pending 0
";

#[test]
fn answers_messages(rt: HostRuntime) -> Result<(), Fail> {
    let notebook = slider(rt.alloc()).ok_or("refused")?;
    let lines = lines_of(rt.alloc(), &notebook, CALLS)?;
    assert_eq!(rt; lines.as_slice(), GIVEN);
    Ok(())
}
