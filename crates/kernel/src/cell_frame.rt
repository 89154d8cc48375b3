// The results of cells.
ghost use Rattle.std.specs.Prelude.{◌≡◌, IfOk, option_and_then};
ghost use Rattle.kernel.specs.CellRun.{error_after, frame_after};
ghost use Rattle.visit_meaning.specs.Whole as whole;
ghost use Rattle.py_value.specs.Texts.{str_of};
ghost use Rattle.py_value.specs.View.{data_of};

use frames::{CellError, CellFrame, Output, OutputKind, Status};
use py_eval::{End, Ran};
use py_value::{ErrorKind, Lines, Memory, Text, Value, write_str};
use std::alloc::Global;

/// The frame of a cell that ran.
pub fn ran_frame(alloc: Global, cell: u32, ran: Ran) -> Result<CellFrame, Memory>
    ensures { IfOk result (λ frame. frame ≡ frame_after cell ran) }
{
    let status = match ran.end {
        End::Done => Status::Ok,
        _ => Status::Error,
    };
    Ok(CellFrame {
        cell,
        status,
        output: output_of(alloc, ran.last)?,
        console: ran.console,
        error: error_of(ran.end),
    })
}

/// The result of a cell with a parent that isn't ok.
pub fn cancelled_frame(alloc: Global, cell: u32) -> CellFrame
    ensures { result ≡ whole.cancelled_frame cell }
{
    CellFrame {
        cell,
        status: Status::Cancelled,
        output: None,
        console: Lines::of(Vec::new(alloc)),
        error: None,
    }
}

/// The same result once more.
pub fn copy_frame(alloc: Global, frame: &CellFrame) -> Result<CellFrame, Memory>
    ensures { IfOk result (λ copied. copied ≡ frame.now) }
{
    Ok(CellFrame {
        cell: frame.cell,
        status: frame.status,
        output: copy_output(alloc, &frame.output)?,
        console: frame.console.copy(alloc)?,
        error: frame.error,
    })
}

// The output of a cell whose last line has this value.
fn output_of(alloc: Global, last: Option<Value>) -> Result<Option<Output>, Memory>
    ensures { IfOk result (λ output. output ≡ option_and_then whole.shown last) }
{
    match last {
        Some(value) => shown(alloc, &value),
        None => Ok(None),
    }
}

// What a value shows as the output of a cell; nothing where it is None.
fn shown(alloc: Global, value: &Value) -> Result<Option<Output>, Memory>
    ensures { IfOk result (λ output. output ≡ whole.shown value.now) }
{
    let (text, kind) = match value {
        Value::None => return Ok(None),
        Value::Int(number) => (Text::of(number.to_string(alloc)?), OutputKind::Plain),
        Value::Element(element) => (ui_elements::shown(alloc, element)?, OutputKind::Element),
        Value::Html(html) => (html.copy(alloc)?, OutputKind::Html),
        _ => (text_of(alloc, value)?, OutputKind::Plain),
    };
    Ok(Some(Output { text, kind }))
}

// The `str` of a value.
fn text_of(alloc: Global, value: &Value) -> Result<Text, Memory>
    ensures { IfOk result (λ text. text ≡ str_of (data_of value.now)) }
{
    let mut text = Text::new(alloc);
    write_str(alloc, value, &mut text)?;
    Ok(text)
}

// The error of a cell whose run ended so.
fn error_of(end: End) -> Option<CellError>
    ensures { result ≡ error_after end }
{
    match end {
        End::Done => None,
        End::Fault { kind, line } => Some(CellError { kind, line }),
        End::Spent { line } => {
            Some(CellError {
                kind: ErrorKind::Spent,
                line,
            })
        }
    }
}

fn copy_output(alloc: Global, output: &Option<Output>) -> Result<Option<Output>, Memory>
    ensures { IfOk result (λ copied. copied ≡ output.now) }
{
    match output {
        Some(output) => {
            Ok(Some(Output {
                text: output.text.copy(alloc)?,
                kind: output.kind,
            }))
        }
        None => Ok(None),
    }
}
