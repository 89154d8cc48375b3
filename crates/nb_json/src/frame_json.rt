// The text of frames.
ghost use Rattle.std.specs.Prelude.{◌≡◌, ◌∷◌, ◌++◌, OnOk, flat_map, map};
ghost use Rattle.frame_meaning.specs.FrameText.{json_string, array, kind_name, status_name, output_name, error_text, output_text, cell_text, named_refused_text, frame_text};

use crate::json_text::{push_number, push_quoted};
use frames::{CellError, CellFrame, Frame, Output, OutputKind, Status};
use py_value::{ErrorKind, Memory, Text};
use std::alloc::{AllocError, Global};

/// Appends the text of a frame: compact JSON (RFC 8259), the members of each object in the order of their names. After `Memory`
/// nothing is said of what was appended.
pub fn push_frame(alloc: Global, out: &mut Vec<u8>, frame: &Frame) -> Result<(), Memory>
    ensures { OnOk result (out.new.items ≡ out.old.items ++ frame_text frame.now) }
{
    match frame {
        Frame::Cell(frame) => push_cell(alloc, out, frame)?,
        Frame::Done(count) => push_done(alloc, out, *count)?,
        Frame::BadMessage => out.extend_from_slice(b"{\"refused\":\"message\"}")?,
        Frame::BadOrder => out.extend_from_slice(b"{\"refused\":\"order\"}")?,
        Frame::NoElement(name) => push_named_refusal(out, name, b"element")?,
        Frame::NoValue(name) => push_named_refusal(out, name, b"value")?,
    }
    Ok(())
}

// The result of a cell.
fn push_cell(alloc: Global, out: &mut Vec<u8>, frame: &CellFrame) -> Result<(), AllocError>
    ensures { OnOk result (out.new.items ≡ out.old.items ++ cell_text frame.now) }
{
    out.extend_from_slice(b"{\"cell\":")?;
    push_number(alloc, out, frame.cell)?;
    out.extend_from_slice(b",\"console\":")?;
    push_lines(out, frame.console.items())?;
    out.extend_from_slice(b",\"error\":")?;
    push_error(alloc, out, frame.error)?;
    out.extend_from_slice(b",\"output\":")?;
    push_output(out, &frame.output)?;
    out.extend_from_slice(b",\"status\":")?;
    push_quoted(out, status_text(frame.status))?;
    out.extend_from_slice(b"}")
}

// The lines that a cell printed.
fn push_lines(out: &mut Vec<u8>, lines: &[Text]) -> Result<(), AllocError>
    ensures { OnOk result (out.new.items ≡ out.old.items ++ array (map json_string lines.now)) }
{
    let Some((first, others)) = lines.split_first() else {
        return out.extend_from_slice(b"[]");
    };
    out.extend_from_slice(b"[")?;
    push_quoted(out, first.items().as_bytes())?;
    push_further_lines(out, others)?;
    out.extend_from_slice(b"]")
}

// Lines, each after a comma.
fn push_further_lines(out: &mut Vec<u8>, lines: &[Text]) -> Result<(), AllocError>
    ensures { OnOk result
        (out.new.items ≡ out.old.items ++ flat_map (λ line. 44 ∷ json_string line) lines.now) }
{
    for line in lines {
        out.extend_from_slice(b",")?;
        push_quoted(out, line.items().as_bytes())?;
    }
    Ok(())
}

// The error of a cell, or null.
fn push_error(alloc: Global, out: &mut Vec<u8>, error: Option<CellError>) -> Result<(), AllocError>
    ensures { OnOk result (out.new.items ≡ out.old.items ++ error_text error) }
{
    match error {
        None => out.extend_from_slice(b"null"),
        Some(error) => {
            out.extend_from_slice(b"{\"kind\":")?;
            push_quoted(out, kind_text(error.kind))?;
            out.extend_from_slice(b",\"line\":")?;
            push_number(alloc, out, error.line)?;
            out.extend_from_slice(b"}")
        }
    }
}

// The output of a cell, or null.
fn push_output(out: &mut Vec<u8>, output: &Option<Output>) -> Result<(), AllocError>
    ensures { OnOk result (out.new.items ≡ out.old.items ++ output_text output.now) }
{
    match output {
        None => out.extend_from_slice(b"null"),
        Some(output) => {
            out.extend_from_slice(b"{\"text\":")?;
            push_quoted(out, output.text.items().as_bytes())?;
            out.extend_from_slice(b",\"type\":")?;
            push_quoted(out, output_kind_text(output.kind))?;
            out.extend_from_slice(b"}")
        }
    }
}

// The end of an answer.
fn push_done(alloc: Global, out: &mut Vec<u8>, count: u32) -> Result<(), AllocError>
    ensures { OnOk result (out.new.items ≡ out.old.items ++ frame_text (Frame.Done count)) }
{
    out.extend_from_slice(b"{\"done\":")?;
    push_number(alloc, out, count)?;
    out.extend_from_slice(b"}")
}

// A refusal that has to do with the element of a name.
fn push_named_refusal(out: &mut Vec<u8>, name: &Text, what: &[u8]) -> Result<(), AllocError>
    ensures { OnOk result (out.new.items ≡ out.old.items ++ named_refused_text name.now what.now) }
{
    out.extend_from_slice(b"{\"name\":")?;
    push_quoted(out, name.items().as_bytes())?;
    out.extend_from_slice(b",\"refused\":")?;
    push_quoted(out, what)?;
    out.extend_from_slice(b"}")
}

// The name of a kind of errors.
fn kind_text(kind: ErrorKind) -> &'static [u8]
    ensures { result.now ≡ kind_name kind }
{
    match kind {
        ErrorKind::NameError => b"NameError",
        ErrorKind::TypeError => b"TypeError",
        ErrorKind::ValueError => b"ValueError",
        ErrorKind::IndexError => b"IndexError",
        ErrorKind::KeyError => b"KeyError",
        ErrorKind::AttributeError => b"AttributeError",
        ErrorKind::ZeroDivisionError => b"ZeroDivisionError",
        ErrorKind::RuntimeError => b"RuntimeError",
        ErrorKind::RecursionError => b"RecursionError",
        ErrorKind::IntRange => b"IntRange",
        ErrorKind::Subset => b"Subset",
        ErrorKind::Spent => b"Spent",
    }
}

// The name of a status.
fn status_text(status: Status) -> &'static [u8]
    ensures { result.now ≡ status_name status }
{
    match status {
        Status::Ok => b"ok",
        Status::Error => b"error",
        Status::Stopped => b"stopped",
        Status::Cancelled => b"cancelled",
    }
}

// The name of a type of outputs.
fn output_kind_text(kind: OutputKind) -> &'static [u8]
    ensures { result.now ≡ output_name kind }
{
    match kind {
        OutputKind::Plain => b"plain",
        OutputKind::Html => b"html",
        OutputKind::Element => b"element",
    }
}
