// What a visitor is sent.
use py_value::{ErrorKind, Lines, Text};

/// How a cell ended.
#[derive(Clone, Copy, Debug, PartialEq, Eq)]
pub enum Status {
    /// It ran to its end.
    Ok,
    /// It ended with an error.
    Error,
    /// `mo.stop` ended it.
    Stopped,
    /// It didn't run, since one of its parents isn't ok.
    Cancelled,
}

/// The type of an output.
#[derive(Clone, Copy, Debug, PartialEq, Eq)]
pub enum OutputKind {
    /// The text of a value.
    Plain,
    /// What `mo.md`, `mo.hstack` and their like make.
    Html,
    /// An element.
    Element,
}

/// The output of a cell: the text of its last value.
#[derive(Debug, Drop)]
pub struct Output {
    pub text: Text,
    pub kind: OutputKind,
}

/// The error that ended a cell, and the number of the line that was running, from 1.
#[derive(Clone, Copy, Debug, PartialEq, Eq)]
pub struct CellError {
    pub kind: ErrorKind,
    pub line: u32,
}

/// The result of a cell. Cells have numbers from 0 in file order.
#[derive(Debug, Drop)]
pub struct CellFrame {
    pub cell: u32,
    pub status: Status,
    pub output: Option<Output>,
    pub console: Lines,
    pub error: Option<CellError>,
}

/// One part of an answer.
#[derive(Debug, Drop)]
pub enum Frame {
    /// The result of a cell.
    Cell(CellFrame),
    /// The end of an answer, with the number of its cell frames.
    Done(u32),
    /// The bytes are no message.
    BadMessage,
    /// The message can't come at this time.
    BadOrder,
    /// No element of this name is in being.
    NoElement(Text),
    /// The element of this name doesn't admit the value.
    NoValue(Text),
}
