// The text of frames, as RFC 8259 has it, where no notebook gives them yet.
use frames::{CellFrame, Frame, Output, OutputKind, Status};
use nb_json::push_frame;
use py_value::{Lines, Memory, Text};
use std::alloc::Global;
use std::test::Fail;

fn frame_text(alloc: Global, frame: &Frame) -> Result<Vec<u8>, Memory> {
    let mut out = Vec::new(alloc);
    push_frame(alloc, &mut out, frame)?;
    Ok(out)
}

// A cell that printed two lines, and then gave this.
fn printed(alloc: Global, kind: OutputKind) -> Result<CellFrame, Memory> {
    let first = Text::copied(alloc, "x")?;
    let second = Text::copied(alloc, "y z")?;
    let console = Vec::from_array(alloc, [first, second])?;
    let text = Text::copied(alloc, "5")?;
    Ok(CellFrame {
        cell: 1,
        status: Status::Ok,
        output: Some(Output { text, kind }),
        console: Lines::of(console),
        error: None,
    })
}

// A cell that `mo.stop` ended.
fn stopped(alloc: Global) -> CellFrame {
    CellFrame {
        cell: 20,
        status: Status::Stopped,
        output: None,
        console: Lines::of(Vec::new(alloc)),
        error: None,
    }
}

#[test]
fn writes_frames(rt: HostRuntime) -> Result<(), Fail> {
    let alloc = rt.alloc();
    let cases: [(OutputKind, &[u8]); 3] = [
        (
            OutputKind::Plain,
            b"{\"cell\":1,\"console\":[\"x\",\"y z\"],\"error\":null,\"output\":{\"text\":\"5\",\"type\":\"plain\"},\"status\":\"ok\"}",
        ),
        (
            OutputKind::Html,
            b"{\"cell\":1,\"console\":[\"x\",\"y z\"],\"error\":null,\"output\":{\"text\":\"5\",\"type\":\"html\"},\"status\":\"ok\"}",
        ),
        (
            OutputKind::Element,
            b"{\"cell\":1,\"console\":[\"x\",\"y z\"],\"error\":null,\"output\":{\"text\":\"5\",\"type\":\"element\"},\"status\":\"ok\"}",
        ),
    ];
    for (kind, wanted) in cases {
        let frame = Frame::Cell(printed(alloc, kind)?);
        assert_eq!(rt; frame_text(alloc, &frame)?.as_slice(), wanted);
    }
    let got = frame_text(alloc, &Frame::Cell(stopped(alloc)))?;
    let wanted =
        b"{\"cell\":20,\"console\":[],\"error\":null,\"output\":null,\"status\":\"stopped\"}";
    assert_eq!(rt; got.as_slice(), wanted.as_slice());

    let name = "a\"b\\c/\u{8}\t\n\u{c}\r\u{1}\u{1f}\u{7f}é€😀 ";
    let got = frame_text(alloc, &Frame::NoValue(Text::copied(alloc, name)?))?;
    let wanted =
        "{\"name\":\"a\\\"b\\\\c/\\b\\t\\n\\f\\r\\u0001\\u001f\u{7f}é€😀 \",\"refused\":\"value\"}";
    assert_eq!(rt; got.as_slice(), wanted.as_bytes());
    Ok(())
}
