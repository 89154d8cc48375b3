// The lines of frames.
ghost use Rattle.std.specs.Prelude.{◌≡◌, ◌∷◌, [], ◌++◌, OnOk};
ghost use Rattle.frame_meaning.specs.FrameText.{frame_text};

use frames::Frame;
use nb_json::push_frame;
use py_value::Memory;
use std::alloc::Global;

/// Makes the line the one of a frame: a label, the text of the frame and a line end.
pub fn set_line(
    alloc: Global,
    line: &mut Vec<u8>,
    label: &[u8],
    frame: &Frame,
) -> Result<(), Memory>
    ensures { OnOk result (line.new.items ≡ label.now ++ frame_text frame.now ++ 10 ∷ []) }
{
    line.clear();
    line.extend_from_slice(label)?;
    push_frame(alloc, line, frame)?;
    line.push(b'\n')?;
    Ok(())
}
