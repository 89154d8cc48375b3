// Whole texts.
ghost use Rattle.std.specs.Prelude.{◌≤◌, OnOk, OnErr};
ghost use Rattle.link_io.specs.Outside.{Rose, Took, TookLess};

use crate::files::Failed;
use crate::sink::Sink;

/// Writes a whole text. At `Failed` the sink took a beginning of it, but not all.
pub fn write_all<O: Sink>(out: &mut O, text: &[u8]) -> Result<(), Failed>
    ensures ok { OnOk result (Took (O.taken out.old) (O.taken out.new) text.now) }
    ensures cut { OnErr result (TookLess (O.taken out.old) (O.taken out.new) text.now) }
    ensures later { O.faults out.old ≤ O.faults out.new }
    ensures failed { OnErr result (Rose (O.faults out.old) (O.faults out.new)) }
{
    let mut rest = text;
    while !rest.is_empty() {
        match out.write(rest) {
            Ok(count) => rest = &rest[count..],
            Err(_) => return Err(Failed),
        }
    }
    Ok(())
}
