// Files of the thin form.
ghost use Rattle.std.specs.Prelude.{◌≡◌, IfOk, IfErr, List};
ghost use Rattle.thin_form.specs.Refused.{IsCauseOf};
ghost use Rattle.form_meaning.specs.Thin.{IsForm};
ghost use Rattle.py_tree.specs.Trees.{Cell};
ghost use Rattle.py_tree.specs.View.{view_cells};

use crate::cells::read_cells;
use crate::reader::Reader;
use crate::slider_names::SliderNames;
use py_tree::{BYTE_LIMIT, CellCode};
use py_value::Memory;
use std::alloc::{AllocFailed, Global};

// The greatest number of body lines.
const BODY_LINES: u32 = 1000;

/// Why bytes are no file of the thin form.
#[derive(Clone, Copy, Debug, PartialEq, Eq)]
pub enum ThinFault {
    /// The first line that doesn't fit, counted from 1: for one that has to stand alone and has an indented line behind it, that one itself.
    /// Where the file ends too early, the number of its line feeds and one more; where it has too many bytes, 0.
    Thin { line: u32 },
    /// Memory was wanting.
    Memory,
}

impl From<Memory> for ThinFault {
    ghost use Rattle.std.specs.Prelude.{◌≡◌};
    ghost use Rattle.thin_form.specs.declared.thin_file.ThinFault.TheVariants as fault;

    ghost from_gives = { λ _ e. e ≡ fault.Memory };

    fn from(_: Memory) -> Self {
        ThinFault::Memory
    }
}

impl<T: Drop> From<AllocFailed<T>> for ThinFault {
    ghost use Rattle.std.specs.Prelude.{◌≡◌};
    ghost use Rattle.thin_form.specs.declared.thin_file.ThinFault.TheVariants as fault;

    ghost from_gives = { λ _ e. e ≡ fault.Memory };

    fn from(_: AllocFailed<T>) -> Self {
        ThinFault::Memory
    }
}

/// The cells of a file of the thin form. It refuses exactly the other bytes, and names the line at which they fail.
pub fn thin(alloc: Global, bytes: &[u8]) -> Result<Vec<CellCode>, ThinFault>
    ensures cells { IfOk result (λ cells. IsForm bytes.now (view_cells cells.items)) }
    ensures only { (nb : List Cell) → IsForm bytes.now nb
        → IfOk result (λ cells. view_cells cells.items ≡ nb) }
    ensures refused { IfErr result (λ e. IsCauseOf e bytes.now) }
{
    if bytes.len() > BYTE_LIMIT {
        return Err(ThinFault::Thin { line: 0 });
    }
    let elements = SliderNames::of(alloc, bytes)?;
    let mut reader = Reader::new(bytes, BODY_LINES);
    reader.expect(b"import marimo")?;
    reader.expect(b"app = marimo.App()")?;
    let cells = read_cells(alloc, &mut reader, &elements)?;
    reader.expect(b"if __name__ == \"__main__\":")?;
    reader.expect(b"    app.run()")?;
    if !reader.is_at_end() {
        return Err(reader.fault());
    }
    Ok(cells)
}
