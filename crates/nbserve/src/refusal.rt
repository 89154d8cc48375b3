// Why a notebook is refused, and the line that says so.
ghost use Rattle.std.specs.Prelude.{◌≡◌, ◌++◌, IfOk, OnOk, codes, decimal, flat_map, string_bytes};
ghost use Rattle.nbserve.specs.Refusal.{refusal_of};
ghost use Rattle.program_meaning.specs.Program as program;

use cell_graph::CellList;
use py_value::Text;
use std::alloc::{AllocError, Global};

/// Why a notebook is refused.
#[derive(Debug, Drop)]
pub enum Refusal {
    /// The file has not the form, at this line; line 0 stands for a file that is too long.
    Thin { line: u32 },
    /// A name is defined again, as `GraphFault::Doubly` tells.
    Doubly { name: Text, first: u32, second: u32 },
    /// These are all cells that lie on a cycle, in file order.
    Cycle { cells: CellList },
}

/// The line for a notebook that is refused.
pub fn refusal_text(alloc: Global, why: &Refusal) -> Result<String, AllocError>
    ensures { IfOk result (λ text. string_bytes text ≡ program.refusal_text (refusal_of why.now)) }
{
    match why {
        Refusal::Thin { line } => format!(in alloc; "refused {line} Thin\n"),
        Refusal::Doubly {
            name,
            first,
            second,
        } => doubly_text(alloc, name.items(), *first, *second),
        Refusal::Cycle { cells } => cycle_text(alloc, cells.items()),
    }
}

// The line for a name that is defined again.
fn doubly_text(alloc: Global, name: &str, first: u32, second: u32) -> Result<String, AllocError>
    ensures { IfOk result
        (λ text. string_bytes text ≡ program.refusal_text (program.Doubly name.now first second)) }
{
    format!(in alloc; "refused doubly {name} {first} {second}\n")
}

// The line for cells on a cycle.
fn cycle_text(alloc: Global, cells: &[u32]) -> Result<String, AllocError>
    ensures { IfOk result
        (λ text. string_bytes text ≡ program.refusal_text (program.Cycle cells.now)) }
{
    let mut text = String::from_str(alloc, "refused cycle")?;
    push_cells(&mut text, cells)?;
    text.push_str("\n")?;
    Ok(text)
}

// Appends the numbers of cells, each after a space.
fn push_cells(text: &mut String, cells: &[u32]) -> Result<(), AllocError>
    ensures { OnOk result
        (string_bytes text.new
        ≡ string_bytes text.old ++ flat_map (λ c. codes " " ++ decimal c) cells.now) }
{
    for cell in cells {
        write!(text, " {cell}")?;
    }
    Ok(())
}
