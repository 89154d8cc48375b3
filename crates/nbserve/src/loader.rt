// Notebooks from their files.
ghost use Rattle.std.specs.Prelude.{IfErr, IfOk};
ghost use Rattle.nbserve.specs.CommandFault.{IsWhy};
ghost use Rattle.program_meaning.specs.Program.{IsAccepted};
ghost use Rattle.py_tree.specs.View.{view_cells};

use crate::command_fault::CommandFault;
use crate::refusal::Refusal;
use cell_graph::{GraphFault, Notebook, notebook};
use std::alloc::Global;
use thin_form::{ThinFault, thin};

/// The notebook of which these bytes are the file. They have the form, no name is defined in two cells, and no cell lies on a cycle.
pub fn load(alloc: Global, bytes: &[u8]) -> Result<Notebook, CommandFault>
    ensures loaded { IfOk result (λ nb. IsAccepted bytes.now (view_cells nb)) }
    ensures refused { IfErr result (λ why. IsWhy why bytes.now) }
{
    let cells = thin(alloc, bytes)?;
    Ok(notebook(alloc, cells)?)
}

impl From<ThinFault> for CommandFault {
    ghost use Rattle.std.specs.Prelude.{◌≡◌};
    ghost use Rattle.nbserve.specs.LoadFault.{of_form};

    ghost from_gives = { λ fault why. why ≡ of_form fault };

    fn from(fault: ThinFault) -> CommandFault {
        match fault {
            ThinFault::Thin { line } => CommandFault::Refused(Refusal::Thin { line }),
            ThinFault::Memory => CommandFault::Memory,
        }
    }
}

impl From<GraphFault> for CommandFault {
    ghost use Rattle.std.specs.Prelude.{◌≡◌};
    ghost use Rattle.nbserve.specs.LoadFault.{of_graph};

    ghost from_gives = { λ fault why. why ≡ of_graph fault };

    fn from(fault: GraphFault) -> CommandFault {
        match fault {
            GraphFault::Doubly {
                name,
                first,
                second,
            } => {
                CommandFault::Refused(Refusal::Doubly {
                    name,
                    first,
                    second,
                })
            }
            GraphFault::Cycle { cells } => CommandFault::Refused(Refusal::Cycle { cells }),
            GraphFault::Memory => CommandFault::Memory,
        }
    }
}
