// Why some cells are no notebook.
ghost use Rattle.std.specs.Prelude.{◌≡◌};

use crate::cell_list::CellList;
use py_value::{Memory, Text};
use std::alloc::AllocFailed;

/// Why cells are no notebook.
#[derive(Debug, Drop)]
pub enum GraphFault {
    /// A name is defined again: `second` is the earliest cell that defines a name of a cell before it, `name` is the first of its
    /// names that is so, and `first` is where that is defined first.
    Doubly { name: Text, first: u32, second: u32 },
    /// No name is defined in two cells, and these are all cells that lie on a cycle, in file order.
    Cycle { cells: CellList },
    /// Memory was wanting.
    Memory,
}

impl From<Memory> for GraphFault {
    ghost use Rattle.cell_graph.specs.declared.fault.GraphFault.{GraphFault};
    ghost use Rattle.cell_graph.specs.declared.fault.GraphFault.TheVariants as fault;

    ghost from_gives = { λ _ e. e ≡ fault.Memory };

    fn from(_: Memory) -> Self {
        GraphFault::Memory
    }
}

impl<T: Drop> From<AllocFailed<T>> for GraphFault {
    ghost use Rattle.cell_graph.specs.declared.fault.GraphFault.{GraphFault};
    ghost use Rattle.cell_graph.specs.declared.fault.GraphFault.TheVariants as fault;

    ghost from_gives = { λ _ e. e ≡ fault.Memory };

    fn from(_: AllocFailed<T>) -> Self {
        GraphFault::Memory
    }
}
