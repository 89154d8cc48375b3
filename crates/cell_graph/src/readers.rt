// The table from each name to the cells that reference it.
ghost use Rattle.std.specs.Prelude.{◌≡◌, ℕ, ◌^◌, ◌<◌, ◌==◌, ◌&&◌, ◌||◌, IfOk, OnOk, length};
ghost use Rattle.py_tree.specs.Names.{Name, is_among};
ghost use Rattle.cell_graph.specs.Readers.{cells_at, HasReaders};
ghost use Rattle.graph_meaning.specs.Graph.{is_in};

use crate::cell_list::CellList;
use py_value::{Lines, Memory, NameMap, Text};
use std::alloc::Global;

// For each name the cells that reference it.
pub(crate) type Readers = NameMap<CellList>;

// The table of the names that the cells reference.
pub(crate) fn readers(alloc: Global, refs: &[Lines]) -> Result<Readers, Memory>
    requires { length refs.now < 2 ^ 32 }
    ensures { IfOk result (λ table. HasReaders refs.now table) }
{
    let mut table = NameMap::new(alloc);
    for cell in 0..refs.len() {
        add_reader(alloc, &mut table, refs[cell].items(), cell as u32)?;
    }
    Ok(table)
}

// Adds a cell at each name that it references.
fn add_reader(alloc: Global, table: &mut Readers, names: &[Text], cell: u32) -> Result<(), Memory>
    ensures { OnOk result
        ((x : Name) (c : ℕ)
        → is_in c (cells_at table.new x)
        ≡ (is_in c (cells_at table.old x) || ((cell == c) && is_among x names.now))) }
{
    for name in names {
        let mut cells = match table.remove(name.items()) {
            Some(cells) => cells,
            None => CellList::of(Vec::new(alloc)),
        };
        cells.push(cell)?;
        table.put(name.copy(alloc)?, cells)?;
    }
    Ok(())
}
