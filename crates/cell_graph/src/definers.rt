// The table from each defined name to its cell.
ghost use Rattle.std.specs.Prelude.{◌≡◌, ◌^◌, ◌<◌, ◌++◌, ◌∷◌, [], List, OnOk, IfOk, IfErr, length};
ghost use Rattle.py_tree.specs.Names.{Name};
ghost use Rattle.py_tree.specs.Trees.{Cell};
ghost use Rattle.cell_graph.specs.Definers.{list_at, FindsLists};
ghost use Rattle.cell_graph.specs.Tables.{AreDefs};
ghost use Rattle.cell_graph.specs.Causes.{IsCauseOf};
ghost use Rattle.cell_graph.specs.declared.fault.GraphFault.TheVariants as fault;

use crate::fault::GraphFault;
use indexmap::IndexMap;
use py_value::{Lines, Memory, Text};
use std::alloc::Global;

// For each name the cell that defines it.
pub(crate) type Definers<'a> = IndexMap<&'a str, u32>;

// The table of the names that the cells define, where no name is defined in two of them.
pub(crate) fn definers<'a>(alloc: Global, defs: &'a [Lines]) -> Result<Definers<'a>, GraphFault>
    requires { length defs.now < 2 ^ 32 }
    ensures finds { IfOk result (λ table. FindsLists defs.now (list_at table)) }
    ensures refused { IfErr result
        (λ e. (nb : List Cell) → AreDefs nb defs.now → IsCauseOf e nb) }
{
    let mut table = IndexMap::new(alloc);
    for cell in 0..defs.len() {
        add_definitions(alloc, &mut table, defs[cell].items(), cell as u32)?;
    }
    Ok(table)
}

// Adds the names that the next cell defines to the table of those before it.
fn add_definitions<'a>(
    alloc: Global,
    table: &mut Definers<'a>,
    names: &'a [Text],
    cell: u32,
) -> Result<(), GraphFault>
    ensures finds { OnOk result
        ((lists : List (List Name)) → length lists ≡ cell → FindsLists lists (list_at table.old)
        → FindsLists (lists ++ names.now ∷ []) (list_at table.new)) }
    ensures refused { IfErr result
        (λ e. (nb : List Cell) (lists later : List (List Name)) → length lists ≡ cell
        → AreDefs nb (lists ++ names.now ∷ later) → FindsLists lists (list_at table.old)
        → IsCauseOf e nb) }
{
    for name in names {
        if let Some(first) = table.insert(name.items(), cell)? {
            // It always holds, as the names of a cell differ; but that is shown nowhere, and without the test it would have to be.
            if first != cell {
                return Err(doubly(alloc, name.items(), first, cell)?);
            }
        }
    }
    Ok(())
}

// The fault of a name that an earlier cell defines.
fn doubly(alloc: Global, name: &str, first: u32, second: u32) -> Result<GraphFault, Memory>
    ensures { IfOk result (λ e. e ≡ fault.Doubly name.now first second) }
{
    Ok(GraphFault::Doubly {
        name: Text::of(String::from_str(alloc, name)?),
        first,
        second,
    })
}
