// Sets of names in the order in which they were first seen.
ghost use Rattle.std.specs.Prelude.{◌≡◌, IfOk};
ghost use Rattle.cell_graph.specs.Texts.{texts};
ghost use Rattle.py_tree.specs.Names as names;

use indexmap::IndexSet;
use py_value::{Lines, Memory, Text};
use std::alloc::Global;

// These names, each once.
pub(crate) fn set_of<'a>(alloc: Global, all: &[&'a str]) -> Result<IndexSet<&'a str>, Memory>
    ensures { IfOk result (λ set. texts set.keys ≡ names.first_seen (texts all.now)) }
{
    let mut set = IndexSet::new(alloc);
    for name in all {
        set.insert(*name)?;
    }
    Ok(set)
}

// Whether the name is in the set.
pub(crate) fn has(set: &IndexSet<&str>, name: &str) -> bool
    ensures { result ≡ names.is_among name.now (texts set.now.keys) }
{
    set.contains(name)
}

// Copies of the names, in order.
pub(crate) fn lines_of(alloc: Global, set: &IndexSet<&str>) -> Result<Lines, Memory>
    ensures { IfOk result (λ lines. lines ≡ texts set.now.keys) }
{
    let mut lines = Vec::new(alloc);
    for name in set.as_slice() {
        lines.push(Text::of(String::from_str(alloc, *name)?))?;
    }
    Ok(Lines::of(lines))
}
