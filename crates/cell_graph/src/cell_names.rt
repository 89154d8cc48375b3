// The names that a cell defines and references.
ghost use Rattle.std.specs.Prelude.{◌≡◌, IfOk};
ghost use Rattle.py_tree.specs.Scope as scope;
ghost use Rattle.py_tree.specs.View.{view_cell};

use crate::free_names::{is_free, is_local};
use crate::name_set::{lines_of, set_of};
use crate::scope::{add_bound, add_read};
use py_tree::CellCode;
use py_value::{Lines, Memory};
use std::alloc::Global;

/// The names that a cell defines, each once, in the order of their first tokens: those that it binds at cell scope and that
/// don't begin with `_` (marimo's documentation, "Reactivity"; Python language reference, section 4.2).
pub fn defs(alloc: Global, cell: &CellCode) -> Result<Lines, Memory>
    ensures { IfOk result (λ names. names ≡ scope.defs (view_cell cell.now)) }
{
    let mut bound = Vec::new(alloc);
    add_bound(&mut bound, &cell.body)?;
    bound.retain(|name| !is_local(*name));
    lines_of(alloc, &set_of(alloc, bound.as_slice())?)
}

/// The names that a cell references, each once, in the order of their first tokens: those that it reads and doesn't bind, that
/// don't begin with `_` and are no builtins.
pub fn refs(alloc: Global, cell: &CellCode) -> Result<Lines, Memory>
    ensures { IfOk result (λ names. names ≡ scope.refs (view_cell cell.now)) }
{
    let mut bound = Vec::new(alloc);
    add_bound(&mut bound, &cell.body)?;
    let bound_set = set_of(alloc, bound.as_slice())?;
    let mut read = Vec::new(alloc);
    add_read(&mut read, &cell.body)?;
    read.retain(|name| is_free(&bound_set, *name));
    lines_of(alloc, &set_of(alloc, read.as_slice())?)
}
